// Kind 2: a legal entity identifier (LEI), ISO 17442.
#![tactic(auto)]

ghost use Rattle.std.specs.Prelude.{◌≡◌};
ghost use Rattle.lei.specs.Lei.{lei_characters, lei_answer};

use answer::{Answer, Step};
use text::Set;

// Every step but the remainder.
#[tactic(auto, using(answer::proofs::Laws::steps), unfolding(crate::specs::Lei::lei_characters))]
pub fn characters(s: &[u8]) -> Step
    ensures { result ≡ lei_characters s.now }
{
    text::length_is(s, 20, 201)?;
    text::first_wrong(Set::CapitalsDigits, s, 0, 20, 202)?;
    text::first_wrong(Set::Digits, s, 18, 20, 203)
}

// The sum is made only where the characters are right.
#[tactic(auto, using(answer::proofs::Laws::steps), unfolding(crate::specs::Lei::lei_answer))]
pub fn validate_lei(s: &[u8]) -> Answer
    ensures { result ≡ lei_answer s.now }
{
    characters(s)?;
    checkdigit::remainder_is_one(checkdigit::remainder(s), 204)?;
    Ok(1)
}
