// Kind 3, the business identifier code.
#![tactic(auto)]

ghost use Rattle.std.specs.Prelude.{◌≡◌};
ghost use Rattle.bic.specs.Bic.{bic_length, bic_answer};

use answer::{Answer, Reason, Step, must};
use text::Set;

#[tactic(auto, unfolding(crate::specs::Bic::bic_length))]
fn bic_length(s: &[u8]) -> Step
    ensures { result ≡ bic_length s.now }
{
    let count = s.len() as u64;
    must(
        matches!(s.len(), 8 | 11),
        Reason::Length { place: 0, count },
        301,
    )
}

// The characters are looked at only where the length is right, so that another length costs nothing.
#[tactic(auto, using(answer::proofs::Laws::steps), unfolding(crate::specs::Bic::bic_answer))]
pub fn validate_bic(s: &[u8]) -> Answer
    ensures { result ≡ bic_answer s.now }
{
    bic_length(s)?;
    text::first_wrong(Set::Capitals, s, 0, 6, 302)?;
    text::first_wrong(Set::CapitalsDigits, s, 6, s.len(), 303)?;
    Ok(0)
}
