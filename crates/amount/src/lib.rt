// Amounts, kind 6: one `+` or none, up to 18 digits, and after a `.` one to 5 more, not all of them zero.
#![tactic(auto)]

ghost use Rattle.std.specs.Prelude.{◌≡◌, ◌<◌};
ghost use Rattle.amount.specs.Amount.{start, at_most, part, fraction, no_minus, all_zero, not_zero, validate_amount};

use answer::{Answer, Reason, Step, must};
use text::Set;

#[tactic(auto, unfolding(crate::specs::Amount::no_minus))]
fn no_minus(s: &[u8]) -> Step
    ensures { result ≡ no_minus s.now }
{
    must(text::at(s, 0) != b'-', Reason::NotPositive, 602)
}

// The place of the integer part: one `+` is skipped.
#[tactic(auto, unfolding(crate::specs::Amount::start))]
fn start(s: &[u8]) -> usize
    ensures { result ≡ start s.now }
{
    usize::from(text::at(s, 0) == b'+')
}

#[tactic(auto, unfolding(crate::specs::Amount::at_most))]
fn at_most(most: usize, from: usize, count: usize, check: u16) -> Step
    ensures { result ≡ at_most most from count check }
{
    must(
        count <= most,
        Reason::Length {
            place: from,
            count: count as u64,
        },
        u32::from(check),
    )
}

// A part from one place up to another: not empty, digits only, no more than so many. It is no slice, since a refusal tells a place of the field. Its
// check numbers count on from one that has room for them.
#[tactic(auto, using(answer::proofs::Laws::steps), unfolding(crate::specs::Amount::part))]
fn part(s: &[u8], from: usize, to: usize, most: usize, check: u16) -> Step
    requires { check < 1000 }
    ensures { result ≡ part s.now from to most check }
{
    text::present(from, to, check)?;
    text::first_wrong(Set::Digits, s, from, to, check + 1)?;
    at_most(most, from, to.saturating_sub(from), check + 2)
}

// What stands after the `.`, if there is one.
#[tactic(auto, unfolding(crate::specs::Amount::fraction))]
fn fraction(s: &[u8], dot: usize) -> Step
    ensures { result ≡ fraction s.now dot }
{
    if dot < s.len() {
        part(s, dot + 1, s.len(), 5, 606)
    } else {
        Ok(())
    }
}

fn all_zero(s: &[u8]) -> bool
    ensures { result ≡ all_zero s.now }
{
    !s.iter().any(|b| (b'1'..=b'9').contains(b))
}

#[tactic(auto, unfolding(crate::specs::Amount::not_zero))]
fn not_zero(s: &[u8]) -> Step
    ensures { result ≡ not_zero s.now }
{
    must(!all_zero(s), Reason::NotPositive, 609)
}

#[tactic(auto, using(answer::proofs::Laws::steps), unfolding(crate::specs::Amount::validate_amount))]
pub fn validate_amount(s: &[u8]) -> Answer
    ensures { result ≡ validate_amount s.now }
{
    text::present(0, s.len(), 601)?;
    no_minus(s)?;
    let dot = text::first_place(s, b'.');
    part(s, start(s), dot, 18, 603)?;
    fraction(s, dot)?;
    not_zero(s)?;
    Ok(0)
}
