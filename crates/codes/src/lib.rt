// Codes of capital letters that stand on a list: the rule that kinds 7 and 8 share.
#![tactic(auto)]

ghost use Rattle.std.specs.Prelude.{◌≡◌, ◌+◌, ◌*◌};
ghost use Rattle.codes.specs.Codes.{well_spelt, packed, among};
ghost use Rattle.codes.specs.Inner.{packed_fit, table_rule};

use answer::{Answer, Reason, Step, must};
use text::Set;

// The steps that come before the search in the list, for a code of n bytes. The kind is its number, since the steps' check numbers are
// computed from it.
#[tactic(auto, using(answer::proofs::Laws::steps), unfolding(crate::specs::Codes::well_spelt))]
pub fn well_spelt(kind: u8, n: usize, s: &[u8]) -> Step
    ensures { result ≡ well_spelt kind n s.now }
{
    let first = 100 * u16::from(kind);
    text::present(0, s.len(), first + 1)?;
    text::length_is(s, n, first + 2)?;
    text::first_wrong(Set::Letters, s, 0, n, first + 3)?;
    text::first_wrong(Set::Capitals, s, 0, n, first + 4)
}

// Three bytes packed into one number, the first the highest, so that one comparison compares a whole code. A code of two bytes has 0 for
// the first.
pub fn pack(a: u8, b: u8, c: u8) -> u32
    ensures { result ≡ 65536 * a + 256 * b + c }
{
    65536 * u32::from(a) + 256 * u32::from(b) + u32::from(c)
}

// The number of a code of any length; one that has more than 32 bits has none. The codes of the two lists have two and three bytes.
#[tactic(auto, using(crate::proofs::Laws::two_fit, crate::proofs::Laws::three_fit))]
fn packed_fit(code: &[u8]) -> Option<u32>
    ensures { result ≡ packed_fit code.now }
{
    match code {
        [b, c] => return Some(pack(0, *b, *c)),
        [a, b, c] => return Some(pack(*a, *b, *c)),
        _ => {}
    }
    let mut n: u32 = 0;
    for b in code {
        n = n.checked_mul(256)?.checked_add(u32::from(*b))?;
    }
    Some(n)
}

// Whether a code stands in a table of packed codes.
#[tactic(auto, using(crate::proofs::Laws::past_table), unfolding(crate::specs::Inner::packed_fit))]
fn listed(table: &[u32], code: &[u8]) -> bool
    ensures { result ≡ among table.now (packed code.now) }
{
    packed_fit(code).is_some_and(|n| table.contains(&n))
}

// The rule of a kind whose codes have n bytes and stand in a table, each packed.
#[tactic(auto, using(answer::proofs::Laws::steps), unfolding(crate::specs::Inner::table_rule))]
pub fn validate_code(kind: u8, n: usize, table: &[u32], s: &[u8]) -> Answer
    ensures { result ≡ table_rule kind n table.now s.now }
{
    well_spelt(kind, n, s)?;
    must(
        listed(table, s),
        Reason::NotListed,
        100 * u32::from(kind) + 5,
    )?;
    Ok(0)
}
