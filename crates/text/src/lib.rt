// Bytes of a field: their classes, the numbers that digits write, and the steps that the rules share.
#![tactic(auto)]

ghost use Rattle.std.specs.Prelude.{◌≡◌, ◌+◌, ◌*◌, ◌^◌, ◌<◌, ◌≤◌, length, get_or, take, drop};
ghost use Rattle.std.specs.List.{prefix_len};
ghost use Rattle.text.specs.Ranges.{within};
ghost use Rattle.text.specs.Class.{class_of, holds, allowed};
ghost use Rattle.text.specs.Decimal.{digit_of, number_written, fitted};
ghost use Rattle.text.specs.Field.{
  first_place,
  length_is,
  present,
  wrong_from,
  first_wrong,
  literal_at,
  in_range,
  digits_in,
  two_digits,
  four_digits,
};

use answer::{Reason, Step, must};

#[derive(Clone, Copy)]
pub enum Class {
    Digit,
    Capital,
    Small,
    Other,
}

// The sets of bytes that the rules allow at a place.
#[derive(Clone, Copy)]
pub enum Set {
    Digits,
    Capitals,
    Letters,
    CapitalsDigits,
    LettersDigits,
}

#[tactic(auto, unfolding(crate::specs::Class::class_of))]
pub fn classify(b: u8) -> Class
    ensures { result ≡ class_of b }
{
    match b {
        b'0'..=b'9' => Class::Digit,
        b'A'..=b'Z' => Class::Capital,
        b'a'..=b'z' => Class::Small,
        _ => Class::Other,
    }
}

impl Set {
    fn has(self, c: Class) -> bool
        ensures { result ≡ holds self c }
    {
        match self {
            Set::Digits => matches!(c, Class::Digit),
            Set::Capitals => matches!(c, Class::Capital),
            Set::Letters => matches!(c, Class::Capital | Class::Small),
            Set::CapitalsDigits => matches!(c, Class::Capital | Class::Digit),
            Set::LettersDigits => !matches!(c, Class::Other),
        }
    }

    pub fn allows(self, b: u8) -> bool
        ensures { result ≡ allowed self b }
    {
        self.has(classify(b))
    }
}

// The byte at a place, and 0 past the end.
pub fn at(s: &[u8], i: usize) -> u8
    ensures { result ≡ get_or s.now i 0 }
{
    s.get(i).copied().unwrap_or(0)
}

// The place of the first byte b, and the length where there is none.
pub fn first_place(s: &[u8], b: u8) -> usize
    ensures { result ≡ first_place b s.now }
{
    s.iter().position(|x| *x == b).unwrap_or(s.len())
}

// The value of an ASCII digit; a byte below the digits counts as 0.
fn digit(b: u8) -> u64
    ensures value { result ≡ digit_of b }
    ensures small { result < 256 }
{
    u64::from(b.saturating_sub(b'0'))
}

// A number with one decimal digit more, where it is below 2^64. A number below 10^18 always has room for a digit: this test comes first, as it
// needs no sum. The sum is said once, after both tests: two sums, one checked, cost the cents of long numbers half as much again.
#[tactic(auto, using(crate::proofs::Decimals::fits, crate::proofs::Decimals::over))]
pub fn with_digit(n: u64, d: u64) -> Option<u64>
    ensures { result ≡ fitted (n * 10 + d) }
{
    let small = n < 1_000_000_000_000_000_000 && d < 256;
    if small || (n <= u64::MAX / 10 && d <= u64::MAX - n * 10) {
        return Some(n * 10 + d);
    }
    None
}

// The number that a text of digits writes, where it is below 2^64.
pub fn number_of(t: &[u8]) -> Option<u64>
    ensures { result ≡ fitted (number_written t.now) }
{
    let mut n = 0;
    for b in t {
        n = with_digit(n, digit(*b))?;
    }
    Some(n)
}

#[tactic(auto, unfolding(crate::specs::Field::length_is))]
pub fn length_is(s: &[u8], n: usize, check: u16) -> Step
    ensures { result ≡ length_is n s.now check }
{
    let count = s.len() as u64;
    must(
        s.len() == n,
        Reason::Length { place: 0, count },
        u32::from(check),
    )
}

// A part of the field has a byte at a place, which is before the part's end.
#[tactic(auto, unfolding(crate::specs::Field::present))]
pub fn present(at: usize, end: usize, check: u16) -> Step
    ensures { result ≡ present at end check }
{
    must(at < end, Reason::Missing { place: at }, u32::from(check))
}

// The first of n bytes from a place on that the set does not allow, one byte after the other. A step has the field and a place in it, and no
// slice from there on, since a refusal tells a place of the field; and it counts from 0, since the place and n may together be past what a
// `usize` holds. `first_wrong`, which has the part's end where this has a count, finds the same, and is quicker where the part's length is no
// constant. This one is for two and four digits, whose loop is written out, and for what is left of a loop that has its own place in the field.
pub fn wrong_from(set: Set, s: &[u8], from: usize, n: usize, check: u16) -> Step
    ensures { result ≡ wrong_from set s.now from n check }
{
    for k in 0..n {
        let place = from + k;
        must(
            set.allows(at(s, place)),
            Reason::Wrong { place },
            u32::from(check),
        )?;
    }
    Ok(())
}

// At most n bytes of a field from a place on: fewer where the field ends before.
fn window(s: &[u8], from: usize, n: usize) -> &[u8]
    ensures { result.now ≡ take n (drop from s.now) }
{
    let rest = s.get(from..).unwrap_or(&[]);
    rest.get(..n).unwrap_or(rest)
}

// How many bytes stand at the front of a text before the first that the set does not allow.
fn allowed_front(set: Set, t: &[u8]) -> usize
    ensures { result ≡ prefix_len (allowed set) t.now }
{
    t.iter().position(|b| !set.allows(*b)).unwrap_or(t.len())
}

// The first of the bytes from one place up to another that the set does not allow. No byte past the field's end is allowed, so the search goes
// over those of the n bytes that are there, and one test says whether it passed all n.
#[tactic(auto, using(crate::proofs::Fields::wrong_by_front, crate::proofs::Fields::front_within), unfolding(crate::specs::Field::first_wrong))]
pub fn first_wrong(set: Set, s: &[u8], from: usize, to: usize, check: u16) -> Step
    ensures { result ≡ first_wrong set s.now from to check }
{
    let n = to.saturating_sub(from);
    let passed = allowed_front(set, window(s, from, n));
    must(
        n <= passed,
        Reason::Wrong {
            place: from + passed,
        },
        u32::from(check),
    )
}

#[tactic(auto, unfolding(crate::specs::Field::literal_at))]
pub fn literal(s: &[u8], i: usize, b: u8, check: u16) -> Step
    ensures { result ≡ literal_at s.now i b check }
{
    must(at(s, i) == b, Reason::Wrong { place: i }, u32::from(check))
}

// A number that was read at a place lies from low to high: two numbers and no range, as in the definition.
#[tactic(auto, unfolding(crate::specs::Field::in_range))]
pub fn in_range(i: usize, low: u64, high: u64, n: u64, check: u32) -> Step
    ensures { result ≡ in_range i low high n check }
{
    must(
        (low..=high).contains(&n),
        Reason::Range { place: i, value: n },
        check,
    )
}

// N digits at a place, and then the range of the number that they write. The range is a step of its own, whose check number is one more.
#[tactic(auto, using(answer::proofs::Laws::steps, crate::proofs::Fields::digits_there, crate::proofs::Fields::digits_read), unfolding(crate::specs::Field::digits_in))]
fn digits_in<const N: usize>(s: &[u8], i: usize, low: u64, high: u64, check: u16) -> Step
    requires { (1 ≤ N) × (N ≤ 4) }
    ensures { result ≡ digits_in N s.now i low high check }
{
    wrong_from(Set::Digits, s, i, N, check)?;
    let value = number_of(&s[i..i + N]).unwrap();
    in_range(i, low, high, value, u32::from(check) + 1)
}

// `digits_in` for the widths that the rules ask for. It needs a width whose numbers fit 64 bits, and a public function asks nothing of its
// callers: so each width has a function.
pub fn two_digits(s: &[u8], i: usize, low: u64, high: u64, check: u16) -> Step
    ensures { result ≡ two_digits s.now i low high check }
{
    digits_in::<2>(s, i, low, high, check)
}

pub fn four_digits(s: &[u8], i: usize, low: u64, high: u64, check: u16) -> Step
    ensures { result ≡ four_digits s.now i low high check }
{
    digits_in::<4>(s, i, low, high, check)
}
