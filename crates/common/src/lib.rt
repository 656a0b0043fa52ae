// Cents of an amount, kinds 9 (strict) and 10 (lenient): a whole number, and after a `.` its hundredths.
#![tactic(auto)]

ghost use Rattle.std.specs.Prelude.{◌≡◌, ◌+◌, ◌*◌, ◌≤◌, length};
ghost use Rattle.answer.specs.Steps.{must, ◌or_accept◌};
ghost use Rattle.answer.specs.declared.Reason.{Reason};
ghost use Rattle.text.specs.Decimal.{fitted};
ghost use Rattle.text.specs.Field.{first_place};
ghost use Rattle.text.specs.Ranges.{within};
ghost use Rattle.common.specs.Cents.{
  digits_at,
  number_between,
  digits,
  whole,
  whole_number,
  past,
  fraction,
  worth,
  cents,
  parts,
  parse_amount_cents,
  parse_amount_cents_lenient,
};

use answer::{Answer, Reason, Refusal, Step, must};
use text::Set;

// The text of a whole number: the bytes of a field from one place up to another, and the check number of the first step on them.
// It keeps the field and two places, and no slice, since a refusal tells a place of the field.
#[derive(Clone, Copy)]
struct Part<'a> {
    s: &'a [u8],
    from: usize,
    to: usize,
    check: u16,
    ghost inside: { to ≤ length s.now },
    ghost counted: { check ≤ 2000 },
}

impl Part<'_> {
    // The place where the first digit should stand: after a `+`, if there is one.
    #[tactic(auto, unfolding(crate::specs::Cents::digits_at))]
    fn digits_at(&self) -> usize
        ensures { result ≡ digits_at self.now.s.now self.now.from self.now.to }
    {
        if self.from < self.to && self.s[self.from] == b'+' {
            self.from + 1
        } else {
            self.from
        }
    }

    // Digits from a place on, read in one pass. Once their number is 2^64 or more it is not computed any more, and the other bytes are
    // only tested: a non-digit among them is refused before the number is.
    #[tactic(auto, using(crate::proofs::Reading::searching), unfolding(crate::specs::Cents::digits, text::specs::Field::first_wrong))]
    fn digits(&self, at: usize) -> Answer
        ensures { result ≡ digits self.now.s.now at self.now.to (self.now.check + 1) or_accept number_between self.now.s.now at self.now.to }
    {
        let check = self.check + 1;
        let mut n = 0;
        for i in at..self.to {
            let b = self.s[i];
            must(
                Set::Digits.allows(b),
                Reason::Wrong { place: i },
                u32::from(check),
            )?;
            let Some(more) = text::with_digit(n, u64::from(b - b'0')) else {
                text::wrong_from(Set::Digits, self.s, i, self.to - i, check)?;
                return Err(Refusal {
                    reason: Reason::TooLarge,
                    check: u32::from(check) + 1,
                });
            };
            n = more;
        }
        Ok(n)
    }

    // One digit or more, after a `+` or none.
    #[tactic(auto, using(answer::proofs::Laws::steps), unfolding(crate::specs::Cents::whole, crate::specs::Cents::whole_number))]
    fn whole(&self) -> Answer
        ensures { result ≡ whole self.now.s.now self.now.from self.now.to self.now.check or_accept whole_number self.now.s.now self.now.from self.now.to }
    {
        let at = self.digits_at();
        text::present(at, self.to, self.check)?;
        self.digits(at)
    }
}

// After the `.`, from a place on, stand at least `least` bytes and at most two. Like amount's step on a count but for its test: each is one call
// of `must`.
fn at_most_two(least: usize, from: usize, count: usize, check: u16) -> Step
    ensures { result ≡ must (within least 2 count) (Reason.Length from count) check }
{
    must(
        (least..=2).contains(&count),
        Reason::Length {
            place: from,
            count: count as u64,
        },
        u32::from(check),
    )
}

// What the bytes from a place on, which stand after the `.`, are worth in cents.
#[tactic(auto, using(answer::proofs::Laws::steps, crate::proofs::Reading::fractions), unfolding(crate::specs::Cents::fraction))]
fn fraction(least: usize, s: &[u8], from: usize, check: u16) -> Answer
    requires { check ≤ 1900 }
    ensures { result ≡ fraction least s.now from check or_accept worth s.now from }
{
    let count = s.len().saturating_sub(from);
    at_most_two(least, from, count, check)?;
    if count == 0 {
        return Ok(0);
    }
    let n = Part {
        s,
        from,
        to: s.len(),
        check: check + 1,
    }
    .whole()?;
    Ok(if count == 1 { n * 10 } else { n })
}

// The first place after the `.`, and the end where there is none.
#[tactic(auto, unfolding(crate::specs::Cents::past))]
fn past(s: &[u8], dot: usize) -> usize
    ensures { result ≡ past s.now dot }
{
    s.len().min(dot.saturating_add(1))
}

// The cents of n whole units and m hundredths, where they are below 2^64.
#[tactic(auto, using(text::proofs::Decimals::checked_fits, text::proofs::Decimals::past_fits))]
fn total(n: u64, m: u64) -> Option<u64>
    ensures { result ≡ fitted (100 * n + m) }
{
    n.checked_mul(100)?.checked_add(m)
}

// The steps that the two kinds share. The kinds differ in `least`, the fewest bytes that may stand after the `.`, and in their check numbers,
// which count on from `check`.
#[tactic(auto, using(answer::proofs::Laws::steps, crate::proofs::Reading::pairs), unfolding(crate::specs::Cents::parts, crate::specs::Cents::cents))]
fn parts(least: usize, s: &[u8], dot: usize, check: u16) -> Answer
    requires { (dot ≡ first_place 46 s.now) × (check ≤ 1000) }
    ensures { result ≡ parts least s.now check or_accept cents s.now }
{
    let n = Part {
        s,
        from: 0,
        to: dot,
        check: check + 2,
    }
    .whole()?;
    let m = fraction(least, s, past(s, dot), check + 5)?;
    total(n, m).ok_or(Refusal {
        reason: Reason::TooLarge,
        check: u32::from(check) + 9,
    })
}

#[tactic(auto, using(answer::proofs::Laws::steps), unfolding(crate::specs::Cents::parse_amount_cents))]
pub fn parse_amount_cents(s: &[u8]) -> Answer
    ensures { result ≡ parse_amount_cents s.now }
{
    let dot = text::first_place(s, b'.');
    text::present(dot, s.len(), 901)?;
    parts(2, s, dot, 900)
}

#[tactic(auto, unfolding(crate::specs::Cents::parse_amount_cents_lenient))]
pub fn parse_amount_cents_lenient(s: &[u8]) -> Answer
    ensures { result ≡ parse_amount_cents_lenient s.now }
{
    parts(0, s, text::first_place(s, b'.'), 1000)
}
