// Kinds 4 and 5: the date and the datetime of ISO 8601 in the form that ISO 20022 uses.
#![tactic(auto)]

ghost use Rattle.std.specs.Prelude.{◌≡◌};
ghost use Rattle.datetime.specs.Date.{date_part, date_answer};
ghost use Rattle.datetime.specs.Datetime.{
  zone_place,
  length_from,
  clock_part,
  fraction_part,
  ends_at,
  offset_part,
  zone_part,
  time_part,
  datetime_answer,
};

use answer::{Answer, Reason, Refusal, Step, must};
use text::Set;

// The date in bytes 0 to 9. Kinds 4 and 5 share these steps, and the kind, which SCOPE numbers, gives their check numbers.
#[tactic(auto, using(answer::proofs::Laws::steps), unfolding(crate::specs::Date::date_part))]
fn date_part<const KIND: u8>(s: &[u8]) -> Step
    ensures { result ≡ date_part s.now KIND }
{
    let base = 100 * u16::from(KIND);
    text::four_digits(s, 0, 1900, 2099, base + 2)?;
    text::literal(s, 4, b'-', base + 4)?;
    text::two_digits(s, 5, 1, 12, base + 5)?;
    text::literal(s, 7, b'-', base + 7)?;
    text::two_digits(s, 8, 1, 31, base + 8)
}

// The bytes are looked at only where the length is right, so that another length costs nothing.
#[tactic(auto, using(answer::proofs::Laws::steps), unfolding(crate::specs::Date::date_answer))]
pub fn validate_iso_date(s: &[u8]) -> Answer
    ensures { result ≡ date_answer s.now }
{
    text::length_is(s, 10, 401)?;
    date_part::<4>(s)?;
    Ok(0)
}

#[tactic(auto, unfolding(crate::specs::Datetime::length_from))]
fn length_from(s: &[u8], n: usize, check: u16) -> Step
    ensures { result ≡ length_from n s.now check }
{
    let count = s.len() as u64;
    must(
        n <= s.len(),
        Reason::Length { place: 0, count },
        u32::from(check),
    )
}

// `T` and the time of day in bytes 10 to 18.
#[tactic(auto, using(answer::proofs::Laws::steps), unfolding(crate::specs::Datetime::clock_part))]
fn clock_part(s: &[u8]) -> Step
    ensures { result ≡ clock_part s.now 5 }
{
    text::literal(s, 10, b'T', 510)?;
    text::two_digits(s, 11, 0, 23, 511)?;
    text::literal(s, 13, b':', 513)?;
    text::two_digits(s, 14, 0, 59, 514)?;
    text::literal(s, 16, b':', 516)?;
    text::two_digits(s, 17, 0, 59, 517)
}

// Where byte 19 is `.`, a digit follows.
#[tactic(auto, unfolding(crate::specs::Datetime::fraction_part))]
fn fraction_part(s: &[u8]) -> Step
    ensures { result ≡ fraction_part s.now 5 }
{
    if text::at(s, 19) == b'.' {
        must(
            Set::Digits.allows(text::at(s, 20)),
            Reason::Missing { place: 20 },
            519,
        )
    } else {
        Ok(())
    }
}

// Where the zone stands: after the fraction, or after the seconds. Out of line: its loop is slower where a border of 32 bytes of code runs through it,
// and by itself it lies in one of two ways, where inlined it moved with all that stands around it (docs/DESIGN-PASS.md, "What costs more than before").
#[inline(never)]
#[tactic(auto, unfolding(crate::specs::Datetime::zone_place))]
fn zone_place(s: &[u8]) -> usize
    ensures { result ≡ zone_place s.now }
{
    if text::at(s, 19) == b'.' {
        20 + s[20..]
            .iter()
            .take_while(|b| Set::Digits.allows(**b))
            .count()
    } else {
        19
    }
}

#[tactic(auto, unfolding(crate::specs::Datetime::ends_at))]
fn ends_at(s: &[u8], i: usize) -> Step
    ensures { result ≡ ends_at s.now i 528 }
{
    must(s.len() <= i, Reason::Trailing { place: i }, 528)
}

// The five bytes after a sign. That there are five is tested first, so that i + 5 does not wrap.
#[tactic(auto, using(answer::proofs::Laws::steps), unfolding(crate::specs::Datetime::offset_part))]
fn offset_part(s: &[u8], i: usize) -> Step
    ensures { result ≡ offset_part s.now i 5 }
{
    must(
        5 <= s.len().saturating_sub(i),
        Reason::Missing { place: s.len() },
        522,
    )?;
    text::two_digits(s, i, 0, 23, 523)?;
    text::literal(s, i + 2, b':', 525)?;
    text::two_digits(s, i + 3, 0, 59, 526)?;
    ends_at(s, i + 5)
}

// The zone at a place, and nothing after it.
#[tactic(auto, using(answer::proofs::Laws::steps), unfolding(crate::specs::Datetime::zone_part))]
fn zone_part(s: &[u8], i: usize) -> Step
    ensures { result ≡ zone_part s.now i 5 }
{
    must(i < s.len(), Reason::Missing { place: s.len() }, 520)?;
    match s[i] {
        b'Z' => ends_at(s, i + 1),
        b'+' | b'-' => offset_part(s, i + 1),
        _ => Err(Refusal {
            reason: Reason::Wrong { place: i },
            check: 521,
        }),
    }
}

// Everything after the date.
#[tactic(auto, using(answer::proofs::Laws::steps), unfolding(crate::specs::Datetime::time_part))]
fn time_part(s: &[u8]) -> Step
    ensures { result ≡ time_part s.now 5 }
{
    clock_part(s)?;
    fraction_part(s)?;
    zone_part(s, zone_place(s))
}

#[tactic(auto, using(answer::proofs::Laws::steps), unfolding(crate::specs::Datetime::datetime_answer))]
pub fn validate_iso_datetime(s: &[u8]) -> Answer
    ensures { result ≡ datetime_answer s.now }
{
    length_from(s, 20, 501)?;
    date_part::<5>(s)?;
    time_part(s)?;
    Ok(0)
}
