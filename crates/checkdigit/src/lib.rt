// ISO 7064 MOD 97-10 over the characters of a text: the running remainder, that of an LEI and of an IBAN, and the check digits.
#![tactic(auto)]

ghost use Rattle.std.specs.Prelude.{◌≡◌, [], ◌∷◌, ◌<◌, ◌^◌, ◌%◌, length};
ghost use Rattle.checkdigit.specs.Letter.{letter_value};
ghost use Rattle.checkdigit.specs.Sum.{character_value, character_digits, number_after, continued, remainder_of, iban_remainder, Remains};
ghost use Rattle.checkdigit.specs.Fill.{Fills};
ghost use Rattle.checkdigit.specs.RemainderStep.{remainder_step};

use answer::{Reason, Step, must};

#[tactic(auto, unfolding(crate::specs::Letter::letter_value))]
fn letter_value(b: u8) -> u64
    ensures { result ≡ letter_value b }
{
    u64::from(b.saturating_sub(55))
}

#[tactic(auto, unfolding(crate::specs::Sum::character_value, text::specs::Class::class_of))]
fn value(b: u8) -> u64
    ensures { result ≡ character_value b }
{
    match b {
        b'0'..=b'9' => u64::from(b - b'0'),
        _ => letter_value(b),
    }
}

// What a number is multiplied by to make room for a character's digits: one for a digit, two for any other character.
#[tactic(auto, unfolding(crate::specs::Sum::character_digits, text::specs::Class::class_of))]
fn scale(b: u8) -> u64
    ensures { result ≡ 10 ^ length (character_digits b) }
{
    match b {
        b'0'..=b'9' => 10,
        _ => 100,
    }
}

// The number that n's decimal digits write, with those of a character's value after them. What the character adds and what it multiplies by
// are found from the character alone, so that the processor has them ready before n, the result of the turn before, is known.
#[tactic(auto, using(crate::proofs::Digits::after_one, crate::proofs::Letters::after_most))]
fn with_character(n: u64, b: u8) -> u64
    requires { n < 10 ^ 17 }
    ensures { result ≡ number_after n (b ∷ []) }
{
    n * scale(b) + value(b)
}

// The remainder by 97. Below 10,000 n / 97 is n * 10811 / 2^20, which is a product and a shift: a division would take longer.
fn small_remainder(n: u64) -> u64
    requires { n < 10000 }
    ensures { result ≡ n % 97 }
{
    n - n * 10811 / 1_048_576 * 97
}

// The same as mod97 for an r that is a remainder already, one character at a time.
#[tactic(auto, using(crate::proofs::Digits::continued_none, crate::proofs::Digits::more, crate::proofs::Letters::after_most))]
fn onward(r: u64, t: &[u8]) -> u64
    requires { r < 97 }
    ensures { Remains (continued r t.now) result }
{
    let mut remainder = r;
    for b in t {
        remainder = small_remainder(with_character(remainder, *b));
    }
    remainder
}

// The remainder of the number that r's decimal digits write, with the text's after them: a sum that was begun goes on.
#[tactic(auto, using(crate::proofs::Digits::reduced))]
pub fn mod97(r: u64, t: &[u8]) -> u64
    ensures { Remains (continued r t.now) result }
{
    onward(r % 97, t)
}

// The remainder of the text as it stands, which is an LEI's.
#[tactic(auto, using(crate::proofs::Digits::from_nothing))]
pub fn remainder(t: &[u8]) -> u64
    ensures { Remains (remainder_of t.now) result }
{
    onward(0, t)
}

// The remainder of the text with its first four characters moved to the end, which is an IBAN's. A text of fewer than four stays as it is.
#[tactic(auto, using(crate::proofs::Iban::short_sum, crate::proofs::Iban::moved_sum))]
pub fn iban_remainder(t: &[u8]) -> u64
    ensures { Remains (iban_remainder t.now) result }
{
    if t.len() < 4 {
        return remainder(t);
    }
    let r = onward(0, &t[4..]);
    onward(r, &t[0..4])
}

// The check digits from the remainder that digits 00 in their place give.
pub fn check_digits(r: u64) -> u64
    ensures { Fills r result }
{
    98 - r % 97
}

// The last step of both rules.
#[tactic(auto, unfolding(crate::specs::RemainderStep::remainder_step))]
pub fn remainder_is_one(r: u64, check: u16) -> Step
    ensures { result ≡ remainder_step r check }
{
    must(r == 1, Reason::Remainder { rest: r }, u32::from(check))
}
