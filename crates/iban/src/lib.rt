// Kind 1: an international bank account number (IBAN), ISO 13616, in a field with blanks of any width.
#![tactic(auto)]

ghost use Rattle.std.specs.Prelude.{◌≡◌, true, [], set, Ok};
ghost use Rattle.utf8.specs.Chars.{ascii};
ghost use Rattle.iban.specs.Electronic.{electronic, place_in};
ghost use Rattle.iban.specs.Iban.{count_step, class_steps, reason_in, iban_answer};
ghost use Rattle.iban.specs.Format.{padded, format_of};
ghost use Rattle.iban.specs.Inner.{Dropped};

use answer::{Answer, Reason, Refusal, Step, must};
use text::Set;
use utf8::Walk;

// An IBAN in electronic format, that is, without blanks: its characters, their count, and zeros past the last of them; an array, since nothing
// here is on a heap. The count may be above 34, of which a refusal tells; then the text holds the first 34.
#[derive(Clone, Copy)]
pub struct Electronic {
    pub count: usize,
    pub text: [u8; 34],
}

pub fn zeros() -> [u8; 34]
    ensures { result ≡ padded 34 [] }
{
    [0u8; 34]
}

// A byte more after `count` bytes, where there is room: an IBAN of more than 34 characters is refused by their count alone.
fn put(text: &mut [u8], count: usize, b: u8)
    ensures { text.new ≡ set text.old count b }
{
    // By its place, as `get_mut` leaves open what the text is where there is no room.
    if count < text.len() {
        text[count] = b;
    }
}

// The characters of a field without its blanks. A character that is not ASCII is refused, and so is a byte at which no character starts.
fn drop_blanks(s: &[u8]) -> Result<Electronic, Refusal>
    ensures { Dropped s.now result }
{
    let mut text = zeros();
    let mut count = 0;
    let mut end = 0;
    for (place, c) in Walk::new(s) {
        end = place + c.width;
        if utf8::is_white_space(c.scalar) {
            continue;
        }
        must(c.scalar < 128, Reason::Wrong { place }, 101)?;
        put(&mut text, count, c.scalar as u8);
        count += 1;
    }
    must(end == s.len(), Reason::Wrong { place: end }, 101)?;
    Ok(Electronic { count, text })
}

// The same for a field of which every byte is ASCII: each is a character, so that nothing is decoded and nothing is refused.
// Apart from `drop_blanks` for speed: with that one for all fields an IBAN took 355 ns for 280, and missed its bar.
fn drop_ascii_blanks(s: &[u8]) -> Electronic
    requires { ascii s.now ≡ true }
    ensures { Dropped s.now (Ok result) }
{
    let mut text = zeros();
    let mut count = 0;
    for b in s {
        if utf8::is_white_space(u32::from(*b)) {
            continue;
        }
        put(&mut text, count, *b);
        count += 1;
    }
    Electronic { count, text }
}

// Most fields are ASCII, and take the quick way.
fn without_blanks(s: &[u8]) -> Result<Electronic, Refusal>
    ensures { Dropped s.now result }
{
    if utf8::is_ascii(s) {
        return Ok(drop_ascii_blanks(s));
    }
    drop_blanks(s)
}

// The class steps on a text in electronic format, with places in that text.
#[tactic(auto, using(answer::proofs::Laws::steps), unfolding(crate::specs::Iban::class_steps))]
pub fn class_steps(t: &[u8]) -> Step
    ensures { result ≡ class_steps t.now }
{
    text::first_wrong(Set::Capitals, t, 0, 2, 103)?;
    text::first_wrong(Set::Digits, t, 2, 4, 104)?;
    text::first_wrong(Set::LettersDigits, t, 4, t.len(), 105)
}

// The place in the lent field of the k-th character in electronic format; 0 where there are fewer, which the definition asks for.
fn place_of(s: &[u8], k: usize) -> usize
    ensures { result ≡ place_in k (electronic s.now) }
{
    Walk::new(s)
        .filter(|(_, c)| !utf8::is_white_space(c.scalar))
        .nth(k)
        .map_or(0, |(place, _)| place)
}

// A class step counts places in the electronic format; its caller is told the place in the lent field, blanks included.
#[tactic(auto, unfolding(crate::specs::Iban::reason_in))]
fn reason_in(s: &[u8], reason: Reason) -> Reason
    ensures { result ≡ reason_in (electronic s.now) reason }
{
    match reason {
        Reason::Wrong { place } => Reason::Wrong {
            place: place_of(s, place),
        },
        _ => reason,
    }
}

#[tactic(auto, unfolding(crate::specs::Iban::count_step))]
fn count_step(n: usize) -> Step
    ensures { result ≡ count_step n }
{
    let count = n as u64;
    must(
        (5..=34).contains(&n),
        Reason::Length { place: 0, count },
        102,
    )
}

// Every step but the remainder, and the electronic format where they pass.
pub fn electronic_format(s: &[u8]) -> Result<Electronic, Refusal>
    ensures { result ≡ format_of s.now }
{
    let e = without_blanks(s)?;
    count_step(e.count)?;
    let characters = &e.text[..e.count];
    // Tried with `map_err`: what is known of the closure's result is out of a lemma's reach.
    match class_steps(characters) {
        Ok(()) => Ok(e),
        Err(refusal) => Err(Refusal {
            reason: reason_in(s, refusal.reason),
            ..refusal
        }),
    }
}

pub fn validate_iban(s: &[u8]) -> Answer
    ensures { result ≡ iban_answer s.now }
{
    let e = electronic_format(s)?;
    let r = checkdigit::iban_remainder(&e.text[0..e.count]);
    checkdigit::remainder_is_one(r, 106)?;
    Ok(1)
}
