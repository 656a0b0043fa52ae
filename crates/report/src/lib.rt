// The program's text: the heading, verdicts as lines, the last line, and its argument. No input and no output.
#![tactic(auto)]

ghost use Rattle.std.specs.Prelude.{◌≡◌, ◌+◌, ◌≤◌, length};
ghost use Rattle.report.specs.Digits.{decimal_digits};
ghost use Rattle.report.specs.Text.{
  field,
  numbers,
  numbers_line,
  heading,
  named,
  rendered,
  rendering_of,
  placed,
  ended,
};
ghost use Rattle.report.specs.Offset.{digits_only, offset_of};
ghost use Rattle.report.specs.Inner.{Put};

use verdict::Verdict;

// The longest line, and the longest last line.
pub const LINE_MOST: usize = 58;

const LAST_MOST: usize = 80;

// How many verdicts have their lines in a buffer, and the bytes of these lines.
#[derive(Clone, Copy)]
pub struct Rendered {
    pub verdicts: usize,
    pub written: usize,
}

// How many digits a number has.
#[tactic(auto, using(crate::proofs::Digits::one, crate::proofs::Digits::count))]
fn width(x: u64) -> usize
    ensures { result ≡ length (decimal_digits x) }
{
    x.checked_ilog10().unwrap_or(0) as usize + 1
}

// A number in decimal and the byte after it, at the start of a buffer: how many bytes they are. The buffer is lent from the next place on, by
// the caller: a struct with the buffer and the place would be one more thing to keep in order.
#[tactic(auto, using(crate::proofs::Puts::fields))]
fn put_field(out: &mut [u8], x: u64, after: u8) -> usize
    requires { length (field x after) ≤ length out.old }
    ensures { Put (field x after) out.old out.new result }
{
    let n = width(x);
    itoa::write_digits(x, out, n);
    out[n] = after;
    n + 1
}

// The line of a verdict, at the start of a buffer: how many bytes it has.
fn put_line(out: &mut [u8], v: Verdict) -> usize
    requires { length (numbers_line (numbers v)) ≤ length out.old }
    ensures { Put (numbers_line (numbers v)) out.old out.new result }
{
    let mut n = put_field(out, v.offset, b' ');
    n += put_field(&mut out[n..], u64::from(v.kind), b' ');
    n += put_field(&mut out[n..], u64::from(v.answer), b' ');
    n += put_field(&mut out[n..], u64::from(v.place), b' ');
    n + put_field(&mut out[n..], v.number, b'\n')
}

// The lines of the verdicts at the start of a buffer, as long as there is room for the longest line.
#[tactic(auto, using(crate::proofs::Texts::rooms))]
pub fn lines(verdicts: &[u8], out: &mut [u8]) -> Rendered
    ensures { rendering_of result out.new ≡ rendered verdicts.now out.old }
{
    let mut done = Rendered {
        verdicts: 0,
        written: 0,
    };
    for v in verdicts.chunks_exact(verdict::VERDICT_SIZE) {
        if out.len() - done.written < LINE_MOST {
            break;
        }
        done.written += put_line(&mut out[done.written..], verdict::read_verdict(v));
        done.verdicts += 1;
    }
    done
}

// The first line: a word for each number of a row.
#[tactic(auto, unfolding(crate::specs::Text::heading))]
pub fn heading() -> [u8; 32]
    ensures { result ≡ heading }
{
    *b"offset kind answer place number\n"
}

// A word, a number and the byte after it, at the start of a buffer: how many bytes they are.
#[tactic(auto, using(crate::proofs::Puts::parts), unfolding(crate::specs::Text::named))]
fn put_named(out: &mut [u8], word: &[u8], x: u64, after: u8) -> usize
    requires { length word.now + 21 ≤ length out.old }
    ensures put { Put (named word.now x after) out.old out.new result }
    ensures most { result ≤ length word.now + 21 }
{
    let n = word.len();
    out[..n].copy_from_slice(word);
    n + put_field(&mut out[n..], x, after)
}

// The last line at the start of a buffer, and its length: 0 where the longest has no room. That is how many bytes were written, which the contract
// states, and so no `Option`.
pub fn last_line(out: &mut [u8], stop: u64, judged: u64, read: u64) -> usize
    ensures { placed result out.new ≡ ended out.old stop judged read }
{
    if out.len() < LAST_MOST {
        return 0;
    }
    let mut n = put_named(out, b"stop ", stop, b' ');
    n += put_named(&mut out[n..], b"judged ", judged, b' ');
    n + put_named(&mut out[n..], b"read ", read, b'\n')
}

// Whether all bytes are digits.
fn only_digits(t: &[u8]) -> bool
    ensures { result ≡ digits_only t.now }
{
    t.iter().all(|b| b.is_ascii_digit())
}

// The stream offset that the program's argument gives: the number below 2^64 that it writes, or none.
#[tactic(auto, unfolding(crate::specs::Offset::offset_of))]
pub fn parse(word: &[u8]) -> Option<u64>
    ensures { result ≡ offset_of word.now }
{
    if word.is_empty() || !only_digits(word) {
        return None;
    }
    text::number_of(word)
}
