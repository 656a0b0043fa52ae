// Replays a fixed list of answers from standard input, and says how many differ.
// A line is a kind, the answer, its place and number, and the field in hexadecimal; answer 255 is a refusal for whatever reason.
#![tactic(auto)]

ghost use Rattle.std.specs.Prelude.{◌-◌, ◌≤◌, ◌<◌, length};

use answer::{Answer, Numbers};
use std::io;
use std::io::Read;

// The list's number for a refusal of whatever reason.
const ANY_REFUSAL: u64 = 255;

// What a line expects: numbers, as the list has them.
#[derive(Clone, Copy, PartialEq, Eq)]
struct Expected {
    answer: u64,
    place: u64,
    number: u64,
}

impl From<Answer> for Expected {
    fn from(answer: Answer) -> Expected {
        let told = Numbers::from(answer);
        Expected {
            answer: u64::from(told.number),
            place: told.place as u64,
            number: told.value,
        }
    }
}

impl Expected {
    fn met_by(self, a: Answer) -> bool {
        if self.answer == ANY_REFUSAL {
            return a.is_err();
        }
        self == Expected::from(a)
    }
}

// What is left of the list.
#[derive(Clone, Copy)]
struct Words<'a> {
    left: &'a [u8],
}

impl<'a> Words<'a> {
    // The next word, up to a blank or a line end, which is passed; one that is missing is empty.
    fn word(&mut self) -> &'a [u8]
        ensures { length self.new.left.now ≤ length self.old.left.now - 1 }
    {
        let s = self.left;
        match s.iter().position(|b| *b <= b' ') {
            Some(i) => {
                self.left = &s[i + 1..];
                &s[..i]
            }
            None => {
                self.left = &s[s.len()..];
                s
            }
        }
    }
}

// The number that a word writes; one of 2^64 or more counts as 0.
fn number_in(word: &[u8]) -> u64 {
    text::number_of(word).unwrap_or(0)
}

// A capital hexadecimal digit's value, and 0 of any other byte. The library's `to_digit` takes small letters too.
fn nibble(b: u8) -> u8
    ensures { result < 16 }
{
    match b {
        b'0'..=b'9' => b - 48,
        b'A'..=b'F' => b - 55,
        _ => 0,
    }
}

// The bytes that a hexadecimal word writes, as many as there is room for, into a buffer that every line uses anew: how many.
fn unhex(word: &[u8], value: &mut [u8]) -> usize
    ensures { result ≤ length value.new }
{
    let n = value.len().min(word.len() / 2);
    for (b, pair) in value.iter_mut().zip(word.chunks_exact(2)) {
        *b = 16 * nibble(pair[0]) + nibble(pair[1]);
    }
    n
}

// One line: whether the answer to its field is the one expected. A kind counts modulo 2^16.
fn replay(words: &mut Words, value: &mut [u8]) -> bool
    ensures { length words.new.left.now ≤ length words.old.left.now - 1 }
{
    let kind = (number_in(words.word()) % 65536) as u16;
    let expected = Expected {
        answer: number_in(words.word()),
        place: number_in(words.word()),
        number: number_in(words.word()),
    };
    let n = unhex(words.word(), value);
    expected.met_by(field::check_field(kind, &value[..n]))
}

// How many lines there are, and how many of them differ.
#[derive(Clone, Copy)]
struct Tally {
    count: u64,
    differ: u64,
}

fn replay_all(list: &[u8], value: &mut [u8]) -> Tally {
    let mut words = Words { left: list };
    let mut t = Tally {
        count: 0,
        differ: 0,
    };
    while !words.left.is_empty() {
        let same = replay(&mut words, value);
        t.count = t.count.saturating_add(1);
        t.differ = t.differ.saturating_add(u64::from(!same));
    }
    t
}

// A list is read up to 524,288 bytes, into a `Vec`: an array of that length is beyond what the checker can take.
fn main(rt: HostRuntime) -> io::Result<()> {
    let mut list = Vec::new(rt.alloc());
    rt.stdin().take(524288).read_to_end(&mut list)?;
    let mut value = [0u8; 4096];
    let Tally { count, differ } = replay_all(list.as_slice(), &mut value);
    println!(rt; "{count} vectors, {differ} differ")
}
