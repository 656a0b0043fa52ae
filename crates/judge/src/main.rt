// The program: reads a batch from standard input and writes its verdicts as text. Its argument is the stream offset of the first byte.
#![tactic(auto)]

ghost use Rattle.std.specs.Prelude.{◌≡◌, MatchOption};
ghost use Rattle.report.specs.Offset.{offset_of};

use std::env::{Env, FillError};

// The bytes that an argument can have.
const WORD_MOST: usize = 4096;

// A bad argument is a line on standard error, and nothing is read or written.
fn refuse(rt: &impl Eprint) {
    let _ = rt.eprintln(
        "judge: one argument at most, the offset of the first byte, a number below 18446744073709551616",
    );
}

// The stream offset of the first byte: what the argument writes, and 0 where there is none.
fn offset_in(word: Option<&[u8]>) -> Option<u64>
    ensures { MatchOption word.entry (result ≡ Some 0) (λ w. result ≡ offset_of w.now) }
{
    word.map_or(Some(0), report::parse)
}

// The same from the system's arguments; none where there are two, or one that does not fit.
fn start_of(rt: &HostRuntime) -> Option<u64> {
    let mut word = [0u8; WORD_MOST];
    if !matches!(rt.arg(2, &mut word), Err(FillError::NotPresent)) {
        return None;
    }
    match rt.arg(1, &mut word) {
        Ok(n) => offset_in(Some(&word[..n])),
        Err(FillError::TooLong) => None,
        Err(FillError::NotPresent) => offset_in(None),
    }
}

fn main(rt: HostRuntime) {
    match start_of(&rt) {
        Some(start) => {
            service::run_from(&rt, &mut rt.stdin(), &mut rt.stdout(), start);
        }
        None => refuse(&rt),
    }
}
