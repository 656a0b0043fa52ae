// The program's run: a batch is read from a reader, judged turn by turn, and its verdicts are written as text to a writer.
//
// No contract can say which bytes standard input gives or standard output takes, so `Run` keeps what each turn handed over: the lines stand
// at the start of its text, the bytes that came at the end of what its buffer holds. Its contracts say that each turn adds both to what went
// before, and proofs/Promises.antt that in the end all the lines are what SCOPE asks for all the bytes. Of a reader and a writer that do
// say which bytes they have, as one in memory, `run_from` promises just that.
#![tactic(auto)]

ghost use Rattle.std.specs.Prelude.{◌≡◌, true, OnOk};
ghost use Rattle.service.specs.Run.{Answered};

mod run;

use run::{Failed, Run};
use std::io::{Read, Write};

// The heading, the turns and the last line.
fn run_whole<I: Read, W: Write>(input: &mut I, output: &mut W, start: u64) -> Result<(), Failed>
    ensures { OnOk result (Answered (I.remaining input.old) start (W.contents output.old) (W.contents output.new)) }
{
    output
        .write_all(&report::heading())
        .map_err(Failed::Output)?;
    let mut run = Run::new(start);
    run.serve(input, output)?;
    run.last_line();
    output.write_all(run.lines()).map_err(Failed::Output)
}

// The whole run, and whether all was written, the last line too. Then the output has what SCOPE asks for the input's bytes, where the reader
// and the writer say which bytes they have. A failure is a line on standard error; where that fails too, there is nobody left to tell.
pub fn run_from<R: Eprint, I: Read, W: Write>(
    rt: &R,
    input: &mut I,
    output: &mut W,
    start: u64,
) -> bool
    ensures { result ≡ true → Answered (I.remaining input.old) start (W.contents output.old) (W.contents output.new) }
{
    match run_whole(input, output, start) {
        Ok(()) => true,
        Err(why) => {
            let _ = rt.eprintln(format_args!("{why}"));
            false
        }
    }
}
