// What the program holds between one turn and the next, and a turn.
//
// Turns follow each other until the input ends, or fails, or cannot be gone on with. A turn judges the whole records of what the buffer
// holds, hands their lines to one write and, where no whole record is left, reads once.

ghost use Rattle.std.specs.Prelude.{◌≡◌, ◌+◌, ◌≤◌, ◌<◌, length};

use batch::Stop;
use std::io::{Read, Write};
use std::{fmt, io};

// The bytes that the buffer holds: a read asks for all that there is room for. The longest record has 4 + 8,192.
const BUFFER: usize = 65536;

// How many records a call can judge.
const RECORDS: usize = 1024;

// Room for the verdicts of so many.
const OUTPUT: usize = RECORDS * verdict::VERDICT_SIZE;

// Room for the lines of so many.
const TEXT: usize = RECORDS * report::LINE_MOST;

// What failed, and why.
#[derive(Drop)]
pub(crate) enum Failed {
    Input(io::Error),
    Output(io::Error),
}

impl fmt::Display for Failed {
    fn fmt<W: fmt::Write>(&self, f: &mut fmt::Formatter<W>) -> fmt::Result {
        match self {
            Failed::Input(why) => write!(f, "standard input: {why}"),
            Failed::Output(why) => write!(f, "standard output: {why}"),
        }
    }
}

// The bytes of `buf` from `at` up to `end` are held: they came in and are not judged yet. `offset` is the stream offset of the first of
// them, `start` that of the input's first byte; `judged` counts the records so far, and `stop` is why the last call stopped. The first
// `wrote` bytes of the text are for a write, and the last `came` bytes that are held came in by the last turn, which contracts alone ask.
// Arrays with places beside them, and no `Vec`: the program has no heap.
#[derive(Drop)]
pub(crate) struct Run {
    buf: [u8; BUFFER],
    out: [u8; OUTPUT],
    text: [u8; TEXT],
    at: usize,
    end: usize,
    start: u64,
    offset: u64,
    judged: u64,
    stop: Stop,
    wrote: usize,
    came: usize,
    ghost order: { at ≤ end },
    ghost within: { end ≤ length buf },
    ghost counts: { start + judged ≤ offset },
    ghost inside: { wrote ≤ length text },
}

impl Run {
    ghost use Rattle.service.specs.Run.{wrote_in, First, TurnAdds, Took, Gave, Served, Passed, Closing};
    ghost use Rattle.service.specs.Inner.{Judging, Shifted, More, Moved};

    // Before the first turn: nothing is held, and nothing was judged.
    pub(crate) fn new(start: u64) -> Run
        ensures { First start result }
    {
        Run {
            buf: [0; BUFFER],
            out: [0; OUTPUT],
            text: [0; TEXT],
            at: 0,
            end: 0,
            start,
            offset: start,
            judged: 0,
            stop: Stop::Finished,
            wrote: 0,
            came: 0,
        }
    }

    // What is for a write.
    pub(crate) fn lines(&self) -> &[u8]
        ensures { result.now ≡ wrote_in self.now }
    {
        &self.text[..self.wrote]
    }

    // One call on what is held, and its lines.
    fn judge(&mut self)
        ensures { Judging self.old self.new }
    {
        // Lent whole, then cut: of a part of a field beside two that are lent as `&mut`, the checker has no rule yet.
        let buf = &self.buf;
        let held = &buf[self.at..self.end];
        let t = turn::turn(
            held,
            self.offset,
            &mut self.out,
            &mut self.text,
            RECORDS as u64,
        );
        self.at += t.read;
        self.offset += t.read as u64;
        self.judged += t.judged;
        self.stop = t.stop;
        self.wrote = t.text;
        self.came = 0;
    }

    // Moves what is held to the front of the buffer.
    fn shift(&mut self)
        ensures { Shifted self.old self.new }
    {
        self.buf.copy_within(self.at..self.end, 0);
        self.end -= self.at;
        self.at = 0;
    }

    // Reads once, after what is held, and says whether a turn follows: else the input has ended.
    fn read_more<I: Read>(&mut self, input: &mut I) -> Result<bool, Failed>
        requires room { self.old.end < self.old.at + BUFFER }
        requires none_came { self.old.came ≡ 0 }
        ensures more { More self.old self.new result }
        ensures moved { Moved self.old self.new result }
        ensures took { Took (I.remaining input.old) (I.remaining input.new) self.new result }
    {
        self.shift();
        let n = input
            .read(&mut self.buf[self.end..])
            .map_err(Failed::Input)?;
        self.end += n;
        self.came = n;
        Ok(n > 0)
    }

    // A turn: judges what is held, writes the lines, and reads on where no whole record is left. Whether another turn follows; else the last
    // line does. The reader and the writer are parameters and no fields: a struct that held them would owe clauses that they stay the same two.
    fn step<I: Read, W: Write>(&mut self, input: &mut I, output: &mut W) -> Result<bool, Failed>
        ensures turn_adds { TurnAdds self.old self.new result }
        ensures moved { Moved self.old self.new result }
        ensures took { Took (I.remaining input.old) (I.remaining input.new) self.new result }
        ensures gave { Gave (W.contents output.old) (W.contents output.new) self.new result }
    {
        self.judge();
        output.write_all(self.lines()).map_err(Failed::Output)?;
        match self.stop {
            Stop::Budget | Stop::Room => Ok(true),
            Stop::Finished | Stop::Cut => self.read_more(input),
            Stop::Offset | Stop::Long => Ok(false),
        }
    }

    // Turns, for as long as one follows.
    pub(crate) fn serve<I: Read, W: Write>(
        &mut self,
        input: &mut I,
        output: &mut W,
    ) -> Result<(), Failed>
        ensures served { Served self.old self.new result }
        ensures passed { Passed self.old (I.remaining input.old) (I.remaining input.new) (W.contents output.old) (W.contents output.new) self.new result }
    {
        while self.step(input, output)? {}
        Ok(())
    }

    // The last line, for a write.
    pub(crate) fn last_line(&mut self)
        ensures { Closing self.old self.new }
    {
        self.wrote = report::last_line(
            &mut self.text,
            u64::from(u8::from(self.stop)),
            self.judged,
            self.offset - self.start,
        );
    }
}
