// One turn of the program: a call on the bytes at hand, and the lines of its verdicts. No input and no output.
#![tactic(auto)]

ghost use Rattle.std.specs.Prelude.{◌≡◌};
ghost use Rattle.turn.specs.Turn.{room_of, turn_of, turning_of};

use batch::Stop;

// Why the call stopped, records judged, bytes read, and bytes of text written. Not a `batch::Ran`, whose `written` counts the bytes of verdicts.
#[derive(Clone, Copy)]
pub struct Turned {
    pub stop: Stop,
    pub judged: u64,
    pub read: usize,
    pub text: usize,
}

// The room for verdicts, so that all their lines fit the text.
fn room(out: usize, text: usize) -> usize
    ensures { result ≡ room_of out text }
{
    out.min(text / report::LINE_MOST * verdict::VERDICT_SIZE)
}

// One call on the bytes held, into as much of the output as has room for its lines in the text, and these lines.
pub fn turn(held: &[u8], offset: u64, out: &mut [u8], text: &mut [u8], budget: u64) -> Turned
    ensures { turning_of result out.new text.new ≡ turn_of held.now offset out.old text.old budget }
{
    let n = room(out.len(), text.len());
    let r = batch::run(held, offset, &mut out[..n], budget);
    let t = report::lines(&out[..r.written], text);
    Turned {
        stop: r.stop,
        judged: r.judged,
        read: r.read,
        text: t.written,
    }
}
