// A batch of records is judged: what a call does before each record, and the call that judges record after record. What a record is stands in
// `record`, what is written for it in `verdict`, and what a field's answer is in `field`.
#![tactic(auto)]

ghost use Rattle.std.specs.Prelude.{◌≡◌, ◌≤◌, length};
ghost use Rattle.record.specs.Head.{head_of};
ghost use Rattle.batch.specs.Walk.{stop_number, next_of, outcome_of, call_of};
ghost use Rattle.batch.specs.Inner.{act_out};

use record::{Head, NoRecord};
use verdict::VERDICT_SIZE;

// Why a call stopped.
#[derive(Clone, Copy)]
pub enum Stop {
    Finished,
    Budget,
    Room,
    Cut,
    Offset,
    Long,
}

// SCOPE's number of a stop.
impl From<Stop> for u8 {
    ghost from_gives = { λ stop number. number ≡ stop_number stop };

    fn from(stop: Stop) -> u8 {
        match stop {
            Stop::Finished => 0,
            Stop::Budget => 31,
            Stop::Room => 32,
            Stop::Cut => 33,
            Stop::Offset => 34,
            Stop::Long => 35,
        }
    }
}

// What a call answers: why it stopped, records judged, bytes of the batch read, bytes of the output written.
#[derive(Clone, Copy)]
pub struct Ran {
    pub stop: Stop,
    pub judged: u64,
    pub read: usize,
    pub written: usize,
}

// What a call does before a record, by the head that stands there, the room left in the output, and the budget left: it judges that record,
// or stops. With the budget spent 31 comes before any stop but 0, so that why there is no record is no `From` of a stop.
#[tactic(auto, unfolding(crate::specs::Walk::next_of))]
pub fn next(head: Result<Head, NoRecord>, room: usize, budget: u64) -> Result<Head, Stop>
    ensures { result ≡ next_of head room budget }
{
    match head {
        Err(NoRecord::End) => Err(Stop::Finished),
        _ if budget == 0 => Err(Stop::Budget),
        Err(NoRecord::Short) => Err(Stop::Cut),
        Err(NoRecord::TooLong) => Err(Stop::Long),
        Err(NoRecord::CutShort) => Err(Stop::Cut),
        Ok(_) if room < VERDICT_SIZE => Err(Stop::Room),
        Ok(head) => Ok(head),
    }
}

// One turn: the record at the start of `rest` is judged, and its verdict written at the start of `out`; or nothing is written.
#[tactic(auto, using(crate::proofs::Acts::lies, crate::proofs::Acts::has_room, verdict::proofs::Verdicts::length_verdict), unfolding(crate::specs::Verdicts::verdict_of))]
fn judge_next(rest: &[u8], offset: u64, out: &mut [u8], budget: u64) -> Result<Head, Stop>
    ensures value { result ≡ next_of (head_of rest.now) (length out.old) budget }
    ensures out_after { out.new ≡ act_out result rest.now offset out.old }
{
    let head = next(record::read_head(rest), out.len(), budget)?;
    let answer = field::check_field(head.kind, &rest[4..4 + head.length]);
    let verdict = verdict::verdict_bytes(head.kind, offset, answer);
    out[..VERDICT_SIZE].copy_from_slice(&verdict);
    Ok(head)
}

// Judges record after record from the start of `batch`, whose first byte has this stream offset, and writes a verdict for each into `out`, for
// as long as budget and room last.
pub fn run(batch: &[u8], offset: u64, out: &mut [u8], budget: u64) -> Ran
    ensures out_after { outcome_of result out.new ≡ call_of batch.now offset out.old budget }
    ensures read_in_bounds { (result.read ≤ length batch.now) × (result.written ≤ length out.new) }
{
    let mut ran = Ran {
        stop: Stop::Offset,
        judged: 0,
        read: 0,
        written: 0,
    };
    if offset.checked_add(batch.len() as u64).is_none() {
        return ran;
    }
    // A loop that a stop ends: it has the stop to return, and no step of it is a count.
    loop {
        let rest = &batch[ran.read..];
        let room = &mut out[ran.written..];
        match judge_next(rest, offset + ran.read as u64, room, budget - ran.judged) {
            Err(stop) => return Ran { stop, ..ran },
            Ok(head) => {
                ran.judged += 1;
                ran.read += 4 + head.length;
                ran.written += VERDICT_SIZE;
            }
        }
    }
}
