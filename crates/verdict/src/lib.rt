// A verdict: what a call writes for each record. Its bytes are put together and read back here, and nobody else knows their places.
#![tactic(auto)]

ghost use Rattle.std.specs.Prelude.{◌≡◌};
ghost use Rattle.verdict.specs.Verdict.{answer_bytes, verdict, read_verdict};

use answer::{Answer, Numbers};

// How many bytes each record yields.
pub const VERDICT_SIZE: usize = 24;

// What a verdict says of its record: the stream offset, the kind, and the three numbers of the answer; numbers, as its bytes may say any.
#[derive(Clone, Copy, Default)]
pub struct Verdict {
    pub offset: u64,
    pub kind: u16,
    pub answer: u8,
    pub place: u16,
    pub number: u64,
}

// An answer's part of a verdict: the answer, zero, place, number.
#[tactic(auto, using(record::proofs::Numbers::two_bytes, record::proofs::Numbers::eight_bytes), unfolding(crate::specs::Verdict::answer_bytes))]
pub fn answer_bytes(a: Answer) -> [u8; 12]
    ensures { result ≡ answer_bytes a }
{
    let told = Numbers::from(a);
    let place = (told.place % 65536) as u16;
    let mut bytes = [0; 12];
    bytes[0] = told.number;
    bytes[2..4].copy_from_slice(&place.to_le_bytes());
    bytes[4..12].copy_from_slice(&told.value.to_le_bytes());
    bytes
}

// A verdict's bytes: the length of what follows the first four, the kind, the offset, the answer.
#[tactic(auto, using(record::proofs::Numbers::eight_bytes), unfolding(crate::specs::Verdict::verdict, crate::specs::Verdict::answer_bytes))]
pub fn verdict_bytes(kind: u16, offset: u64, a: Answer) -> [u8; VERDICT_SIZE]
    ensures { result ≡ verdict kind offset a }
{
    let mut bytes = [0; VERDICT_SIZE];
    bytes[0] = (VERDICT_SIZE - 4) as u8;
    bytes[2..4].copy_from_slice(&kind.to_le_bytes());
    bytes[4..12].copy_from_slice(&offset.to_le_bytes());
    bytes[12..].copy_from_slice(&answer_bytes(a));
    bytes
}

// What the verdict at the start of `v` says, read from the places where it was written; fewer bytes than a verdict has say nothing, 0
// throughout: SCOPE's reader cannot fail, so this is no `Option`.
#[tactic(auto, unfolding(crate::specs::Verdict::read_verdict))]
pub fn read_verdict(v: &[u8]) -> Verdict
    ensures { result ≡ read_verdict v.now }
{
    if v.len() < VERDICT_SIZE {
        return Verdict::default();
    }
    Verdict {
        offset: record::read_number(&v[4..12]),
        kind: u16::from_le_bytes([v[2], v[3]]),
        answer: v[12],
        place: u16::from_le_bytes([v[14], v[15]]),
        number: record::read_number(&v[16..24]),
    }
}
