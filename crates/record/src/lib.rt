// Records in bytes: numbers written in bytes, the lowest byte first, and the head that each record of a batch begins with. What a record is
// judged by stands in `batch`; whoever walks over records reads their heads here.
#![tactic(auto)]

ghost use Rattle.std.specs.Prelude.{◌≡◌, length, take};
ghost use Rattle.record.specs.Number.{to_bytes, from_bytes};
ghost use Rattle.record.specs.Head.{head_of};

// The longest value that a head may announce.
pub const HEAD_LIMIT: usize = 8192;

// What a whole record's head says: its kind, which is a number, since a record may have any, and the length of its value.
#[derive(Clone, Copy)]
pub struct Head {
    pub kind: u16,
    pub length: usize,
}

// Why no whole record stands at the start of the rest of a batch: nothing is left, or fewer bytes than a head has, or the length is above
// the limit, or the value is cut short.
#[derive(Clone, Copy)]
pub enum NoRecord {
    End,
    Short,
    TooLong,
    CutShort,
}

// The number that bytes write, the lowest first; of more than eight bytes the first eight.
pub fn read_number(b: &[u8]) -> u64
    ensures { result ≡ from_bytes (take 8 b.now) }
{
    let n = b.len().min(8);
    let mut bytes = [0; 8];
    bytes[..n].copy_from_slice(&b[..n]);
    u64::from_le_bytes(bytes)
}

// As many of a number's bytes as there is room for, the lowest first; one by one, since the library's are eight, and a slice may be longer.
#[tactic(auto, using(crate::proofs::Numbers::write_more))]
pub fn write_number(b: &mut [u8], x: u64)
    ensures { b.new ≡ to_bytes (length b.old) x }
{
    let mut rest = x;
    for byte in b.iter_mut() {
        *byte = (rest % 256) as u8;
        rest /= 256;
    }
}

// The head of the record at the start of the rest of a batch: the one function that reads a record's head.
#[tactic(auto, unfolding(crate::specs::Head::head_of))]
pub fn read_head(rest: &[u8]) -> Result<Head, NoRecord>
    ensures { result ≡ head_of rest.now }
{
    if rest.is_empty() {
        return Err(NoRecord::End);
    }
    let [l0, l1, k0, k1, value @ ..] = rest else {
        return Err(NoRecord::Short);
    };
    let length = usize::from(u16::from_le_bytes([*l0, *l1]));
    if HEAD_LIMIT < length {
        return Err(NoRecord::TooLong);
    }
    if value.len() < length {
        return Err(NoRecord::CutShort);
    }
    let kind = u16::from_le_bytes([*k0, *k1]);
    Ok(Head { kind, length })
}
