// The interface for other languages: functions over numbers and lent slices, as include/stitchbarrow.h declares them. `stitchbarrow_c` exports
// them to C.
#![tactic(auto)]

ghost use Rattle.std.specs.Prelude.{◌≡◌, ◌++◌, ◌≤◌, length, drop};
ghost use Rattle.sheet.specs.Load.{load_of};
ghost use Rattle.repairs.specs.Repairs.{repair_of};
ghost use Rattle.repairs.specs.declared.Request.{Request};
ghost use Rattle.stitchbarrow.specs.Sheets.{sheet_size, sheet_at, sheet_bytes};
ghost use Rattle.stitchbarrow.specs.Reply.{
  answer_size,
  Reply,
  answer_reply,
  check_reply,
  RunReply,
  run_reply,
  SheetReply,
  sheet_reply,
};
ghost use Rattle.stitchbarrow.specs.Inner.{Replies};

use answer::{Answer, Numbers};
use sheet::{Repaired, Sheet};

// What a function returns where a lent slice is too short for what it would write; a number, as the header has it, and so are kinds.
const TOO_SHORT: u8 = 255;

// How many bytes an answer takes, and a sheet.
const ANSWER_SIZE: usize = 12;

const SHEET_SIZE: usize = 46;

// An answer, written to the first 12 bytes of `answer`.
#[tactic(auto, unfolding(crate::specs::Reply::answer_reply))]
fn tell(a: Answer, answer: &mut [u8]) -> u8
    requires { answer_size ≤ length answer.old }
    ensures { record { code = result; bytes = answer.new } ≡ answer_reply a answer.old }
{
    let bytes = verdict::answer_bytes(a);
    answer[..bytes.len()].copy_from_slice(&bytes);
    Numbers::from(a).number
}

// The answer to a field, written to the first 12 bytes of `answer`.
#[tactic(auto, unfolding(crate::specs::Reply::check_reply))]
pub fn stitchbarrow_check(kind: u16, value: &[u8], answer: &mut [u8]) -> u8
    ensures { record { code = result; bytes = answer.new } ≡ check_reply kind value.now answer.old }
{
    if answer.len() < ANSWER_SIZE {
        return TOO_SHORT;
    }
    tell(field::check_field(kind, value), answer)
}

// A batch call; its counts (judged, read, written) are written to the first three elements of `counts`.
#[tactic(auto, using(crate::proofs::Laws::three), unfolding(crate::specs::Reply::run_reply))]
pub fn stitchbarrow_run(
    batch: &[u8],
    offset: u64,
    out: &mut [u8],
    budget: u64,
    counts: &mut [u64],
) -> u8
    ensures { record { code = result; out = out.new; counts = counts.new } ≡ run_reply batch.now offset out.old budget counts.old }
{
    if counts.len() < 3 {
        return TOO_SHORT;
    }
    let ran = batch::run(batch, offset, out, budget);
    counts[0] = ran.judged;
    counts[1] = ran.read as u64;
    counts[2] = ran.written as u64;
    u8::from(ran.stop)
}

fn read_sheet(b: &[u8]) -> Sheet
    requires { sheet_size ≤ length b.now }
    ensures { result ≡ sheet_at b.now }
{
    let kind = record::read_number(&b[0..2]) as u16;
    let length = record::read_number(&b[2..4]) as usize;
    let remainder = record::read_number(&b[4..12]);
    let mut text = [0u8; 34];
    text.copy_from_slice(&b[12..46]);
    Sheet {
        kind,
        length,
        remainder,
        text,
    }
}

fn write_sheet(b: &mut [u8], s: Sheet)
    requires { sheet_size ≤ length b.old }
    ensures { b.new ≡ sheet_bytes s ++ drop sheet_size b.old }
{
    record::write_number(&mut b[0..2], u64::from(s.kind));
    record::write_number(&mut b[2..4], s.length as u64);
    record::write_number(&mut b[4..12], s.remainder);
    b[12..46].copy_from_slice(&s.text);
}

// Makes a call on the sheet that the first 46 bytes of `sheet` write, and writes the new sheet there and the answer to `answer`.
fn reply<F: FnOnce(Sheet) -> Repaired>(call: F, sheet: &mut [u8], answer: &mut [u8]) -> u8
    requires { F.IsAlwaysCallable call }
    ensures { Replies (F.post call) sheet.old answer.old (record { code = result; sheet = sheet.new; answer = answer.new }) }
{
    if sheet.len() < SHEET_SIZE {
        return TOO_SHORT;
    }
    if answer.len() < ANSWER_SIZE {
        return TOO_SHORT;
    }
    let done = call(read_sheet(sheet));
    write_sheet(sheet, done.sheet);
    tell(done.answer, answer)
}

// Loads a field; the sheet that stood there before is the one that a refusal returns.
pub fn stitchbarrow_load(kind: u16, value: &[u8], sheet: &mut [u8], answer: &mut [u8]) -> u8
    ensures { record { code = result; sheet = sheet.new; answer = answer.new } ≡ sheet_reply (load_of kind value.now (sheet_at sheet.old)) sheet.old answer.old }
{
    reply(|old| sheet::load(kind, value, old), sheet, answer)
}

// Puts a byte at a place of the held text.
pub fn stitchbarrow_replace(sheet: &mut [u8], place: usize, byte: u8, answer: &mut [u8]) -> u8
    ensures { record { code = result; sheet = sheet.new; answer = answer.new } ≡ sheet_reply (repair_of (sheet_at sheet.old) (Request.Replace place byte)) sheet.old answer.old }
{
    reply(|old| repairs::replace(old, place, byte), sheet, answer)
}

// Exchanges the characters at two places of the held text.
pub fn stitchbarrow_exchange(sheet: &mut [u8], i: usize, j: usize, answer: &mut [u8]) -> u8
    ensures { record { code = result; sheet = sheet.new; answer = answer.new } ≡ sheet_reply (repair_of (sheet_at sheet.old) (Request.Exchange i j)) sheet.old answer.old }
{
    reply(|old| repairs::exchange(old, i, j), sheet, answer)
}

// Sets the check digits of the held text.
pub fn stitchbarrow_fill(sheet: &mut [u8], answer: &mut [u8]) -> u8
    ensures { record { code = result; sheet = sheet.new; answer = answer.new } ≡ sheet_reply (repair_of (sheet_at sheet.old) Request.Fill) sheet.old answer.old }
{
    reply(|old| repairs::fill(old), sheet, answer)
}
