// What the archive exports: the functions of `stitchbarrow`, each under its own name and with its own clauses, for C.
#![tactic(auto)]

ghost use Rattle.std.specs.Prelude.{◌≡◌};
ghost use Rattle.sheet.specs.Load.{load_of};
ghost use Rattle.repairs.specs.Repairs.{repair_of};
ghost use Rattle.repairs.specs.declared.Request.{Request};
ghost use Rattle.stitchbarrow.specs.Sheets.{sheet_at};
ghost use Rattle.stitchbarrow.specs.Reply.{
  Reply,
  check_reply,
  RunReply,
  run_reply,
  SheetReply,
  sheet_reply,
};

// The answer to a field, written to the first 12 bytes of `answer`.
#[unsafe(no_mangle)]
pub extern "C" fn stitchbarrow_check(kind: u16, value: &[u8], answer: &mut [u8]) -> u8
    ensures { record { code = result; bytes = answer.new } ≡ check_reply kind value.now answer.old }
{
    stitchbarrow::stitchbarrow_check(kind, value, answer)
}

// A batch call; its counts (judged, read, written) are written to the first three elements of `counts`.
#[unsafe(no_mangle)]
pub extern "C" fn stitchbarrow_run(
    batch: &[u8],
    offset: u64,
    out: &mut [u8],
    budget: u64,
    counts: &mut [u64],
) -> u8
    ensures { record { code = result; out = out.new; counts = counts.new } ≡ run_reply batch.now offset out.old budget counts.old }
{
    stitchbarrow::stitchbarrow_run(batch, offset, out, budget, counts)
}

// Loads a field; the sheet that stood there before is the one that a refusal returns.
#[unsafe(no_mangle)]
pub extern "C" fn stitchbarrow_load(
    kind: u16,
    value: &[u8],
    sheet: &mut [u8],
    answer: &mut [u8],
) -> u8
    ensures { record { code = result; sheet = sheet.new; answer = answer.new } ≡ sheet_reply (load_of kind value.now (sheet_at sheet.old)) sheet.old answer.old }
{
    stitchbarrow::stitchbarrow_load(kind, value, sheet, answer)
}

// Puts a byte at a place of the held text.
#[unsafe(no_mangle)]
pub extern "C" fn stitchbarrow_replace(
    sheet: &mut [u8],
    place: usize,
    byte: u8,
    answer: &mut [u8],
) -> u8
    ensures { record { code = result; sheet = sheet.new; answer = answer.new } ≡ sheet_reply (repair_of (sheet_at sheet.old) (Request.Replace place byte)) sheet.old answer.old }
{
    stitchbarrow::stitchbarrow_replace(sheet, place, byte, answer)
}

// Exchanges the characters at two places of the held text.
#[unsafe(no_mangle)]
pub extern "C" fn stitchbarrow_exchange(
    sheet: &mut [u8],
    i: usize,
    j: usize,
    answer: &mut [u8],
) -> u8
    ensures { record { code = result; sheet = sheet.new; answer = answer.new } ≡ sheet_reply (repair_of (sheet_at sheet.old) (Request.Exchange i j)) sheet.old answer.old }
{
    stitchbarrow::stitchbarrow_exchange(sheet, i, j, answer)
}

// Sets the check digits of the held text.
#[unsafe(no_mangle)]
pub extern "C" fn stitchbarrow_fill(sheet: &mut [u8], answer: &mut [u8]) -> u8
    ensures { record { code = result; sheet = sheet.new; answer = answer.new } ≡ sheet_reply (repair_of (sheet_at sheet.old) Request.Fill) sheet.old answer.old }
{
    stitchbarrow::stitchbarrow_fill(sheet, answer)
}
