// The sheet: an IBAN or an LEI held by value between repairs, and its load.
#![tactic(auto)]

ghost use Rattle.std.specs.Prelude.{◌≡◌, take, Ok};
ghost use Rattle.answer.specs.Result.{Pass};
ghost use Rattle.iban.specs.Format.{padded};
ghost use Rattle.sheet.specs.Sheets.{sheet_kind, held_text, characters, remainder_by, sheet_of, empty_sheet, held};
ghost use Rattle.sheet.specs.Load.{refusal, summed, load_of, standing};
ghost use Rattle.sheet.specs.Inner.{sheet_with};

use answer::{Answer, Reason, Refusal, Step};

// The text stands in the first `length` bytes, and those past it are zero. A caller's bytes come in as they are, through C too: any kind, any
// length and any text, so that the kind is a number and the text has its length beside it; only `stands` tells whether they go together.
#[derive(Clone, Copy, PartialEq, Eq)]
pub struct Sheet {
    pub kind: u16,
    pub length: usize,
    pub remainder: u64,
    pub text: [u8; 34],
}

impl Sheet {
    // The text that a sheet says it holds: all 34 bytes where its length is above that.
    pub fn held(&self) -> &[u8]
        ensures { result.now ≡ held self.now }
    {
        self.text.get(..self.length).unwrap_or(&self.text)
    }

    // A sheet stands where it is not empty, and is the one that loading its own text gives.
    pub fn stands(self) -> bool
        ensures { result ≡ standing self }
    {
        self != empty() && load(self.kind, self.held(), empty()).sheet == self
    }
}

// What a call answers, and the sheet after it, which is there whatever the answer.
#[derive(Clone, Copy)]
pub struct Repaired {
    pub answer: Answer,
    pub sheet: Sheet,
}

#[tactic(auto, unfolding(crate::specs::Sheets::empty_sheet))]
pub fn empty() -> Sheet
    ensures { result ≡ empty_sheet }
{
    Sheet {
        kind: 0,
        length: 0,
        remainder: 0,
        text: iban::zeros(),
    }
}

// A refused call returns the sheet that went in.
pub fn refused(old: Sheet, why: Refusal) -> Repaired
    ensures { result ≡ refusal old why.reason why.check }
{
    Repaired {
        answer: Err(why),
        sheet: old,
    }
}

fn is_sheet_kind(kind: u16) -> bool
    ensures { result ≡ sheet_kind kind }
{
    (1..=2).contains(&kind)
}

// Every step of the kind's rule but the remainder.
#[tactic(auto, unfolding(crate::specs::Sheets::characters))]
pub fn characters(kind: u16, t: &[u8]) -> Step
    ensures { result ≡ characters kind t.now }
{
    match kind {
        1 => iban::electronic_format(t).map(|_| ()),
        _ => lei::characters(t),
    }
}

#[tactic(auto, unfolding(crate::specs::Sheets::remainder_by))]
pub fn remainder(kind: u16, t: &[u8]) -> u64
    ensures { result ≡ remainder_by kind t.now }
{
    match kind {
        1 => checkdigit::iban_remainder(t),
        _ => checkdigit::remainder(t),
    }
}

// The first 34 bytes of a text, and zeros past its last.
#[tactic(auto, using(crate::proofs::Sheets::copied_text))]
fn copied(t: &[u8]) -> [u8; 34]
    ensures { result ≡ padded 34 (take 34 t.now) }
{
    let mut text = iban::zeros();
    let n = t.len().min(34);
    text[..n].copy_from_slice(&t[..n]);
    text
}

// A sheet of these parts; its remainder is that of its text.
fn sheet_with(kind: u16, length: usize, text: [u8; 34]) -> Sheet
    ensures { result ≡ sheet_with kind length text }
{
    let sheet = Sheet {
        kind,
        length,
        remainder: 0,
        text,
    };
    Sheet {
        remainder: remainder(kind, sheet.held()),
        ..sheet
    }
}

// The sheet that holds a field, where the field passes every step but the remainder.
#[tactic(auto, using(crate::proofs::Loads::iban_refused, crate::proofs::Loads::iban_sheet, crate::proofs::Loads::lei_sheet))]
fn sheet_of(kind: u16, field: &[u8]) -> Result<Sheet, Refusal>
    ensures { characters kind field.now ≡ Pass → result ≡ Ok (sheet_of kind (held_text kind field.now)) }
{
    match kind {
        1 => {
            let e = iban::electronic_format(field)?;
            Ok(sheet_with(kind, e.count, e.text))
        }
        _ => Ok(sheet_with(kind, field.len(), copied(field))),
    }
}

// The answer is 0 or 5: every step but the remainder passed.
#[tactic(auto, unfolding(crate::specs::Load::summed))]
fn is_summed(answer: Answer) -> bool
    ensures { result ≡ summed answer }
{
    matches!(
        answer,
        Ok(_)
            | Err(Refusal {
                reason: Reason::Remainder { .. },
                ..
            })
    )
}

#[tactic(auto, using(crate::proofs::Loads::load_other, crate::proofs::Loads::load_kept))]
pub fn load(kind: u16, field: &[u8], old: Sheet) -> Repaired
    ensures { result ≡ load_of kind field.now old }
{
    if !is_sheet_kind(kind) {
        let reason = Reason::UnknownKind {
            kind: u64::from(kind),
        };
        return refused(old, Refusal { reason, check: 24 });
    }
    let answer = field::check_field(kind, field);
    let sheet = if is_summed(answer) {
        sheet_of(kind, field).unwrap_or(old)
    } else {
        old
    };
    Repaired { answer, sheet }
}
