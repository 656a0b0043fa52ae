// Repairs of a sheet: a byte replaced, two characters exchanged, the check digits filled in.
#![tactic(auto)]

ghost use Rattle.std.specs.Prelude.{◌≡◌, ◌≤◌, Err};
ghost use Rattle.checkdigit.specs.Fill.{stamped};
ghost use Rattle.sheet.specs.Sheets.{digits_place};
ghost use Rattle.repairs.specs.Repairs.{place_step, byte_step, unfit, text_step, given_steps, sheet_step, repair_of};
ghost use Rattle.repairs.specs.Inner.{filled_bytes, asked_bytes, Inside, Tried};

use answer::{Numbers, Reason, Refusal, Step, must};
use sheet::{Repaired, Sheet};
use text::Set;

// A byte at a place; the characters of two places; the check digits.
#[derive(Clone, Copy)]
pub enum Request {
    Replace { place: usize, byte: u8 },
    Exchange { i: usize, j: usize },
    Fill,
}

#[tactic(auto, unfolding(crate::specs::Repairs::sheet_step))]
fn sheet_step(sheet: Sheet) -> Step
    ensures { result ≡ sheet_step sheet }
{
    must(sheet.stands(), Reason::NoSheet, 20)
}

#[tactic(auto, unfolding(crate::specs::Repairs::place_step))]
fn place_step(length: usize, place: usize) -> Step
    ensures { result ≡ place_step length place }
{
    let given = place as u64;
    must(place < length, Reason::NoPlace { given }, 21)
}

#[tactic(auto, unfolding(crate::specs::Repairs::byte_step))]
fn byte_step(place: usize, byte: u8) -> Step
    ensures { result ≡ byte_step place byte }
{
    must(Set::LettersDigits.allows(byte), Reason::Unfit { place }, 22)
}

// A character step's refusal of the new text: 22 at the same place.
fn unfit(refusal: Refusal) -> Refusal
    ensures { Err result ≡ unfit (Err refusal) }
{
    let numbers = Numbers::from(refusal.reason);
    Refusal {
        reason: Reason::Unfit {
            place: numbers.place,
        },
        check: 23,
    }
}

// A sheet's kind is a number, as any may be handed in (`sheet::Sheet`).
fn text_step(kind: u16, t: &[u8]) -> Step
    ensures { result ≡ text_step kind t.now }
{
    sheet::characters(kind, t).map_err(unfit)
}

fn digits_place(kind: u16) -> usize
    ensures value { result ≡ digits_place kind }
    ensures low { result ≤ 18 }
{
    match kind {
        1 => 2,
        _ => 18,
    }
}

// A number's two digits, in the check digits' places.
fn stamp(sheet: Sheet, d: u8) -> [u8; 34]
    ensures { result ≡ stamped sheet.text (digits_place sheet.kind) d }
{
    let place = digits_place(sheet.kind);
    let mut text = sheet.text;
    text[place] = 48 + d / 10;
    text[place + 1] = 48 + d % 10;
    text
}

#[tactic(auto, unfolding(crate::specs::Inner::filled_bytes))]
fn filled(sheet: Sheet) -> [u8; 34]
    ensures { result ≡ filled_bytes sheet }
{
    let zero = Sheet {
        text: stamp(sheet, 0),
        ..sheet
    };
    let digits = checkdigit::check_digits(sheet::remainder(sheet.kind, zero.held()));
    stamp(sheet, digits as u8)
}

impl Request {
    // What a request gives, before it is made: its places and its byte.
    #[tactic(auto, using(answer::proofs::Laws::steps), unfolding(crate::specs::Repairs::given_steps))]
    fn given_steps(self, length: usize) -> Step
        ensures { result ≡ given_steps length self }
    {
        match self {
            Request::Replace { place, byte } => {
                place_step(length, place)?;
                byte_step(place, byte)
            }
            Request::Exchange { i, j } => {
                place_step(length, i)?;
                place_step(length, j)
            }
            Request::Fill => Ok(()),
        }
    }

    // A sheet's 34 bytes with the repair made as asked.
    #[tactic(auto, unfolding(crate::specs::Inner::asked_bytes))]
    fn asked(self, sheet: Sheet) -> [u8; 34]
        requires { Inside 34 self }
        ensures { result ≡ asked_bytes sheet self }
    {
        let mut text = sheet.text;
        match self {
            Request::Replace { place, byte } => text[place] = byte,
            Request::Exchange { i, j } => text.swap(i, j),
            Request::Fill => text = filled(sheet),
        }
        text
    }

    // The repair, or its first refusal: 20, then those of what the request gives, then that of the new text.
    fn tried(self, sheet: Sheet) -> Result<Repaired, Refusal>
        ensures { Tried sheet self result }
    {
        sheet_step(sheet)?;
        self.given_steps(sheet.length)?;
        let new = Sheet {
            text: self.asked(sheet),
            ..sheet
        };
        let t = new.held();
        text_step(sheet.kind, t)?;
        Ok(sheet::load(sheet.kind, t, sheet))
    }
}

pub fn repair(sheet: Sheet, request: Request) -> Repaired
    ensures { result ≡ repair_of sheet request }
{
    request
        .tried(sheet)
        .unwrap_or_else(|refusal| sheet::refused(sheet, refusal))
}

pub fn replace(sheet: Sheet, place: usize, byte: u8) -> Repaired
    ensures { result ≡ repair_of sheet (Request.Replace place byte) }
{
    repair(sheet, Request::Replace { place, byte })
}

pub fn exchange(sheet: Sheet, i: usize, j: usize) -> Repaired
    ensures { result ≡ repair_of sheet (Request.Exchange i j) }
{
    repair(sheet, Request::Exchange { i, j })
}

pub fn fill(sheet: Sheet) -> Repaired
    ensures { result ≡ repair_of sheet Request.Fill }
{
    repair(sheet, Request::Fill)
}
