// What a check of a field answers: acceptance with a number, or a refusal with its reason and the step that gave it.
#![tactic(auto)]

ghost use Rattle.std.specs.Prelude.{◌≡◌};
ghost use Rattle.answer.specs.Table.{row, row_of, numbers_of, check_of};
ghost use Rattle.answer.specs.Steps.{must};

// One case for each refusal of SCOPE's answer table, with the place and the number that it can have, and nothing else.
#[derive(Clone, Copy)]
pub enum Reason {
    NotUtf8 { place: usize },
    Length { place: usize, count: u64 },
    Wrong { place: usize },
    Range { place: usize, value: u64 },
    Remainder { rest: u64 },
    NotListed,
    NotPositive,
    Missing { place: usize },
    TooLarge,
    Trailing { place: usize },
    TooLong { count: u64 },
    UnknownKind { kind: u64 },
    NoSheet,
    NoPlace { given: u64 },
    Unfit { place: usize },
}

// A refusal: why, and the check number of the step that gave it. That is a number and no enum, since docs/CHECKS.md numbers the steps, a kind's
// from 100 times the kind on, and steps that kinds share count on from where they are told to.
#[derive(Clone, Copy)]
pub struct Refusal {
    pub reason: Reason,
    pub check: u32,
}

// What one step of a rule says: go on, or the refusal of the step. `?` hands the first refusal on.
pub type Step = Result<(), Refusal>;

// What a rule answers: acceptance with a number, or a refusal.
pub type Answer = Result<u64, Refusal>;

// A test that must hold; where it does not, the reason and the step's check number.
#[inline]
pub fn must(holds: bool, reason: Reason, check: u32) -> Step
    ensures { result ≡ must holds reason check }
{
    if holds {
        Ok(())
    } else {
        Err(Refusal { reason, check })
    }
}

// The three numbers of an answer: SCOPE's number of it, the place to look at, and what belongs to it.
#[derive(Clone, Copy)]
pub struct Numbers {
    pub number: u8,
    pub place: usize,
    pub value: u64,
}

// A row of SCOPE's answer table.
fn row(number: u8, place: usize, value: u64) -> Numbers
    ensures { result ≡ row number place value }
{
    Numbers {
        number,
        place,
        value,
    }
}

// The table, one row a reason.
impl From<Reason> for Numbers {
    ghost from_gives = { λ reason numbers. numbers ≡ row_of reason };

    fn from(reason: Reason) -> Numbers {
        match reason {
            Reason::NotUtf8 { place } => row(1, place, 0),
            Reason::Length { place, count } => row(2, place, count),
            Reason::Wrong { place } => row(3, place, 0),
            Reason::Range { place, value } => row(4, place, value),
            Reason::Remainder { rest } => row(5, 0, rest),
            Reason::NotListed => row(6, 0, 0),
            Reason::NotPositive => row(7, 0, 0),
            Reason::Missing { place } => row(8, place, 0),
            Reason::TooLarge => row(9, 0, 0),
            Reason::Trailing { place } => row(10, place, 0),
            Reason::TooLong { count } => row(11, 0, count),
            Reason::UnknownKind { kind } => row(12, 0, kind),
            Reason::NoSheet => row(20, 0, 0),
            Reason::NoPlace { given } => row(21, 0, given),
            Reason::Unfit { place } => row(22, place, 0),
        }
    }
}

// Acceptance has number 0 and its own number as the value; a refusal has its reason's row.
impl From<Answer> for Numbers {
    ghost from_gives = { λ answer numbers. numbers ≡ numbers_of answer };

    fn from(answer: Answer) -> Numbers {
        match answer {
            Ok(n) => row(0, 0, n),
            Err(refusal) => Numbers::from(refusal.reason),
        }
    }
}

// The check number of the step that refused (docs/CHECKS.md), and 0 for acceptance.
pub fn check_of(answer: Answer) -> u32
    ensures { result ≡ check_of answer }
{
    match answer {
        Ok(_) => 0,
        Err(refusal) => refusal.check,
    }
}
