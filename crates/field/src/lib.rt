// The check of one field: the choice on the kind, with the steps that every field passes before its rule.
#![tactic(auto)]

ghost use Rattle.std.specs.Prelude.{◌≡◌};
ghost use Rattle.field.specs.Field.{limit_step, rule_of, check_field};
ghost use Rattle.field.specs.Inner.{number_of, Names, utf8_step, before_rule, after_rule, Suits};

use answer::{Answer, Reason, Refusal, Step, must};

// The longest field that a rule is asked about.
pub const FIELD_LIMIT: usize = 4096;

// The rules, one for each kind that is known. A new kind has a line here, in `try_from` and in `ask`.
#[derive(Clone, Copy)]
enum Rule {
    Iban,
    Lei,
    Bic,
    Date,
    Datetime,
    Amount,
    Country,
    Currency,
    Cents,
    CentsLenient,
}

impl TryFrom<u16> for Rule {
    type Error = Refusal;

    ghost try_from_gives = { Names };

    fn try_from(kind: u16) -> Result<Rule, Refusal> {
        match kind {
            1 => Ok(Rule::Iban),
            2 => Ok(Rule::Lei),
            3 => Ok(Rule::Bic),
            4 => Ok(Rule::Date),
            5 => Ok(Rule::Datetime),
            6 => Ok(Rule::Amount),
            7 => Ok(Rule::Country),
            8 => Ok(Rule::Currency),
            9 => Ok(Rule::Cents),
            10 => Ok(Rule::CentsLenient),
            _ => Err(Refusal {
                reason: Reason::UnknownKind {
                    kind: u64::from(kind),
                },
                check: 1,
            }),
        }
    }
}

// The order in which the steps of a kind's check are asked; an enum and no closure, since what suits a kind is proved of it by name (`Suits`).
// SCOPE's order for a field is 12, 11, 1, then the rule's steps; any order that gives the same answers will do, and the quickest is taken.
#[derive(Clone, Copy)]
enum Way {
    // The kind's rule accepts ASCII only, which is UTF-8: the rule is asked first, and only a field that it refuses is looked at for UTF-8.
    RuleFirst,
    // The kind's rule accepts characters beyond ASCII, as the IBAN's passes over blanks beyond it: the field is looked at for UTF-8 first.
    AdmittedFirst,
    // The kind's value is bytes, and is not looked at for UTF-8.
    Exempt,
}

impl Rule {
    #[tactic(auto, using(crate::proofs::Ways::iban_admitted_first, crate::proofs::Ways::rule_first))]
    fn way(self) -> Way
        ensures { Suits result (number_of self) }
    {
        match self {
            Rule::Iban => Way::AdmittedFirst,
            _ => Way::RuleFirst,
        }
    }

    #[tactic(auto, unfolding(crate::specs::Field::rule_of))]
    fn ask(self, value: &[u8]) -> Answer
        ensures { result ≡ rule_of (number_of self) value.now }
    {
        match self {
            Rule::Iban => iban::validate_iban(value),
            Rule::Lei => lei::validate_lei(value),
            Rule::Bic => bic::validate_bic(value),
            Rule::Date => datetime::validate_iso_date(value),
            Rule::Datetime => datetime::validate_iso_datetime(value),
            Rule::Amount => amount::validate_amount(value),
            Rule::Country => country::validate_country(value),
            Rule::Currency => currency::validate_currency(value),
            Rule::Cents => common::parse_amount_cents(value),
            Rule::CentsLenient => common::parse_amount_cents_lenient(value),
        }
    }
}

fn within_limit(value: &[u8]) -> Step
    ensures { result ≡ limit_step value.now }
{
    let count = value.len() as u64;
    must(value.len() <= FIELD_LIMIT, Reason::TooLong { count }, 2)
}

fn utf8_step(value: &[u8]) -> Step
    ensures { result ≡ utf8_step value.now }
{
    let place = utf8::valid_prefix(value);
    must(place == value.len(), Reason::NotUtf8 { place }, 3)
}

// The steps that are asked before the rule. A field above the limit is not read.
//
// `let lent = value;`, here and below, is there for speed. A slice is a pointer and a length, which stay in registers; but where a parameter is
// itself handed to a function that the compiler does not inline, it is copied to memory at the start of every call, whether or not that
// function is reached. A local is copied only where it is reached, and for most fields it is not.
#[tactic(auto, using(answer::proofs::Laws::steps))]
fn before_rule(way: Way, value: &[u8]) -> Step
    ensures { result ≡ before_rule way value.now }
{
    within_limit(value)?;
    match way {
        Way::AdmittedFirst => {
            let lent = value;
            utf8_step(lent)
        }
        Way::RuleFirst | Way::Exempt => Ok(()),
    }
}

// The step that is left for a field that its rule refused.
fn after_rule(way: Way, value: &[u8]) -> Step
    ensures { result ≡ after_rule way value.now }
{
    match way {
        Way::RuleFirst => utf8_step(value),
        Way::AdmittedFirst | Way::Exempt => Ok(()),
    }
}

// The check of a field of any kind. The kind is a number, since any may be handed in.
pub fn check_field(kind: u16, value: &[u8]) -> Answer
    ensures { result ≡ check_field kind value.now }
{
    let rule = Rule::try_from(kind)?;
    let way = rule.way();
    before_rule(way, value)?;
    // A match and no `or_else`, which would hold the field for its closure before it is known that it is called.
    match rule.ask(value) {
        Ok(n) => Ok(n),
        Err(refusal) => {
            let lent = value;
            after_rule(way, lent)?;
            Err(refusal)
        }
    }
}
