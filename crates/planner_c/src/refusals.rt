//! A refusal as numbers and as its line.

ghost use Rattle.std.specs.Prelude.{◌≡◌, ◌≢◌};
ghost use Rattle.planner_c.specs.Refusals.{rule_number, what_number, refusal_row, TellsRefusal};

use plan_tables::PlanRecord;
use plan_text::TranslateError;
use rule_spec::Rule;
use translate::refusal_line;
use wasm_spec::What;

/// Puts a refusal into a record.
pub(crate) fn tell_refusal(refusal: &TranslateError, out: &mut PlanRecord<'_>)
    requires { refusal.now ≢ TranslateError.OutOfMemory }
    ensures { TellsRefusal refusal.now out.new }
{
    let (kind, detail) = refusal_numbers(refusal);
    out.refusal = kind;
    out.refusal_detail = detail;
    out.refusal_line = refusal_line(refusal).as_bytes();
}

/// The kind of a refusal, and which rule is broken, or what is not supported.
pub(crate) fn refusal_numbers(refusal: &TranslateError) -> (u32, u32)
    ensures { result ≡ refusal_row refusal.now }
{
    match refusal {
        TranslateError::Malformed => (1, 0),
        TranslateError::Invalid(rule) => (2, rule_number(*rule)),
        TranslateError::Unsupported(what) => (3, what_number(*what)),
        TranslateError::TooLarge => (4, 0),
        TranslateError::OffsetOverflow => (5, 0),
        TranslateError::OutOfMemory => (0, 0),
    }
}

pub(crate) fn rule_number(rule: Rule) -> u32
    ensures { result ≡ rule_number rule }
{
    match rule {
        Rule::L1 => 1,
        Rule::L2 => 2,
        Rule::L3 => 3,
        Rule::L4 => 4,
        Rule::L5 => 5,
        Rule::L6 => 6,
        Rule::L7 => 7,
        Rule::L8 => 8,
        Rule::L9 => 9,
        Rule::L10 => 10,
    }
}

fn what_number(what: What) -> u32
    ensures { result ≡ what_number what }
{
    match what {
        What::Component => 1,
        What::Shared => 2,
        What::Supertypes => 3,
        What::Operator => 4,
        What::ExactImport => 5,
        What::InterfaceTypes => 6,
    }
}
