//! The line of a refusal.

ghost use Rattle.std.specs.Prelude.{◌≡◌, ◌≢◌};
ghost use Rattle.plan_text.specs.Refusals.{text_of_refusal};

use crate::TranslateError;
use rule_spec::Rule;
use wasm_spec::What;

/// The line that says why there is no plan, with its line feed. Out of memory has no line.
pub fn refusal_line(refusal: &TranslateError) -> &'static str
    requires { refusal.now ≢ TranslateError.OutOfMemory }
    ensures { result.now ≡ text_of_refusal refusal.now }
{
    match refusal {
        TranslateError::Malformed => "refused malformed\n",
        TranslateError::Invalid(rule) => rule_line(*rule),
        TranslateError::Unsupported(what) => what_line(*what),
        TranslateError::TooLarge => "refused too large\n",
        TranslateError::OffsetOverflow => "refused offset overflow\n",
        TranslateError::OutOfMemory => "",
    }
}

fn rule_line(rule: Rule) -> &'static str
    ensures { result.now ≡ text_of_refusal (TranslateError.Invalid rule) }
{
    match rule {
        Rule::L1 => "refused invalid L1\n",
        Rule::L2 => "refused invalid L2\n",
        Rule::L3 => "refused invalid L3\n",
        Rule::L4 => "refused invalid L4\n",
        Rule::L5 => "refused invalid L5\n",
        Rule::L6 => "refused invalid L6\n",
        Rule::L7 => "refused invalid L7\n",
        Rule::L8 => "refused invalid L8\n",
        Rule::L9 => "refused invalid L9\n",
        Rule::L10 => "refused invalid L10\n",
    }
}

fn what_line(what: What) -> &'static str
    ensures { result.now ≡ text_of_refusal (TranslateError.Unsupported what) }
{
    match what {
        What::Component => "refused unsupported component\n",
        What::Shared => "refused unsupported shared\n",
        What::Supertypes => "refused unsupported supertypes\n",
        What::Operator => "refused unsupported operator\n",
        What::ExactImport => "refused unsupported exact import\n",
        What::InterfaceTypes => "refused unsupported interface types\n",
    }
}
