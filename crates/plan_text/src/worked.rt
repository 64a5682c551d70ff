//! Worked examples of the definitions: each clause computes.

ghost use Rattle.std.specs.Prelude.{◌≡◌, codes};
ghost use Rattle.plan_text.specs.Refusals.{text_of_refusal};

use crate::TranslateError;
use rule_spec::Rule;
use wasm_spec::What;

/// Refusals name the rule that is broken, or what is not supported.
pub fn worked_refusals()
    ensures memory_rule { text_of_refusal (TranslateError.Invalid Rule.L4) ≡ codes "refused invalid L4\n" }
    ensures component { text_of_refusal (TranslateError.Unsupported What.Component) ≡ codes "refused unsupported component\n" }
{}
