//! Why a module has no plan.

ghost use Rattle.std.specs.Prelude.{◌≡◌};
ghost use Rattle.plan_text.specs.Errors.{error_of_translation, error_of_plan, error_of_layout};
ghost use Rattle.plan_text.specs.declared.error.TranslateError.TheVariants as refusal;

use gc_layout::LayoutError;
use init_plan::PlanError;
use module_environ::EnvironError;
use rule_spec::Rule;
use vm_offsets::OffsetOverflow;
use wasm_spec::What;

/// Why bytes have no plan.
#[derive(Clone, Copy, Debug, PartialEq, Eq)]
pub enum TranslateError {
    /// The bytes spell no module, and reading them reaches no unsupported spelling.
    Malformed,
    /// The module breaks a listed rule.
    Invalid(Rule),
    /// Reading reaches a spelling that is not supported.
    Unsupported(What),
    /// The input has 2^30 bytes or more, or the runtime data pass 4294967295 bytes.
    TooLarge,
    /// An object's size or the context's passes 4294967295 bytes.
    OffsetOverflow,
    /// Out of memory.
    OutOfMemory,
}

impl From<EnvironError> for TranslateError {
    ghost from_gives = { λ e error. error ≡ error_of_translation e };

    fn from(e: EnvironError) -> TranslateError {
        match e {
            EnvironError::Malformed => TranslateError::Malformed,
            EnvironError::Invalid(rule) => TranslateError::Invalid(rule),
            EnvironError::Unsupported(what) => TranslateError::Unsupported(what),
            EnvironError::TooLarge => TranslateError::TooLarge,
            // A builder is poisoned only where memory ran out.
            EnvironError::OutOfMemory | EnvironError::Poisoned => TranslateError::OutOfMemory,
        }
    }
}

impl From<PlanError> for TranslateError {
    ghost from_gives = { λ e error. error ≡ error_of_plan e };

    fn from(e: PlanError) -> TranslateError {
        match e {
            PlanError::TooLarge => TranslateError::TooLarge,
            PlanError::OutOfMemory | PlanError::Poisoned => TranslateError::OutOfMemory,
        }
    }
}

impl From<LayoutError> for TranslateError {
    ghost from_gives = { λ e error. error ≡ error_of_layout e };

    fn from(e: LayoutError) -> TranslateError {
        match e {
            LayoutError::OffsetOverflow => TranslateError::OffsetOverflow,
            LayoutError::OutOfMemory => TranslateError::OutOfMemory,
        }
    }
}

impl From<OffsetOverflow> for TranslateError {
    ghost from_gives = { λ _ error. error ≡ refusal.OffsetOverflow };

    fn from(_e: OffsetOverflow) -> TranslateError {
        TranslateError::OffsetOverflow
    }
}

impl From<entity_map::OutOfMemory> for TranslateError {
    ghost from_gives = { λ _ error. error ≡ refusal.OutOfMemory };

    fn from(_e: entity_map::OutOfMemory) -> TranslateError {
        TranslateError::OutOfMemory
    }
}
