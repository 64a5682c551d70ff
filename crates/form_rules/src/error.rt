//! Why a module is not valid.

ghost use Rattle.std.specs.Prelude.{◌≡◌};
ghost use Rattle.form_rules.specs.declared.error.CheckError.TheVariants as checks;

use entity_map::OutOfMemory;
use rule_spec::Rule;
use std::alloc::AllocError;

/// Why the listed rules could not be found to hold.
#[derive(Clone, Copy, Debug, PartialEq, Eq)]
pub enum CheckError {
    /// The module breaks a rule; of several, the first.
    Invalid(Rule),
    /// Out of memory.
    OutOfMemory,
}

impl From<AllocError> for CheckError {
    ghost from_gives = { λ _ e. e ≡ checks.OutOfMemory };

    fn from(_e: AllocError) -> CheckError {
        CheckError::OutOfMemory
    }
}

impl From<OutOfMemory> for CheckError {
    ghost from_gives = { λ _ e. e ≡ checks.OutOfMemory };

    fn from(_e: OutOfMemory) -> CheckError {
        CheckError::OutOfMemory
    }
}
