//! Why a program is refused.

ghost use Rattle.std.specs.Prelude.{◌≡◌};

use entity_map::OutOfMemory;
use std::alloc::{AllocError, AllocFailed};
use thiserror::Error;

/// Why a program is refused. Modules are counted from 0.
#[derive(Clone, Copy, Debug, Drop, PartialEq, Eq, Error)]
pub enum ProgramError {
    /// An export of this module has the two names of an export of an earlier module.
    #[error("an export of module {0} has the names of an earlier one")]
    Duplicate(usize),
    /// With the types of this module, the program has more than a registry may hold.
    #[error("too many types at module {0}")]
    TooManyTypes(usize),
    /// A list or a map found no memory.
    #[error("out of memory")]
    OutOfMemory,
}

impl From<OutOfMemory> for ProgramError {
    ghost use Rattle.plan_link.specs.declared.program_error.ProgramError.TheVariants as errors;

    ghost from_gives = { λ _ e. e ≡ errors.OutOfMemory };

    fn from(_refused: OutOfMemory) -> ProgramError {
        ProgramError::OutOfMemory
    }
}

impl From<AllocError> for ProgramError {
    ghost use Rattle.plan_link.specs.declared.program_error.ProgramError.TheVariants as errors;

    ghost from_gives = { λ _ e. e ≡ errors.OutOfMemory };

    fn from(_refused: AllocError) -> ProgramError {
        ProgramError::OutOfMemory
    }
}

/// The value that found no memory is dropped.
impl<T: Drop> From<AllocFailed<T>> for ProgramError {
    ghost use Rattle.plan_link.specs.declared.program_error.ProgramError.TheVariants as errors;

    ghost from_gives = { λ _ e. e ≡ errors.OutOfMemory };

    fn from(_refused: AllocFailed<T>) -> ProgramError {
        ProgramError::OutOfMemory
    }
}
