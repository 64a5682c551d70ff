//! Why a growing call appends nothing.

ghost use Rattle.std.specs.Prelude.{◌≡◌};

use entity_map::OutOfMemory;
use thiserror::Error;

/// Why a growing call of a builder returns an error.
#[derive(Clone, Copy, Debug, Drop, PartialEq, Eq, Error)]
pub enum BuildError {
    /// Out of memory.
    #[error("out of memory")]
    OutOfMemory,
    /// An earlier growing call returned an error.
    #[error("an earlier call of the builder failed")]
    Poisoned,
}

impl From<OutOfMemory> for BuildError {
    ghost use Rattle.module_types.specs.declared.error.BuildError.TheVariants as errors;

    ghost from_gives = { λ _ e. e ≡ errors.OutOfMemory };

    fn from(_refused: OutOfMemory) -> BuildError {
        BuildError::OutOfMemory
    }
}
