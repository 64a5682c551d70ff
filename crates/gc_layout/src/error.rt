//! Why there is no layout.

ghost use Rattle.std.specs.Prelude.{◌≡◌};
ghost use Rattle.gc_layout.specs.declared.error.LayoutError.TheVariants as error;

use std::alloc::{AllocError, AllocFailed};
use thiserror::Error;

/// Why a type has no layout.
#[derive(Clone, Copy, Debug, PartialEq, Eq, Error)]
pub enum LayoutError {
    /// The size of its objects passes 4294967295 bytes.
    #[error("size overflow calculating object layout")]
    OffsetOverflow,
    /// Out of memory.
    #[error("out of memory")]
    OutOfMemory,
}

impl From<entity_map::OutOfMemory> for LayoutError {
    ghost from_gives = { λ _ e. e ≡ error.OutOfMemory };

    fn from(_error: entity_map::OutOfMemory) -> LayoutError {
        LayoutError::OutOfMemory
    }
}

impl From<AllocError> for LayoutError {
    ghost from_gives = { λ _ e. e ≡ error.OutOfMemory };

    fn from(_error: AllocError) -> LayoutError {
        LayoutError::OutOfMemory
    }
}

impl<T: Drop> From<AllocFailed<T>> for LayoutError {
    ghost from_gives = { λ _ e. e ≡ error.OutOfMemory };

    fn from(_error: AllocFailed<T>) -> LayoutError {
        LayoutError::OutOfMemory
    }
}
