//! Why a definition does not match an import, and why a call of a linker is refused.

ghost use Rattle.std.specs.Prelude.{◌≡◌};

use entity_map::OutOfMemory;
use std::alloc::{AllocError, AllocFailed};
use thiserror::Error;

/// The rule of matching that a definition breaks: one variant a rule, in the order in which the
/// rules are checked (core specification, 3.3, external types).
#[derive(Clone, Copy, Debug, Drop, PartialEq, Eq)]
pub enum Mismatch {
    /// A definition of another kind.
    Kind,
    /// A function of another type.
    FuncType,
    /// A table of other elements.
    TableElement,
    /// A table with indices of another type.
    TableIndexType,
    /// A table that may be smaller than the required least size.
    TableMin,
    /// A table that may grow past the greatest allowed size.
    TableMax,
    /// A memory with indices of another type.
    MemoryIndexType,
    /// One of the memories is shared, the other not.
    MemoryShared,
    /// A memory with pages of another size.
    MemoryPage,
    /// A memory that may be smaller than the required least size.
    MemoryMin,
    /// A memory that may grow past the greatest allowed size.
    MemoryMax,
    /// One of the globals can be written, the other not.
    GlobalMutability,
    /// A global of another value type.
    GlobalType,
    /// A tag of another function type.
    TagType,
}

/// Why a call of a linker is refused. The linker is as it was before.
#[derive(Clone, Copy, Debug, Drop, PartialEq, Eq, Error)]
pub enum LinkError {
    /// Something is already defined under the two names.
    #[error("defined already")]
    Duplicate,
    /// The registry holds no module under the key.
    #[error("no such module is held")]
    NotHeld,
    /// Nothing is defined under the names of the import at this position, counted from 0.
    #[error("import {0} is not defined")]
    Missing(usize),
    /// What is defined under the names of the import at this position does not match it.
    #[error("import {0} does not match its definition: {1}")]
    Mismatch(usize, Mismatch),
    /// A list or a map found no memory.
    #[error("out of memory")]
    OutOfMemory,
}

/// Why an import is refused, with its two names: for the text of an error.
#[derive(Clone, Copy, Debug, Drop, Error)]
#[error("{from}.{own}: {cause}")]
pub struct ImportRefused<'a> {
    /// The name of the module from which it comes.
    pub from: &'a str,
    /// Its own name there.
    pub own: &'a str,
    /// The linker's result.
    pub cause: LinkError,
}

impl From<OutOfMemory> for LinkError {
    ghost use Rattle.import_match.specs.declared.error.LinkError.TheVariants as errors;

    ghost from_gives = { λ _ e. e ≡ errors.OutOfMemory };

    fn from(_refused: OutOfMemory) -> LinkError {
        LinkError::OutOfMemory
    }
}

impl From<AllocError> for LinkError {
    ghost use Rattle.import_match.specs.declared.error.LinkError.TheVariants as errors;

    ghost from_gives = { λ _ e. e ≡ errors.OutOfMemory };

    fn from(_refused: AllocError) -> LinkError {
        LinkError::OutOfMemory
    }
}

/// The value that found no memory is dropped.
impl<T: Drop> From<AllocFailed<T>> for LinkError {
    ghost use Rattle.import_match.specs.declared.error.LinkError.TheVariants as errors;

    ghost from_gives = { λ _ e. e ≡ errors.OutOfMemory };

    fn from(_refused: AllocFailed<T>) -> LinkError {
        LinkError::OutOfMemory
    }
}
