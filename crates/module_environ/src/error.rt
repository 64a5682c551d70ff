//! Why a module has no translation.

ghost use Rattle.std.specs.Prelude.{◌≡◌};
ghost use Rattle.module_environ.specs.Errors.{error_of_read, error_of_check, error_of_build};
ghost use Rattle.module_environ.specs.declared.error.EnvironError.TheVariants as refusal;

use form_reader::ReadError;
use form_rules::CheckError;
use module_types::BuildError;
use rule_spec::Rule;
use std::alloc::AllocError;
use thiserror::Error;
use wasm_spec::What;

/// Why bytes have no translation.
#[derive(Clone, Copy, Debug, PartialEq, Eq, Error)]
pub enum EnvironError {
    /// The bytes spell no module, and reading reaches no spelling that is not supported.
    #[error("the bytes spell no module")]
    Malformed,
    /// The module breaks a listed rule.
    #[error("the module breaks a rule")]
    Invalid(Rule),
    /// Reading reaches a spelling that is not supported.
    #[error("the module has a spelling that is not taken")]
    Unsupported(What),
    /// The input has 2^30 bytes or more.
    #[error("the input has 2^30 bytes or more")]
    TooLarge,
    /// Out of memory.
    #[error("out of memory")]
    OutOfMemory,
    /// The builder of types had returned an error before.
    #[error("an earlier call of the builder failed")]
    Poisoned,
}

impl From<ReadError> for EnvironError {
    ghost from_gives = { λ e error. error ≡ error_of_read e };

    fn from(e: ReadError) -> EnvironError {
        match e {
            ReadError::Malformed => EnvironError::Malformed,
            ReadError::Unsupported(what) => EnvironError::Unsupported(what),
            ReadError::TooLarge => EnvironError::TooLarge,
            ReadError::OutOfMemory => EnvironError::OutOfMemory,
        }
    }
}

impl From<CheckError> for EnvironError {
    ghost from_gives = { λ e error. error ≡ error_of_check e };

    fn from(e: CheckError) -> EnvironError {
        match e {
            CheckError::Invalid(rule) => EnvironError::Invalid(rule),
            CheckError::OutOfMemory => EnvironError::OutOfMemory,
        }
    }
}

impl From<BuildError> for EnvironError {
    ghost from_gives = { λ e error. error ≡ error_of_build e };

    fn from(e: BuildError) -> EnvironError {
        match e {
            BuildError::OutOfMemory => EnvironError::OutOfMemory,
            BuildError::Poisoned => EnvironError::Poisoned,
        }
    }
}

impl From<AllocError> for EnvironError {
    ghost from_gives = { λ _ error. error ≡ refusal.OutOfMemory };

    fn from(_e: AllocError) -> EnvironError {
        EnvironError::OutOfMemory
    }
}

impl From<entity_map::OutOfMemory> for EnvironError {
    ghost from_gives = { λ _ error. error ≡ refusal.OutOfMemory };

    fn from(_e: entity_map::OutOfMemory) -> EnvironError {
        EnvironError::OutOfMemory
    }
}
