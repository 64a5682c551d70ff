//! Why there is no plan.

ghost use Rattle.std.specs.Prelude.{◌≡◌};
ghost use Rattle.init_plan.specs.declared.error.PlanError.TheVariants.{OutOfMemory};
ghost use Rattle.init_plan.specs.Errors.{error_of_build, plan_error_of};

use memory_images::ImageError;
use module_types::BuildError;
use std::alloc::{AllocError, AllocFailed};
use thiserror::Error;

/// Why the initialisers have no plan.
#[derive(Clone, Copy, Debug, PartialEq, Eq, Error)]
pub enum PlanError {
    /// The runtime data pass 4294967295 bytes.
    #[error("the data pass 4294967295 bytes")]
    TooLarge,
    /// Out of memory.
    #[error("out of memory")]
    OutOfMemory,
    /// The builder of types had returned an error before.
    #[error("an earlier call of the builder failed")]
    Poisoned,
}

impl From<BuildError> for PlanError {
    ghost from_gives = { λ e error. error ≡ error_of_build e };

    fn from(e: BuildError) -> PlanError {
        match e {
            BuildError::OutOfMemory => PlanError::OutOfMemory,
            BuildError::Poisoned => PlanError::Poisoned,
        }
    }
}

impl From<entity_map::OutOfMemory> for PlanError {
    ghost from_gives = { λ _ e. e ≡ OutOfMemory };

    fn from(_e: entity_map::OutOfMemory) -> PlanError {
        PlanError::OutOfMemory
    }
}

impl From<AllocError> for PlanError {
    ghost from_gives = { λ _ e. e ≡ OutOfMemory };

    fn from(_e: AllocError) -> PlanError {
        PlanError::OutOfMemory
    }
}

impl<T: Drop> From<AllocFailed<T>> for PlanError {
    ghost from_gives = { λ _ e. e ≡ OutOfMemory };

    fn from(_e: AllocFailed<T>) -> PlanError {
        PlanError::OutOfMemory
    }
}

impl From<ImageError> for PlanError {
    ghost from_gives = { λ error e. e ≡ plan_error_of error };

    fn from(error: ImageError) -> PlanError {
        match error {
            ImageError::TooLarge => PlanError::TooLarge,
            ImageError::OutOfMemory => PlanError::OutOfMemory,
        }
    }
}
