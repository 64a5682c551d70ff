//! Why there are no images.

ghost use Rattle.std.specs.Prelude.{◌≡◌};
ghost use Rattle.memory_images.specs.declared.error.ImageError.TheVariants.{OutOfMemory as no_memory};

use entity_map::OutOfMemory;
use std::alloc::{AllocError, AllocFailed};

/// Why data segments have no images.
#[derive(Clone, Copy, Debug, PartialEq, Eq)]
pub enum ImageError {
    /// The images and the passive segments pass 4294967295 bytes together.
    TooLarge,
    /// Out of memory.
    OutOfMemory,
}

impl From<AllocError> for ImageError {
    ghost from_gives = { λ _ e. e ≡ no_memory };

    fn from(_e: AllocError) -> ImageError {
        ImageError::OutOfMemory
    }
}

impl<T: Drop> From<AllocFailed<T>> for ImageError {
    ghost from_gives = { λ _ e. e ≡ no_memory };

    fn from(_e: AllocFailed<T>) -> ImageError {
        ImageError::OutOfMemory
    }
}

impl From<OutOfMemory> for ImageError {
    ghost from_gives = { λ _ e. e ≡ no_memory };

    fn from(_e: OutOfMemory) -> ImageError {
        ImageError::OutOfMemory
    }
}
