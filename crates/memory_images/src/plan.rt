//! The decision whether active segments become images, and the images.

ghost use Rattle.std.specs.Prelude.{◌≡◌, ◌⊎◌, ◌+◌, ◌^◌, ◌≤◌, ◌<◌, ℕ, List, Option, All, IfOk, IfSome, IfNone, Ok, Err, None, false, length, map, drop, sum_by};
ghost use Rattle.std.specs.Int.{IsPowerOfTwo};
ghost use Rattle.replay_spec.specs.Images.{IsStatic, AreImages, MemoryImage, image_bytes};
ghost use Rattle.memory_images.specs.Images.{images_of as view_images};
ghost use Rattle.memory_images.specs.Past.{ImagesPassAt};
ghost use Rattle.memory_images.specs.Views.{image_memory, active_segment_of, options_of};

use crate::error::ImageError;
use crate::image::{Image, image_past, images_of};
use crate::rule::static_layout;
use crate::settings::ImageSettings;
use entity_map::OutOfMemory;
use std::alloc::Global;
use wasm_module::MemoryInitializer;
use wasm_types::Memory;

/// The images of all memories, imported ones first, where all active segments become images, and
/// `None` where they do not. `passive` is the number of bytes of passive segments: they are in the
/// runtime data too. Where images are off nothing is allocated.
///
/// # Errors
/// - `TooLarge` where the images and the passive segments pass 4294967295 bytes together, before an
///   image is made.
/// - `OutOfMemory` where an allocation fails.
pub fn plan_images(
    alloc: Global,
    settings: ImageSettings,
    memories: &[Memory],
    imported: usize,
    segments: &[MemoryInitializer<'_>],
    passive: u64,
) -> Result<Option<Vec<Option<Image>>>, ImageError>
    requires page_sizes { All (λ m. (m.page_size_log2 ≡ 0) ⊎ (m.page_size_log2 ≡ 16)) memories.now }
    requires page_size { IsPowerOfTwo settings.page_size }
    requires imports { imported ≤ length memories.now }
    requires few { length memories.now < 2 ^ 32 }
    ensures off { settings.enabled ≡ false → result ≡ Ok None }
    ensures none { IfOk result (λ o. IfNone o (IsStatic (options_of settings) imported (map image_memory (drop imported memories.now)) (map active_segment_of segments.now) → ⊥)) }
    ensures holds { IfOk result (λ o. IfSome o (λ _. IsStatic (options_of settings) imported (map image_memory (drop imported memories.now)) (map active_segment_of segments.now))) }
    ensures images { IfOk result (λ o. IfSome o (λ images.
        AreImages settings.page_size (length memories.now) (map active_segment_of segments.now) (view_images images.items))) }
    // Too large exactly where the images and the passive segments pass 4294967295 bytes.
    ensures fits { IfOk result (λ o. IfSome o (λ images. passive + sum_by length (image_bytes (view_images images.items)) < 2 ^ 32)) }
    ensures too_large { result ≡ Err ImageError.TooLarge → (images : List (Option MemoryImage))
        → AreImages settings.page_size (length memories.now) (map active_segment_of segments.now) images
        → 2 ^ 32 ≤ passive + sum_by length (image_bytes images) }
    ensures too_large_holds { result ≡ Err ImageError.TooLarge
        → IsStatic (options_of settings) imported (map image_memory (drop imported memories.now)) (map active_segment_of segments.now) }
{
    if !settings.enabled {
        return Ok(None);
    }
    match static_layout(alloc, settings, imported, &memories[imported..], segments)? {
        None => Ok(None),
        Some(all) => {
            let images = images_of(alloc, all.as_slice(), passive, settings.page_size)?;
            Ok(Some(images))
        }
    }
}

/// The first memory with whose image the images and the passive segments, of `passive` bytes, pass
/// 4294967295 bytes together. `None` where they do not, and where not all active segments become
/// images. No image is made, and where images are off nothing is allocated.
///
/// # Errors
/// `OutOfMemory` where an allocation fails.
pub fn too_large_at(
    alloc: Global,
    settings: ImageSettings,
    memories: &[Memory],
    imported: usize,
    segments: &[MemoryInitializer<'_>],
    passive: u64,
) -> Result<Option<usize>, OutOfMemory>
    requires page_sizes { All (λ m. (m.page_size_log2 ≡ 0) ⊎ (m.page_size_log2 ≡ 16)) memories.now }
    requires page_size { IsPowerOfTwo settings.page_size }
    requires imports { imported ≤ length memories.now }
    requires few { length memories.now < 2 ^ 32 }
    requires passive { passive < 2 ^ 32 }
    ensures off { settings.enabled ≡ false → result ≡ Ok None }
    ensures bound { IfOk result (λ o. IfSome o (λ memory. memory < length memories.now)) }
    ensures past { IfOk result (λ o. IfSome o (λ memory.
        ImagesPassAt (options_of settings) imported (map image_memory (drop imported memories.now)) (map active_segment_of segments.now) passive memory)) }
    ensures none { IfOk result (λ o. IfNone o ((images : List (Option MemoryImage))
        → IsStatic (options_of settings) imported (map image_memory (drop imported memories.now)) (map active_segment_of segments.now)
        → AreImages settings.page_size (length memories.now) (map active_segment_of segments.now) images
        → passive + sum_by length (image_bytes images) < 2 ^ 32)) }
{
    if !settings.enabled {
        return Ok(None);
    }
    match static_layout(alloc, settings, imported, &memories[imported..], segments)? {
        None => Ok(None),
        Some(all) => image_past(alloc, all.as_slice(), passive, settings.page_size),
    }
}
