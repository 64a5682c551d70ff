//! The decision whether all active segments become images.

ghost use Rattle.std.specs.Prelude.{◌≡◌, ◌≢◌, ◌⊎◌, ◌+◌, ◌*◌, ◌^◌, ◌≤◌, ◌<◌, ◌↔◌, ℕ, List, [], All, IsTrue, IfOk, IfSome, IfNone, length, map};
ghost use Rattle.replay_spec.specs.Data.{ActiveSegment};
ghost use Rattle.replay_spec.specs.Images.{IsDense, MayBeImage, IsStatic};
ghost use Rattle.memory_images.specs.Contents.{end_of, piece_of};
ghost use Rattle.memory_images.specs.Views.{image_memory, active_segment_of, options_of};
ghost use Rattle.memory_images.specs.Layout.{AreLaid, MayBeImages, laid_piece};

use crate::layout::lay_out;
use crate::place::page_size;
use crate::placed_segment::PlacedSegment;
use crate::settings::ImageSettings;
use entity_map::OutOfMemory;
use std::alloc::Global;
use wasm_module::MemoryInitializer;
use wasm_types::Memory;

// Whether the bytes are close together, or within `max_image`.
fn is_dense(laid: &[PlacedSegment<'_>], max_image: u64) -> bool
    requires { All (λ x. end_of x < 2 ^ 64) laid.now }
    ensures { (ss : List ActiveSegment) → map piece_of laid.now ≡ map laid_piece ss → IsTrue result ↔ IsDense max_image ss }
{
    let mut low = u64::MAX;
    let mut high = 0;
    let mut count: u128 = 0;
    'laid: for x in laid {
        low = low.min(x.start);
        high = high.max(x.start + x.bytes.len() as u64);
        count += x.bytes.len() as u128;
    }
    is_close(high.saturating_sub(low), count, max_image)
}

// Whether an extent is below twice its bytes, or below `max_image`.
fn is_close(extent: u64, count: u128, max_image: u64) -> bool
    requires { count < 2 ^ 127 }
    ensures { IsTrue result ↔ (extent < 2 * count) ⊎ (extent < max_image) }
{
    u128::from(extent) < 2 * count || extent < max_image
}

// Whether a memory has no bytes, or they may be its image.
fn may_be_image(laid: &[PlacedSegment<'_>], memory: Memory, settings: ImageSettings) -> bool
    requires size { memory.page_size_log2 ≤ 16 }
    requires fits { All (λ x. end_of x < 2 ^ 64) laid.now }
    ensures { (ss : List ActiveSegment) → map piece_of laid.now ≡ map laid_piece ss
        → IsTrue result ↔ (ss ≢ [] → MayBeImage (options_of settings) (image_memory memory) ss) }
{
    laid.is_empty() || settings.page_size <= page_size(memory) && is_dense(laid, settings.max_image)
}

// Whether the bytes of each defined memory may be its image.
fn may_be_images(
    imported: usize,
    defined: &[Memory],
    segments: &[MemoryInitializer<'_>],
    all: &[Vec<PlacedSegment<'_>>],
    settings: ImageSettings,
) -> bool
    requires sizes { All (λ m. m.page_size_log2 ≤ 16) defined.now }
    requires few { imported + length defined.now < 2 ^ 32 }
    requires laid { AreLaid imported (map image_memory defined.now) (map active_segment_of segments.now) all.now }
    ensures { IsTrue result ↔ MayBeImages (options_of settings) imported (map image_memory defined.now) (map active_segment_of segments.now) }
{
    'memories: for m in 0..defined.len() {
        if !may_be_image(all[imported + m].as_slice(), defined[m], settings) {
            return false;
        }
    }
    true
}

/// The bytes that segments write into each memory, where all of them become images.
pub(crate) fn static_layout<'d>(
    alloc: Global,
    settings: ImageSettings,
    imported: usize,
    defined: &[Memory],
    segments: &[MemoryInitializer<'d>],
) -> Result<Option<Vec<Vec<PlacedSegment<'d>>>>, OutOfMemory>
    requires enabled { IsTrue settings.enabled }
    requires sizes { All (λ m. m.page_size_log2 ≤ 16) defined.now }
    requires few { imported + length defined.now < 2 ^ 32 }
    ensures none { IfOk result (λ o. IfNone o (IsStatic (options_of settings) imported (map image_memory defined.now) (map active_segment_of segments.now) → ⊥)) }
    ensures holds { IfOk result (λ o. IfSome o (λ _. IsStatic (options_of settings) imported (map image_memory defined.now) (map active_segment_of segments.now))) }
    ensures laid { IfOk result (λ o. IfSome o (λ v. AreLaid imported (map image_memory defined.now) (map active_segment_of segments.now) v.items)) }
    ensures fits { IfOk result (λ o. IfSome o (λ v. All (λ laid. All (λ x. end_of x < 2 ^ 64) laid.items) v.items)) }
{
    match lay_out(alloc, imported, defined, segments)? {
        None => Ok(None),
        Some(all) => {
            if may_be_images(imported, defined, segments, all.as_slice(), settings) {
                Ok(Some(all))
            } else {
                Ok(None)
            }
        }
    }
}
