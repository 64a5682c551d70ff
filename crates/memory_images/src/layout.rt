//! The segments of each memory.

ghost use Rattle.std.specs.Prelude.{◌≡◌, ◌+◌, ◌^◌, ◌≤◌, ◌<◌, ℕ, [], All, IfOk, IfSome, IfNone, OnOk, Some, length, map, slice_get, vec_len};
ghost use Rattle.std.specs.Global.{Vec};
ghost use Rattle.replay_spec.specs.Images.{IsPlaced};
ghost use Rattle.memory_images.specs.declared.placed_segment.PlacedSegment.{PlacedSegment};
ghost use Rattle.memory_images.specs.Views.{image_memory, active_segment_of};
ghost use Rattle.memory_images.specs.Layout.{AreLaid, AddsSegment};

use crate::place::segment_place;
use crate::placed_segment::PlacedSegment;
use entity_map::{EntityRef, OutOfMemory};
use std::alloc::Global;
use wasm_module::MemoryInitializer;
use wasm_types::Memory;

fn add<'d>(
    all: &mut Vec<Vec<PlacedSegment<'d>>>,
    memory: usize,
    laid: PlacedSegment<'d>,
) -> Result<(), OutOfMemory>
    requires { memory < vec_len all.old }
    ensures len { OnOk result (vec_len all.new ≡ vec_len all.old) }
    ensures adds { OnOk result (AddsSegment all.old.items all.new.items memory laid.entry) }
{
    if laid.bytes.is_empty() {
        return Ok(());
    }
    all[memory].push(laid)?;
    Ok(())
}

fn empty_lists<'d>(alloc: Global, count: usize) -> Result<Vec<Vec<PlacedSegment<'d>>>, OutOfMemory>
    ensures len { IfOk result (λ v. vec_len v ≡ count) }
    ensures empty { IfOk result (λ v. (m : ℕ) (laid : Vec PlacedSegment) → slice_get v.items m ≡ Some laid → laid.items ≡ []) }
{
    let mut all = Vec::with_capacity(alloc, count)?;
    'lists: for _ in 0..count {
        all.push(Vec::new(alloc))?;
    }
    Ok(all)
}

/// The bytes that segments write into each memory, or `None` where a segment has no placement.
pub(crate) fn lay_out<'d>(
    alloc: Global,
    imported: usize,
    defined: &[Memory],
    segments: &[MemoryInitializer<'d>],
) -> Result<Option<Vec<Vec<PlacedSegment<'d>>>>, OutOfMemory>
    requires sizes { All (λ m. m.page_size_log2 ≤ 16) defined.now }
    requires few { imported + length defined.now < 2 ^ 32 }
    ensures none { IfOk result (λ o. IfNone o (All (IsPlaced imported (map image_memory defined.now)) (map active_segment_of segments.now) → ⊥)) }
    ensures some { IfOk result (λ o. IfSome o (λ v. AreLaid imported (map image_memory defined.now) (map active_segment_of segments.now) v.items)) }
{
    let mut all = empty_lists(alloc, imported + defined.len())?;
    'segments: for segment in segments {
        match segment_place(imported, defined, segment) {
            None => return Ok(None),
            Some(start) => {
                let bytes = segment.bytes;
                add(
                    &mut all,
                    segment.memory_index.index(),
                    PlacedSegment { start, bytes },
                )?;
            }
        }
    }
    Ok(Some(all))
}
