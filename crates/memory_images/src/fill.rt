//! The bytes of a span.

ghost use Rattle.std.specs.Prelude.{◌≡◌, ℕ, ◌+◌, ◌<◌, ◌^◌, All, IfOk, length, slice_index, unwrap_or};
ghost use Rattle.replay_spec.specs.Phases.{item_at};
ghost use Rattle.memory_images.specs.Contents.{contents_of, end_of, piece_of};
ghost use Rattle.memory_images.specs.Image.{Filled};

use crate::placed_segment::PlacedSegment;
use crate::span::PageSpan;
use entity_map::OutOfMemory;
use std::alloc::Global;

/// The contents of a span, in a list of exactly its length.
pub(crate) fn filled(
    alloc: Global,
    laid: &[PlacedSegment<'_>],
    span: PageSpan,
) -> Result<Vec<u8>, OutOfMemory>
    requires { All (λ x. end_of x < 2 ^ 64) laid.now }
    ensures len { IfOk result (λ v. length v.items ≡ span.size) }
    ensures bytes { IfOk result (λ v. Filled (contents_of laid.now) span.start v.items) }
{
    let mut bytes = vec![in alloc; 0; span.size as usize]?;
    'laid: for x in laid {
        write_segment(&mut bytes, x, span.start);
    }
    Ok(bytes)
}

/// Writes the part of a piece that is in the buffer, which begins at `start`.
fn write_segment(bytes: &mut Vec<u8>, x: &PlacedSegment<'_>, start: u64)
    requires { end_of x.now < 2 ^ 64 }
    ensures len { length bytes.new.items ≡ length bytes.old.items }
    ensures bytes { (i : ℕ) → i < length bytes.old.items
        → slice_index bytes.new.items i ≡ unwrap_or (item_at 0 (start + i) (piece_of x.now)) (slice_index bytes.old.items i) }
{
    let from = x.start.max(start);
    let end = start.saturating_add(bytes.len() as u64);
    let to = (x.start + x.bytes.len() as u64).min(end);
    if from < to {
        let piece = &x.bytes[(from - x.start) as usize..(to - x.start) as usize];
        bytes[(from - start) as usize..(to - start) as usize].copy_from_slice(piece);
    }
}
