//! The offset at which an active segment is placed.

ghost use Rattle.std.specs.Prelude.{◌≡◌, ◌≤◌, ◌^◌, map, All, IfSome, IfNone};
ghost use Rattle.wasm_convert.specs.Constants.{plain_value_of};
ghost use Rattle.replay_spec.specs.Images.{size_of, index_of, IsPlaced, start_of};
ghost use Rattle.memory_images.specs.Views.{is_wide, image_memory, active_segment_of};

use entity_map::EntityRef;
use wasm_convert::GlobalConstValue;
use wasm_module::MemoryInitializer;
use wasm_types::{IndexType, Memory};

// A constant of an index type, read as unsigned.
fn index(idx_type: IndexType, constant: GlobalConstValue) -> Option<u64>
    ensures { result ≡ index_of (is_wide idx_type) (plain_value_of constant) }
{
    match (idx_type, constant) {
        (IndexType::I32, GlobalConstValue::I32(value)) => Some(u64::from(value.cast_unsigned())),
        (IndexType::I64, GlobalConstValue::I64(value)) => Some(value.cast_unsigned()),
        _ => None,
    }
}

// The page size of a memory, in bytes.
pub(crate) fn page_size(memory: Memory) -> u64
    requires { memory.page_size_log2 ≤ 16 }
    ensures { result ≡ 2 ^ memory.page_size_log2 }
{
    1 << memory.page_size_log2
}

// The minimum size of a memory in bytes, where it fits 64 bits.
fn minimum_bytes(memory: Memory) -> Option<u64>
    requires { memory.page_size_log2 ≤ 16 }
    ensures some { IfSome result (λ n. n ≡ size_of (image_memory memory)) }
    ensures none { IfNone result (2 ^ 64 ≤ size_of (image_memory memory)) }
{
    memory.limits.min.checked_mul(page_size(memory))
}

/// The placement of a segment that is in a defined memory, has a constant offset of its index type,
/// and ends within the memory's minimum size.
pub(crate) fn segment_place(
    imported: usize,
    defined: &[Memory],
    segment: &MemoryInitializer<'_>,
) -> Option<u64>
    requires { All (λ m. m.page_size_log2 ≤ 16) defined.now }
    ensures some { IfSome result (λ place. IsPlaced imported (map image_memory defined.now) (active_segment_of segment.now)
        × (start_of (active_segment_of segment.now) ≡ place)) }
    ensures none { IfNone result (IsPlaced imported (map image_memory defined.now) (active_segment_of segment.now) → ⊥) }
{
    let number = segment.memory_index.index().checked_sub(imported)?;
    let memory = *defined.get(number)?;
    let place = index(memory.idx_type, segment.offset.const_eval()?)?;
    let size = minimum_bytes(memory)?;
    let end = place.checked_add(segment.bytes.len() as u64)?;
    if end <= size { Some(place) } else { None }
}
