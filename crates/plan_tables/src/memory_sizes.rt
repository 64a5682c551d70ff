//! Sizes of memories in bytes.

ghost use Rattle.std.specs.Prelude.{◌≡◌, ◌*◌, ◌^◌};
ghost use Rattle.wasm_types.specs.Memories.{minimum_bytes};
ghost use Rattle.wasm_types.specs.Sizes.{addressed_bytes, maximum_bytes};
ghost use Rattle.plan_tables.specs.Numbers.{at_most_64_bits};

use wasm_types::{IndexType, Memory};

// Pages in bytes, where an exponent of 2 is the size of a page.
fn pages_in_bytes(pages: u64, log2: u8) -> u64
    ensures { result ≡ at_most_64_bits (pages * 2 ^ log2) }
{
    if log2 < 64 {
        pages.saturating_mul(1 << log2)
    } else if pages == 0 {
        0
    } else {
        u64::MAX
    }
}

// The bytes that addresses reach, in whole pages where they have 64 bits.
fn reached_bytes(ty: IndexType, log2: u8) -> u64
    ensures { result ≡ addressed_bytes ty (2 ^ log2) }
{
    match ty {
        IndexType::I32 => 1 << 32,
        IndexType::I64 if log2 < 64 => u64::MAX - ((1 << log2) - 1),
        IndexType::I64 => 0,
    }
}

/// The least size.
pub(crate) fn minimum_in_bytes(memory: &Memory) -> u64
    ensures { result ≡ at_most_64_bits (minimum_bytes memory.now) }
{
    pages_in_bytes(memory.limits.min, memory.page_size_log2)
}

/// The greatest size.
pub(crate) fn maximum_in_bytes(memory: &Memory) -> u64
    ensures { result ≡ at_most_64_bits (maximum_bytes memory.now) }
{
    match memory.limits.max {
        Some(max) => pages_in_bytes(max, memory.page_size_log2),
        None => minimum_in_bytes(memory).max(reached_bytes(memory.idx_type, memory.page_size_log2)),
    }
}
