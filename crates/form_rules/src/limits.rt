//! Limits of memories and tables (core specification, 3.2, limits and memory types).

ghost use Rattle.std.specs.Prelude.{◌≡◌, ◌↔◌, ◌*◌, ◌^◌, ◌≤◌, All, IsTrue};
ghost use Rattle.rule_spec.specs.Limits.{HasLimits, IsOrdered, address_space};
ghost use Rattle.rule_spec.specs.Rules.{HaveLimits};
ghost use Rattle.form_rules.specs.Views.{lists_of};

use crate::Lists;
use wasm_spec::{MemoryType, TableType};

/// The page size of a memory type that names none, as an exponent of 2.
const DEFAULT_PAGE_SIZE_LOG2: u32 = 16;

/// How many bytes 32-bit addresses reach.
const ADDRESS_SPACE_32: u128 = 1 << 32;

/// How many bytes 64-bit addresses reach.
const ADDRESS_SPACE_64: u128 = 1 << 64;

/// Whether the limits of each table and of each memory hold.
pub fn limits_hold(lists: &Lists<'_, '_>) -> bool
    ensures { IsTrue result ↔ HaveLimits (lists_of lists.now) }
{
    tables_hold(&lists.spaces.table_types) && memories_hold(&lists.spaces.memories)
}

fn tables_hold(tables: &[TableType]) -> bool
    ensures { IsTrue result ↔ All IsOrdered tables.now }
{
    tables.iter().all(is_ordered)
}

/// Whether the maximum of a table, if any, is at least the minimum.
pub fn is_ordered(table: &TableType) -> bool
    ensures { IsTrue result ↔ IsOrdered table.now }
{
    match table.maximum {
        None => true,
        Some(maximum) => table.initial <= maximum,
    }
}

fn memories_hold(memories: &[MemoryType]) -> bool
    ensures { IsTrue result ↔ All HasLimits memories.now }
{
    memories.iter().all(has_limits)
}

/// Whether the limits and the page size of a memory hold.
pub fn has_limits(memory: &MemoryType) -> bool
    ensures { IsTrue result ↔ HasLimits memory.now }
{
    let log2 = memory.page_size_log2.unwrap_or(DEFAULT_PAGE_SIZE_LOG2);
    // A page has one byte or 65536.
    if log2 != 0 && log2 != DEFAULT_PAGE_SIZE_LOG2 {
        return false;
    }
    match memory.maximum {
        None => !memory.shared && is_addressable(memory, memory.initial, log2),
        // It reaches the minimum too, which is not above it.
        Some(maximum) => memory.initial <= maximum && is_addressable(memory, maximum, log2),
    }
}

/// Whether addresses of the memory reach the last byte of `pages` pages, each of 2^`log2` bytes.
fn is_addressable(memory: &MemoryType, pages: u64, log2: u32) -> bool
    requires { log2 ≤ 16 }
    ensures { IsTrue result ↔ (pages * 2 ^ log2 ≤ address_space memory.now) }
{
    let address_space = if memory.memory64 {
        ADDRESS_SPACE_64
    } else {
        ADDRESS_SPACE_32
    };
    u128::from(pages) << log2 <= address_space
}
