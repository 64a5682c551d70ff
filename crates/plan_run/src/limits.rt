//! How large defined memories and tables may be.

ghost use Rattle.std.specs.Prelude.{◌≡◌, ◌↔◌, ◌≤◌, ◌<◌, ◌^◌, length, map, drop, sum_by, All, IsTrue};
ghost use Rattle.std.specs.List.{sum};
ghost use Rattle.wasm_types.specs.Memories.{minimum_bytes};
ghost use Rattle.wasm_types.specs.Sizes.{HasFormatPages};
ghost use Rattle.paged_memory.specs.Memory.{page_count};
ghost use Rattle.plan_run.specs.Limits.{page_size_of, most_bytes, most_pages, most_cells, IsTooLarge};

use init_plan::ModuleTranslation;
use wasm_types::{Memory, Table};

/// How many bytes the defined memories may hold together.
pub const MOST_BYTES: u128 = 268435456;
/// How many pages the defined memories may have together.
pub const MOST_PAGES: u128 = 1048576;
/// How many cells the defined tables may have together.
pub const MOST_CELLS: u64 = 4194304;

/// The size of a page of a defined memory, in bytes.
pub(crate) fn page_size(translation: &ModuleTranslation<'_>) -> u64
    ensures { result ≡ page_size_of translation.now }
{
    translation.data_align.unwrap_or(4096)
}

/// The minimum size of a memory, in bytes.
pub(crate) fn minimum_size(memory: &Memory) -> u128
    requires { HasFormatPages memory.now }
    ensures size { result ≡ minimum_bytes memory.now }
    ensures below { result < 2 ^ 80 }
{
    u128::from(memory.limits.min) * u128::from(memory.page_size())
}

/// Whether the memories hold more bytes than they may.
fn have_too_many_bytes(memories: &[Memory]) -> bool
    requires { All HasFormatPages memories.now }
    ensures { IsTrue result ↔ (most_bytes < sum_by minimum_bytes memories.now) }
{
    let mut left = MOST_BYTES;
    for memory in memories {
        let size = minimum_size(memory);
        if left < size {
            return true;
        }
        left -= size;
    }
    false
}

/// How many pages of so many bytes hold a memory's minimum size.
fn minimum_pages(memory: &Memory, page: u64) -> u128
    requires log2 { HasFormatPages memory.now }
    requires page { 0 < page }
    ensures { result ≡ page_count page (minimum_bytes memory.now) }
{
    (minimum_size(memory) + u128::from(page - 1)) / u128::from(page)
}

/// Whether the memories have more pages than they may, of so many bytes each.
fn have_too_many_pages(memories: &[Memory], page: u64) -> bool
    requires sizes { All HasFormatPages memories.now }
    requires page { 0 < page }
    ensures { IsTrue result ↔ (most_pages < sum_by (λ m. page_count page (minimum_bytes m)) memories.now) }
{
    let mut left = MOST_PAGES;
    for memory in memories {
        let pages = minimum_pages(memory, page);
        if left < pages {
            return true;
        }
        left -= pages;
    }
    false
}

/// Whether the tables have more cells than they may.
fn have_too_many_cells(tables: &[Table]) -> bool
    ensures { IsTrue result ↔ (most_cells < sum_by (λ table. table.limits.min) tables.now) }
{
    let mut left = MOST_CELLS;
    for table in tables {
        if left < table.limits.min {
            return true;
        }
        left -= table.limits.min;
    }
    false
}

/// Whether the defined memories or tables are larger than they may be.
pub(crate) fn is_too_large(translation: &ModuleTranslation<'_>) -> bool
    requires memories { translation.now.module.num_imported_memories ≤ length translation.now.module.memories }
    requires tables { translation.now.module.num_imported_tables ≤ length translation.now.module.tables }
    requires sizes { All HasFormatPages translation.now.module.memories }
    requires page { 0 < page_size_of translation.now }
    ensures { IsTrue result ↔ IsTooLarge translation.now }
{
    let module = &translation.module;
    let (_, memories) = module
        .memories
        .as_slice()
        .split_at(module.num_imported_memories);
    let (_, tables) = module
        .tables
        .as_slice()
        .split_at(module.num_imported_tables);
    if have_too_many_bytes(memories) {
        return true;
    }
    if have_too_many_pages(memories, page_size(translation)) {
        return true;
    }
    have_too_many_cells(tables)
}
