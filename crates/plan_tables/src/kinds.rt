//! The types of memories, tables, globals and tags as tables.

ghost use Rattle.std.specs.Prelude.{◌≡◌, map, IfOk};
ghost use Rattle.plan_tables.specs.Kinds.{memory_row, table_row, global_row, tag_row, TellsKinds};

use crate::memory_sizes::{maximum_in_bytes, minimum_in_bytes};
use crate::numbers::{bit, listed_number, wide_bit};
use crate::record::KindsRecord;
use crate::rows::{GlobalRow, MemoryRow, TableRow, TagRow};
use crate::values::{ref_row, value_row};
use entity_map::OutOfMemory;
use std::alloc::Global as Heap;
use wasm_module::Module;
use wasm_types::{Global, Memory, Table, Tag};

/// The tables of memories, tables, globals and tags.
pub(crate) fn kinds_record<'d>(alloc: Heap, module: &Module) -> Result<KindsRecord<'d>, OutOfMemory>
    ensures { IfOk result (TellsKinds «module».now) }
{
    let memories = memories_of(alloc, module.memories.as_slice())?;
    let tables = tables_of(alloc, module.tables.as_slice())?;
    let globals = globals_of(alloc, module.globals.as_slice())?;
    let tags = tags_of(alloc, module.tags.as_slice())?;
    Ok(KindsRecord {
        memories: memories.leak(),
        tables: tables.leak(),
        globals: globals.leak(),
        tags: tags.leak(),
    })
}

fn memory_row(memory: &Memory) -> MemoryRow
    ensures { result ≡ memory_row memory.now }
{
    MemoryRow {
        minimum: memory.limits.min,
        maximum: memory.limits.max.unwrap_or(u64::MAX),
        minimum_bytes: minimum_in_bytes(memory),
        maximum_bytes: maximum_in_bytes(memory),
        page_size_log2: memory.page_size_log2,
        shared: bit(memory.shared),
        wide: wide_bit(memory.idx_type),
        bounded: bit(memory.limits.max.is_some()),
    }
}

fn memories_of(alloc: Heap, memories: &[Memory]) -> Result<Vec<MemoryRow>, OutOfMemory>
    ensures { IfOk result (λ rows. rows.items ≡ map memory_row memories.now) }
{
    let mut rows = Vec::with_capacity(alloc, memories.len())?;
    for memory in memories {
        rows.push(memory_row(memory))?;
    }
    Ok(rows)
}

fn table_row(table: &Table) -> TableRow
    ensures { result ≡ table_row table.now }
{
    TableRow {
        minimum: table.limits.min,
        maximum: table.limits.max.unwrap_or(u64::MAX),
        element: ref_row(table.ref_type),
        wide: u32::from(wide_bit(table.idx_type)),
        bounded: u32::from(bit(table.limits.max.is_some())),
    }
}

fn tables_of(alloc: Heap, tables: &[Table]) -> Result<Vec<TableRow>, OutOfMemory>
    ensures { IfOk result (λ rows. rows.items ≡ map table_row tables.now) }
{
    let mut rows = Vec::with_capacity(alloc, tables.len())?;
    for table in tables {
        rows.push(table_row(table))?;
    }
    Ok(rows)
}

fn global_row(global: &Global) -> GlobalRow
    ensures { result ≡ global_row global.now }
{
    GlobalRow {
        value: value_row(global.wasm_ty),
        writable: u32::from(bit(global.mutability)),
    }
}

fn globals_of(alloc: Heap, globals: &[Global]) -> Result<Vec<GlobalRow>, OutOfMemory>
    ensures { IfOk result (λ rows. rows.items ≡ map global_row globals.now) }
{
    let mut rows = Vec::with_capacity(alloc, globals.len())?;
    for global in globals {
        rows.push(global_row(global))?;
    }
    Ok(rows)
}

fn tag_row(tag: &Tag) -> TagRow
    ensures { result ≡ tag_row tag.now }
{
    TagRow {
        signature: listed_number(tag.signature),
        exception: listed_number(tag.exception),
    }
}

fn tags_of(alloc: Heap, tags: &[Tag]) -> Result<Vec<TagRow>, OutOfMemory>
    ensures { IfOk result (λ rows. rows.items ≡ map tag_row tags.now) }
{
    let mut rows = Vec::with_capacity(alloc, tags.len())?;
    for tag in tags {
        rows.push(tag_row(tag))?;
    }
    Ok(rows)
}
