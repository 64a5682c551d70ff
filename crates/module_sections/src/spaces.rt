//! Tables, memories and globals of a translated module, by the types that were read.

ghost use Rattle.std.specs.Prelude.{◌≡◌, ◌<◌, All, length, map, IfOk};
ghost use Rattle.std.specs.List.{list_any};
ghost use Rattle.wasm_types.specs.Collected.{heap_is_collected};
ghost use Rattle.wasm_types.specs.EntityData.{global_edges, table_edges, map_global, map_table};
ghost use Rattle.wasm_types.specs.EntityViews.{global_of, table_of};
ghost use Rattle.wasm_types.specs.Memories.{memory_of, HasPageSize};
ghost use Rattle.wasm_convert.specs.Conversion.{global_type_of, table_type_of};
ghost use Rattle.wasm_convert.specs.Known.{Known};

use entity_map::{OutOfMemory, PrimaryMap};
use std::alloc::Global as Heap;
use wasm_convert::TypeConvert;
use wasm_index::{GlobalIndex, MemoryIndex, TableIndex};
use wasm_spec::{GlobalType, MemoryType, TableType};
use wasm_types::{
    EngineOrModuleTypeIndex, Global, Memory, Table, WasmHeapType, WasmRefType, WasmValType,
};

pub(crate) fn convert_tables(
    alloc: Heap,
    env: &dyn TypeConvert,
    types: &[TableType],
) -> Result<PrimaryMap<TableIndex, Table>, OutOfMemory>
    requires known { All (λ t. Known (knows env.now) (table_edges (λ i. i) (table_type_of t))) types.now }
    requires few { length types.now < u32.MAX }
    ensures { IfOk result (λ tables. map table_of tables ≡ map (λ t. map_table (look_up env.now) (table_type_of t)) types.now) }
{
    // The borrow checker wants the types on the way to an index by name.
    let _named: Option<(WasmRefType, WasmHeapType, EngineOrModuleTypeIndex)> = None;
    let mut tables = PrimaryMap::with_capacity(alloc, types.len())?;
    for ty in types {
        tables.push(env.convert_table_type(ty))?;
    }
    Ok(tables)
}

pub(crate) fn convert_memories(
    alloc: Heap,
    types: &[MemoryType],
) -> Result<PrimaryMap<MemoryIndex, Memory>, OutOfMemory>
    requires pages { All HasPageSize types.now }
    requires few { length types.now < u32.MAX }
    ensures { IfOk result (λ memories. memories ≡ map memory_of types.now) }
{
    let mut memories = PrimaryMap::with_capacity(alloc, types.len())?;
    for ty in types {
        memories.push(Memory::from(*ty))?;
    }
    Ok(memories)
}

pub(crate) fn convert_globals(
    alloc: Heap,
    env: &dyn TypeConvert,
    types: &[GlobalType],
) -> Result<PrimaryMap<GlobalIndex, Global>, OutOfMemory>
    requires known { All (λ t. Known (knows env.now) (global_edges (λ i. i) (global_type_of t))) types.now }
    requires few { length types.now < u32.MAX }
    ensures { IfOk result (λ globals. map global_of globals ≡ map (λ t. map_global (look_up env.now) (global_type_of t)) types.now) }
{
    // The borrow checker wants the types on the way to an index by name.
    let _named: Option<
        (
            WasmValType,
            WasmRefType,
            WasmHeapType,
            EngineOrModuleTypeIndex,
        ),
    > = None;
    let mut globals = PrimaryMap::with_capacity(alloc, types.len())?;
    for ty in types {
        globals.push(env.convert_global_type(ty))?;
    }
    Ok(globals)
}

/// Whether a table holds references that are collected.
pub(crate) fn hold_collected(tables: &[Table]) -> bool
    ensures { result ≡ list_any (λ table. heap_is_collected table.ref_type.heap_type) tables.now }
{
    tables.iter().any(|table| table.ref_type.is_vmgcref_type())
}
