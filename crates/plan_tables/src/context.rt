//! The layout of a context as tables.

ghost use Rattle.std.specs.Prelude.{◌≡◌, ◌^◌, ◌-◌, map, IfOk, IsTrue, IsFalse, codes};
ghost use Rattle.vm_offsets.specs.Layouts.{fields_of, pointer_of, size_of_context};
ghost use Rattle.vm_offsets.specs.Regions.{context_regions};
ghost use Rattle.plan_tables.specs.Context.{TellsContext, BeginsAt, region_told, placed_back};

use crate::record::RegionRow;
use crate::rows::Context;
use entity_map::OutOfMemory;
use std::alloc::Global;
use vm_offsets::VMOffsets;

/// Where the parts of a context begin, and its size.
pub(crate) fn context_row(offsets: &VMOffsets<u8>) -> Context
    ensures { TellsContext offsets.now result }
{
    Context {
        size: offsets.size_of_vmctx(),
        imported_memories: offsets.imported_memories().begin(),
        memories: offsets.memories().begin(),
        owned_memories: offsets.owned_memories().begin(),
        imported_functions: offsets.imported_functions().begin(),
        imported_tables: offsets.imported_tables().begin(),
        imported_globals: offsets.imported_globals().begin(),
        imported_tags: offsets.imported_tags().begin(),
        tables: offsets.tables().begin(),
        globals: offsets.globals().begin(),
        tags: offsets.tags().begin(),
        func_refs: offsets.func_refs().begin(),
        runtime_data_bases: offsets.runtime_data_bases().begin(),
        runtime_data_lengths: offsets.runtime_data_lengths().begin(),
        startup_func_ref: startup_func_ref_of(offsets),
    }
}

// Where the reference to the startup function begins, where there is such a function.
fn startup_func_ref_of(offsets: &VMOffsets<u8>) -> u32
    ensures some { IsTrue (fields_of offsets.now).has_startup_func → BeginsAt offsets.now (codes "startup funcref") result }
    ensures none { IsFalse (fields_of offsets.now).has_startup_func → result ≡ 2 ^ 32 - 1 }
{
    if offsets.has_startup_func() {
        offsets.startup_func_ref()
    } else {
        u32::MAX
    }
}

/// The regions of the context, the last one first.
pub(crate) fn regions_of(
    alloc: Global,
    offsets: &VMOffsets<u8>,
) -> Result<Vec<RegionRow>, OutOfMemory>
    ensures { IfOk result (λ regions. map region_told regions.items
        ≡ placed_back (size_of_context offsets.now) (context_regions (pointer_of offsets.now) (fields_of offsets.now))) }
{
    let mut regions = Vec::new(alloc);
    let mut begin = offsets.size_of_vmctx();
    for (name, size) in offsets.region_sizes() {
        begin = begin.saturating_sub(size);
        regions.push(RegionRow {
            begin,
            size,
            name: name.as_bytes(),
        })?;
    }
    Ok(regions)
}
