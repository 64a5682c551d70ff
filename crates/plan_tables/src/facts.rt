//! What is given as one number each.

ghost use Rattle.std.specs.Prelude.{◌≡◌};
ghost use Rattle.vm_offsets.specs.Layouts.{pointer_of};
ghost use Rattle.plan_tables.specs.Facts.{startup_row, start_number, images_bit, facts_row, entities_row};

use crate::numbers::{bit, listed_number};
use crate::rows::{Entities, Facts};
use entity_map::EntityRef;
use init_plan::ModuleTranslation;
use module_types::ModuleTypes;
use vm_offsets::VMOffsets;
use wasm_index::FuncIndex;
use wasm_module::{MemoryInitialization, Module, ModuleStartup};

/// How many entities there are.
pub(crate) fn entities_row(module: &Module) -> Entities
    ensures { result ≡ entities_row «module».now }
{
    Entities {
        functions: module.functions.len() as u64,
        imported_functions: module.num_imported_funcs as u64,
        tables: module.tables.len() as u64,
        imported_tables: module.num_imported_tables as u64,
        memories: module.memories.len() as u64,
        imported_memories: module.num_imported_memories as u64,
        globals: module.globals.len() as u64,
        imported_globals: module.num_imported_globals as u64,
        tags: module.tags.len() as u64,
        imported_tags: module.num_imported_tags as u64,
    }
}

fn startup_row(startup: &ModuleStartup) -> (u32, u32)
    ensures { result ≡ startup_row startup.now }
{
    match startup {
        ModuleStartup::None => (0, 0),
        ModuleStartup::Always(ty) => (1, listed_number(*ty)),
        ModuleStartup::IfMemoriesNeedInit(ty) => (2, listed_number(*ty)),
    }
}

fn images_bit(initialization: &MemoryInitialization) -> u32
    ensures { result ≡ images_bit initialization.now }
{
    match initialization {
        MemoryInitialization::Segmented => 0,
        MemoryInitialization::Static { .. } => 1,
    }
}

fn start_number(function: Option<FuncIndex>) -> u32
    ensures { result ≡ start_number function }
{
    match function {
        None => u32::MAX,
        Some(function) => function.as_u32(),
    }
}

/// The facts of a translation, its types and its context.
pub(crate) fn facts_row(
    translation: &ModuleTranslation<'_>,
    types: &ModuleTypes,
    offsets: &VMOffsets<u8>,
) -> Facts
    ensures { result ≡ facts_row translation.now types.now (pointer_of offsets.now) }
{
    let module = &translation.module;
    let (startup, startup_type) = startup_row(&module.startup);
    Facts {
        startup,
        startup_type,
        images_made: images_bit(&module.memory_initialization),
        types: types.len_types() as u32,
        data_align: translation.data_align.unwrap_or(0),
        start: start_number(translation.start_func),
        needs_gc_heap: u32::from(bit(module.needs_gc_heap)),
        escaped: module.num_escaped_funcs as u64,
        code_section_offset: translation.debuginfo.wasm_file.code_section_offset,
        module_offset: translation.wasm_module_offset,
        has_unparsed_debuginfo: u32::from(bit(translation.has_unparsed_debuginfo)),
        pointer: u32::from(offsets.pointer_size()),
    }
}
