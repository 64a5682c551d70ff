//! The layout of a translated module's context.

ghost use Rattle.std.specs.Prelude.{◌≡◌, ◌<◌, ◌≤◌, ◌-◌, ◌↔◌, IfOk, IsErr, length, not, count_by};
ghost use Rattle.vm_structs.specs.Fields.{IsPointerSize};
ghost use Rattle.wasm_module.specs.Record.{record_of};
ghost use Rattle.vm_offsets.specs.Context.{context_size};
ghost use Rattle.vm_offsets.specs.Layouts.{fields_of};
ghost use Rattle.vm_offsets.specs.Modules.{HoldsImports, module_counts};

use crate::fields::VMOffsetsFields;
use crate::offsets::VMOffsets;
use crate::overflow::OffsetOverflow;
use entity_map::{EntityRef, PrimaryMap};
use vm_structs::PtrSize;
use wasm_module::Module;
use wasm_types::Memory;

// How many of a space are imported, and how many are defined.
fn split<K, V>(space: &PrimaryMap<K, V>, imported: usize) -> (u32, u32)
where
    K: EntityRef,
    requires { imported ≤ length space.now }
    ensures imported { result.0 ≡ imported }
    ensures defined { result.1 ≡ length space.now - imported }
{
    let all = space.len();
    (imported as u32, (all - imported) as u32)
}

// How many memories are not shared.
fn owned_among(memories: &[Memory]) -> usize
    ensures count { result ≡ count_by (λ memory. not memory.shared) memories.now }
    ensures within { result ≤ length memories.now }
{
    memories.iter().filter(|memory| !memory.shared).count()
}

impl<P: PtrSize + Drop> VMOffsets<P> {
    /// The layout of the context of a translated module, whose index spaces hold what is imported
    /// into them. The size of pointers is 4 or 8.
    ///
    /// # Errors
    /// `OffsetOverflow` exactly where the size is past `u32::MAX`.
    pub fn new(ptr: P, module: &Module) -> Result<Self, OffsetOverflow>
        requires pointer { IsPointerSize (P.pointer_size ptr) }
        requires imports { HoldsImports (record_of «module».now) }
        requires escapes { «module».now.num_escaped_funcs ≤ u32.MAX }
        ensures ok { IfOk result (λ offsets. fields_of offsets ≡ module_counts ptr (record_of «module».now)) }
        ensures overflow { IsErr result ↔ (u32.MAX < context_size (P.pointer_size ptr) (module_counts ptr (record_of «module».now))) }
    {
        let (num_imported_functions, _) = split(&module.functions, module.num_imported_funcs);
        let (num_imported_tables, num_defined_tables) = split(
            &module.tables,
            module.num_imported_tables,
        );
        let (num_imported_memories, num_defined_memories) = split(
            &module.memories,
            module.num_imported_memories,
        );
        let (num_imported_globals, num_defined_globals) = split(
            &module.globals,
            module.num_imported_globals,
        );
        let (num_imported_tags, num_defined_tags) = split(&module.tags, module.num_imported_tags);
        let memories = module.memories.as_slice();
        VMOffsets::try_from_fields(VMOffsetsFields {
            ptr,
            num_imported_functions,
            num_imported_tables,
            num_imported_memories,
            num_imported_globals,
            num_imported_tags,
            num_defined_tables,
            num_defined_memories,
            num_owned_memories: owned_among(&memories[module.num_imported_memories..]) as u32,
            num_defined_globals,
            num_defined_tags,
            num_escaped_funcs: module.num_escaped_funcs as u32,
            num_runtime_data: module.runtime_data.len() as u32,
            has_startup_func: !module.startup.is_none(),
        })
    }
}
