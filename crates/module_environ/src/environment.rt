//! What a module is translated with.

ghost use Rattle.std.specs.Prelude.{◌≡◌, [], false, IfOk, IsOk};
ghost use Rattle.interned_types.specs.Named.{IsNamed, name_in};
ghost use Rattle.module_types.specs.Builder.{builder_view, new_builder};

use entity_map::OutOfMemory;
use form_types::Validator;
use interned_types::{named_heap_type, named_index};
use module_types::ModuleTypesBuilder;
use std::alloc::Global;
use wasm_convert::TypeConvert;
use wasm_index::StaticModuleIndex;
use wasm_spec::UnpackedIndex;
use wasm_types::{EngineOrModuleTypeIndex, Tunables, WasmHeapType};

/// What a module is translated with. It owns no memory, so that it can be passed on as one value.
#[derive(Drop)]
pub struct ModuleEnvironment<'a, 'd> {
    pub(crate) tunables: &'a Tunables,
    pub(crate) validator: &'a Validator,
    pub(crate) types: &'a mut ModuleTypesBuilder,
    pub(crate) module_index: StaticModuleIndex,
    /// What each type of the record is named by: the record has none yet.
    pub(crate) declared: &'d [WasmHeapType],
}

impl<'a, 'd> ModuleEnvironment<'a, 'd> {
    /// An environment with no type yet, for the types of a validator. The builder must be poisoned,
    /// or new for that validator.
    pub fn new(
        alloc: Global,
        tunables: &'a Tunables,
        validator: &'a Validator,
        types: &'a mut ModuleTypesBuilder,
        module_index: StaticModuleIndex,
    ) -> Result<Self, OutOfMemory>
        requires empty { types.old.is_poisoned ≡ false → builder_view types.old ≡ new_builder validator.now }
        ensures made { IsOk result }
        ensures index { IfOk result (λ e. e.module_index ≡ module_index) }
        ensures tunables { IfOk result (λ e. e.tunables ≡ tunables.entry) }
        ensures validator { IfOk result (λ e. e.validator ≡ validator.entry) }
        ensures declared { IfOk result (λ e. e.declared.now ≡ []) }
        ensures types { IfOk result (λ e. e.types.now ≡ types.old) }
        ensures same_types { IfOk result (λ e. e.types.ghost_name ≡ types.entry.ghost_name) }
    {
        let _ = alloc;
        Ok(ModuleEnvironment {
            tunables,
            validator,
            types,
            module_index,
            declared: &[],
        })
    }
}

/// An environment knows the types of its record by their indices, and no type by its id. A new one
/// knows none.
impl TypeConvert for ModuleEnvironment<'_, '_> {
    ghost knows = { λ e i. IsNamed e.declared.now i };

    ghost look_up = { λ e i. name_in e.declared.now i };

    fn lookup_heap_type(&self, index: UnpackedIndex) -> WasmHeapType {
        named_heap_type(self.declared, index)
    }

    fn lookup_type_index(&self, index: UnpackedIndex) -> EngineOrModuleTypeIndex {
        named_index(self.declared, index)
    }
}
