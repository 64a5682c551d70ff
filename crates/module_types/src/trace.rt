//! Visits of the type indices in a list of interned types.

ghost use Rattle.std.specs.Prelude.{◌≡◌, map, length};
ghost use Rattle.std.specs.List.{flat_map};
ghost use Rattle.wasm_spec.specs.TypeData.{sub_type_edges};
ghost use Rattle.type_spec.specs.Names.{Named, by_name, frame, index_of};
ghost use Rattle.type_spec.specs.TypeShapes.{group_shape};
ghost use Rattle.wasm_types.specs.TypeViews.{group_of};
ghost use Rattle.wasm_types.specs.ViewsTell.{tells};
ghost use Rattle.wasm_trace.specs.Runs.{RunMut, MayRunMut};
ghost use Rattle.module_types.specs.TypeListShape.{TypeListData, type_list_shape, type_list_back, data_of};

use crate::list::ModuleTypes;
use entity_map::PrimaryMap;
use wasm_index::ModuleInternedTypeIndex;
use wasm_trace::{TypeTrace, trace_all, trace_all_mut};
use wasm_types::{EngineOrModuleTypeIndex, WasmSubType};

// Visits each edge of the types, for writing.
fn trace_types_mut<F, E>(
    types: &mut PrimaryMap<ModuleInternedTypeIndex, WasmSubType>,
    func: &mut F,
) -> Result<(), E>
where
    F: FnMut(&mut EngineOrModuleTypeIndex) -> Result<(), E>,
    requires { MayRunMut F.FnMut func.old ((by_name group_shape).edges (group_of types.old)) }
    ensures count { length types.new ≡ length types.old }
    ensures kept { frame (by_name group_shape) (group_of types.new) ≡ frame (by_name group_shape) (group_of types.old) }
    ensures run { RunMut F.FnMut func.old ((by_name group_shape).edges (group_of types.old)) result func.new ((by_name group_shape).edges (group_of types.new)) }
{
    trace_all_mut(types.as_mut_slice(), func)
}

/// The edges of the types, in order. The groups and the trampolines have none.
impl TypeTrace for ModuleTypes {
    ghost Data = { λ R. TypeListData (Named R) R };

    ghost shape = { by_name type_list_shape };

    ghost view = { data_of };

    fn trace<F, E>(&self, func: &mut F) -> Result<(), E>
    where
        F: FnMut(EngineOrModuleTypeIndex) -> Result<(), E>,
    {
        trace_all(self.wasm_types.as_slice(), func)
    }

    fn trace_mut<F, E>(&mut self, func: &mut F) -> Result<(), E>
    where
        F: FnMut(&mut EngineOrModuleTypeIndex) -> Result<(), E>,
    {
        trace_types_mut(&mut self.wasm_types, func)
    }

    ghost injective = { tells type_list_back };
}
