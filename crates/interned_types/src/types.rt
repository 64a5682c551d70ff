//! The types of a module, interned.

ghost use Rattle.std.specs.Prelude.{◌≡◌, ◌<◌, ◌^◌, ℕ, false, length, map, IfOk, OnOk, OnErr, Err};
ghost use Rattle.wasm_spec.specs.Module.{Module};
ghost use Rattle.type_spec.specs.Interned.{taken};
ghost use Rattle.form_types.specs.Placed.{placed_groups};
ghost use Rattle.module_types.specs.Builder.{builder_view, new_builder};
ghost use Rattle.interned_types.specs.Environment.{AreHeld};
ghost use Rattle.interned_types.specs.OnTheWay.{after_types};
ghost use Rattle.interned_types.specs.Types.{declared, type_index, AreTypesOf, HoldsGroupsAlone};

use entity_map::PrimaryMap;
use form_types::Types;
use module_types::{BuildError, ModuleTypesBuilder};
use std::alloc::Global;
use wasm_index::TypeIndex;
use wasm_types::EngineOrModuleTypeIndex;

/// Interns the groups of a module's declared types in order, with a new builder, and gives the
/// interned index of each declared type.
pub fn intern_types(
    alloc: Global,
    types: &Types,
    builder: &mut ModuleTypesBuilder,
) -> Result<PrimaryMap<TypeIndex, EngineOrModuleTypeIndex>, BuildError>
    requires of_module { (m : Module) × AreTypesOf m types.now }
    requires new { builder_view builder.old ≡ new_builder types.now.validator }
    ensures indices { IfOk result (λ indices. (m : Module) → AreTypesOf m types.now → indices ≡ map type_index (declared m)) }
    ensures built { OnOk result ((m : Module) → AreTypesOf m types.now → (builder_view builder.new).built ≡ (taken (placed_groups m)).built) }
    // Each index is that of a type that the builder holds, and there is capacity for more.
    ensures held { IfOk result (λ indices. AreHeld indices (length builder.new.list.types)) }
    ensures few { OnOk result (length builder.new.list.types < 2 ^ 31) }
    ensures alone { OnOk result (HoldsGroupsAlone types.now.validator (builder_view builder.new)) }
    ensures whole { OnOk result (builder_view builder.new ≡ after_types types.now (length types.now.declared)) }
    ensures memory { OnErr result (result ≡ Err BuildError.OutOfMemory) }
    // Without memory it is poisoned, or it has interned the types before.
    ensures stops { OnErr result (builder.new.is_poisoned ≡ false → (count : ℕ) × (builder_view builder.new ≡ after_types types.now count)) }
{
    let count = types.core_type_count_in_module();
    let mut indices = PrimaryMap::with_capacity(alloc, count as usize)?;
    for place in 0..count {
        let id = types.core_type_at_in_module(place);
        let index = builder.intern_type(types, id)?;
        indices.push(EngineOrModuleTypeIndex::Module(index))?;
    }
    Ok(indices)
}
