//! The types of the modules of a program.

ghost use Rattle.std.specs.Prelude.{◌≡◌, ◌≤◌, ℕ, length, map, slice_get, All, IfOk, IfSome};
ghost use Rattle.module_types.specs.Listed.{Listed};
ghost use Rattle.wasm_index.specs.Index.{number_of};
ghost use Rattle.type_registry.specs.Keys.{key_number};
ghost use Rattle.type_registry.specs.Registry.{registry_of, empty, index_at};
ghost use Rattle.plan_link.specs.Program.{IsCrowded, count_types, capacity};
ghost use Rattle.plan_link.specs.Members.{IsLinkableModule, AreHeld};

use crate::program::ProgramModule;
use crate::registering::register;
use entity_map::{EntityRef, OutOfMemory};
use std::alloc::Global;
use type_registry::{ModuleKey, TypeRegistry};
use wasm_index::{ModuleInternedTypeIndex, VMSharedTypeIndex};

/// The most types that a registry may hold.
pub(crate) const MOST_TYPES: u32 = u32::MAX - 1;

/// The position of the module with which the program has more types than a registry may hold.
pub(crate) fn crowded_at(modules: &[ProgramModule<'_, '_>]) -> Option<usize>
    ensures fits { result ≡ None → count_types modules.now ≤ capacity }
    ensures crowded { IfSome result (IsCrowded modules.now) }
{
    let mut left = MOST_TYPES as usize;
    for (place, module) in modules.iter().enumerate() {
        let count = module.plan.types.len_types();
        if left < count {
            return Some(place);
        }
        left -= count;
    }
    None
}

/// Holds the types of each module in an empty registry that has capacity for them. The keys are in
/// the order of the modules.
pub(crate) fn register_all(
    alloc: Global,
    registry: &mut TypeRegistry,
    modules: &[ProgramModule<'_, '_>],
) -> Result<Vec<ModuleKey>, OutOfMemory>
    requires empty { registry_of registry.old ≡ empty capacity }
    requires linkable { All IsLinkableModule modules.now }
    requires fits { count_types modules.now ≤ capacity }
    ensures { IfOk result (λ keys. AreHeld registry.new modules.now keys.items) }
{
    let mut keys = Vec::with_capacity(alloc, modules.len())?;
    for module in modules {
        keys.push(register(registry, &module.plan.types)?)?;
    }
    Ok(keys)
}

/// The registry's index of each type of the module that is held under a key, in order: none where
/// no module is.
pub(crate) fn indices_of(
    alloc: Global,
    registry: &TypeRegistry,
    key: ModuleKey,
) -> Result<Vec<VMSharedTypeIndex>, OutOfMemory>
    ensures { IfOk result (λ indices. (i : ℕ)
        → slice_get (map number_of indices.items) i ≡ index_at (registry_of registry.now) (key_number key) i) }
{
    let count = registry.type_count(key).unwrap_or(0);
    let mut indices = Vec::with_capacity(alloc, count as usize)?;
    for place in 0..count {
        if let Some(index) = registry.index_of(key, ModuleInternedTypeIndex::from_u32(place)) {
            indices.push(index)?;
        }
    }
    Ok(indices)
}
