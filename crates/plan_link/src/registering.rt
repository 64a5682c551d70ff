//! The types of one more module in a registry that has capacity for them.

ghost use Rattle.std.specs.Prelude.{◌≡◌, ◌≤◌, ◌+◌, ℕ, length, IfOk, OnOk};
ghost use Rattle.type_registry.specs.declared.error.RegistryError.{RegistryError};
ghost use Rattle.type_registry.specs.declared.error.RegistryError.TheVariants as refused;
ghost use Rattle.type_registry.specs.Keys.{key_number};
ghost use Rattle.type_registry.specs.Registry.{registry_of, live};
ghost use Rattle.module_types.specs.Listed.{Listed};
ghost use Rattle.type_registry.specs.Standing.{Stands};
ghost use Rattle.module_types.specs.TypeList.{TypeList};
ghost use Rattle.plan_link.specs.Registering.{HasRoom};

use entity_map::OutOfMemory;
use module_types::ModuleTypes;
use type_registry::{ModuleKey, RegistryError, TypeRegistry};

/// Holds a module of these types. As there is capacity, only memory can be lacking.
pub(crate) fn register(
    registry: &mut TypeRegistry,
    types: &ModuleTypes,
) -> Result<ModuleKey, OutOfMemory>
    requires listed { Listed types.now }
    requires room { HasRoom (registry_of registry.old) (length types.now.types) }
    ensures stands { IfOk result (λ key. Stands (registry_of registry.new) (key_number key) types.now) }
    ensures others { (k : ℕ) (list : TypeList) → Stands (registry_of registry.old) k list → Stands (registry_of registry.new) k list }
    ensures live { OnOk result (length (live (registry_of registry.new)) ≤ length (live (registry_of registry.old)) + length types.now.types) }
    ensures most { OnOk result ((registry_of registry.new).max_types ≡ (registry_of registry.old).max_types) }
    ensures keys { OnOk result ((registry_of registry.new).registrations ≡ (registry_of registry.old).registrations + 1) }
{
    match registry.register(types) {
        Ok(key) => Ok(key),
        Err(refusal) => Err(memory(refusal)),
    }
}

// The one refusal that is possible.
fn memory(_refusal: RegistryError) -> OutOfMemory
    requires { _refusal ≡ refused.OutOfMemory }
{
    OutOfMemory
}
