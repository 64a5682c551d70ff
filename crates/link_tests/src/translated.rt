//! Modules that are translated, and whose types are registered.

ghost use Rattle.std.specs.Prelude.{◌≡◌, ◌<◌, false, ℕ, Some, length, IfOk, OnOk};
ghost use Rattle.module_types.specs.Builder.{builder_view, new_builder};
ghost use Rattle.type_registry.specs.Registry.{registry_of, count_of};
ghost use Rattle.type_registry.specs.Keys.{key_number};
ghost use Rattle.module_types.specs.Listed.{Listed};
ghost use Rattle.plan_link.specs.Linkable.{IsLinkable};
ghost use Rattle.link_tests.specs.Growing.{MayGrow};

use entity_map::EntityRef;
use form_types::Validator;
use init_plan::ModuleTranslation;
use module_environ::{EnvironError, ModuleEnvironment};
use module_types::{ModuleTypes, ModuleTypesBuilder};
use plan_link::translated_can_link;
use std::alloc::Global;
use translate::Command;
use type_registry::{ModuleKey, RegistryError, TypeRegistry, registered_law, sound_law};
use wasm_index::StaticModuleIndex;

// The translation of the module that the bytes spell. The builder holds its types.
fn translation_of<'d>(
    alloc: Global,
    validator: &Validator,
    types: &mut ModuleTypesBuilder,
    bytes: &'d [u8],
) -> Result<ModuleTranslation<'d>, EnvironError>
    requires { builder_view types.old ≡ new_builder validator.now }
    ensures linkable { IfOk result (λ t. IsLinkable t.module types.new.list) }
    ensures sound { OnOk result (types.new.is_poisoned ≡ false) }
{
    translated_can_link();
    let index = StaticModuleIndex::from_u32(0);
    let tunables = &Command::PLAIN.tunables;
    let environment = ModuleEnvironment::new(alloc, tunables, validator, types, index)?;
    let translation = environment.translate(alloc, bytes)?;
    Ok(translation)
}

/// The translation of the module that the bytes spell, and its types.
pub(crate) fn translated<'d>(
    alloc: Global,
    bytes: &'d [u8],
) -> Result<(ModuleTranslation<'d>, ModuleTypes), EnvironError>
    ensures { IfOk result (λ both. IsLinkable both.0.module both.1) }
{
    let validator = Validator::new(0);
    let mut types = ModuleTypesBuilder::new(alloc, &validator);
    let translation = translation_of(alloc, &validator, &mut types, bytes)?;
    Ok((translation, types.finish()))
}

/// A registry that holds nothing.
pub(crate) fn new_registry(alloc: Global) -> TypeRegistry
    ensures { MayGrow (registry_of result) }
{
    sound_law();
    TypeRegistry::new(alloc, 10)
}

/// Holds a module of these types. Its list has the same length, and the lists of others are
/// unchanged.
pub(crate) fn register(
    registry: &mut TypeRegistry,
    types: &ModuleTypes,
) -> Result<ModuleKey, RegistryError>
    requires listed { Listed types.now }
    requires few { length types.now.types < 4294967295 }
    requires may { MayGrow (registry_of registry.old) }
    ensures may { OnOk result (MayGrow (registry_of registry.new)) }
    ensures itself { IfOk result (λ key. count_of (registry_of registry.new) (key_number key) ≡ Some (length types.now.types)) }
    ensures others { OnOk result ((key count : ℕ) → count_of (registry_of registry.old) key ≡ Some count → count_of (registry_of registry.new) key ≡ Some count) }
{
    sound_law();
    registered_law();
    let key = registry.register(types)?;
    Ok(key)
}
