//! Types of a held module as the engine's.

ghost use Rattle.std.specs.Prelude.{◌≡◌, All, IsSome};
ghost use Rattle.wasm_index.specs.Index.{number_of};
ghost use Rattle.type_registry.specs.Keys.{key_number};
ghost use Rattle.type_registry.specs.Registry.{registry_of, index_at};
ghost use Rattle.import_match.specs.Rules.{types_in, HasEngineTypes};
ghost use Rattle.import_match.specs.Linking.{engine_index, engine_type};
ghost use Rattle.import_match.specs.Held.{IsTypeOf};

use type_registry::{ModuleKey, TypeRegistry};
use wasm_index::{ModuleInternedTypeIndex, VMSharedTypeIndex};
use wasm_trace::TypeTrace;
use wasm_types::EntityType;

/// The type of an entity of a held module, with the engine's index in place of each of the
/// module's.
pub(crate) fn with_engine_types(
    registry: &TypeRegistry,
    key: ModuleKey,
    ty: EntityType,
) -> EntityType
    requires { All (IsTypeOf (registry_of registry.now) (key_number key)) (types_in ty) }
    ensures value { result ≡ engine_type (registry_of registry.now) (key_number key) ty }
    ensures engine { HasEngineTypes result }
{
    let mut ty = ty;
    let engine = |index: ModuleInternedTypeIndex| -> VMSharedTypeIndex
        requires { IsSome (index_at (registry_of registry.now) (key_number key) (number_of index)) }
        ensures { result ≡ engine_index (registry_of registry.entry.now) (key_number key) index }
    { registry.index_of(key, index).unwrap() };
    ty.canonicalize_for_runtime_usage(&engine);
    ty
}
