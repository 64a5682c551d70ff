//! The definitions that the exports of a module give.

ghost use Rattle.std.specs.Prelude.{◌≡◌, ◌⊎◌, map, All, Any, None, IfOk, IfErr};
ghost use Rattle.import_match.specs.declared.error.LinkError.TheVariants as refused;
ghost use Rattle.import_match.specs.Rules.{HasEngineTypes};
ghost use Rattle.import_match.specs.Definitions.{Definition, found, IsDefined, AreOnce};
ghost use Rattle.import_match.specs.Kept.{definition_of};
ghost use Rattle.import_match.specs.Linking.{exported, CanExport, IsHeld};

use crate::definitions::{Definitions, new_names};
use crate::engine_types::with_engine_types;
use crate::error::LinkError;
use crate::names::DefinitionNames;
use std::alloc::Global;
use type_registry::{ModuleKey, TypeRegistry};
use wasm_module::Module;
use wasm_types::EntityType;

/// The definitions that the exports of a held module give, in order, as long as nothing is defined
/// under the names of any.
pub(crate) fn planned_exports(
    alloc: Global,
    definitions: &Definitions,
    registry: &TypeRegistry,
    key: ModuleKey,
    as_module: &str,
    module: &Module,
) -> Result<Vec<(DefinitionNames, EntityType)>, LinkError>
    requires held { IsHeld registry.now key }
    requires can { CanExport registry.now key «module».now as_module.now }
    ensures planned { IfOk result (λ planned. map definition_of planned.items ≡ exported registry.now key «module».now as_module.now) }
    ensures engine { IfOk result (λ planned. All (λ (d : Definition). HasEngineTypes d.1) (map definition_of planned.items)) }
    ensures new { IfOk result (λ planned. All (λ (d : Definition). found definitions.now d.0 ≡ None) (map definition_of planned.items)) }
    ensures once { IfOk result (λ planned. AreOnce (map definition_of planned.items)) }
    ensures err { IfErr result (λ e. (e ≡ refused.OutOfMemory) ⊎ ((e ≡ refused.Duplicate)
        × Any (λ (d : Definition). IsDefined definitions.now d.0) (exported registry.now key «module».now as_module.now))) }
{
    // The pool's length implies that no text has two atoms, so no two exports have one name.
    let _texts = module.strings.len();
    let mut planned = Vec::with_capacity(alloc, module.exports.len())?;
    for (name, entity) in module.exports.iter() {
        let own = module.strings.get(*name);
        let names = new_names(alloc, definitions, as_module, own)?;
        let ty = with_engine_types(registry, key, module.type_of(*entity));
        planned.push((names, ty))?;
    }
    Ok(planned)
}
