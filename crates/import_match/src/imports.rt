//! The definitions that the imports of a module are given.

ghost use Rattle.std.specs.Prelude.{◌≡◌, ◌<◌, All, length};
ghost use Rattle.wasm_module.specs.Record.{record_of};
ghost use Rattle.import_match.specs.Rules.{HasEngineTypes};
ghost use Rattle.import_match.specs.Definitions.{Definition, names_of, found};
ghost use Rattle.import_match.specs.Linking.{wanted, CanImport, IsHeld};
ghost use Rattle.import_match.specs.Resolving.{answer_at, resolved, IsAnswer, IsAnswerAt};

use crate::definitions::Definitions;
use crate::engine_types::with_engine_types;
use crate::error::LinkError;
use crate::names::DefinitionNames;
use crate::rules::match_entity;
use std::alloc::Global;
use type_registry::{ModuleKey, TypeRegistry};
use wasm_module::Module;
use wasm_types::EntityType;

/// The number of the definition under the names of the import at a position, if it matches the
/// type.
fn answer(
    definitions: &Definitions,
    names: &DefinitionNames,
    place: usize,
    want: &EntityType,
) -> Result<usize, LinkError>
    requires definitions { All (λ (d : Definition). HasEngineTypes d.1) definitions.now }
    requires want { HasEngineTypes want.now }
    ensures { result ≡ answer_at place want.now (found definitions.now (names_of names.now)) }
{
    let Some((number, have)) = definitions.find(names) else {
        return Err(LinkError::Missing(place));
    };
    match match_entity(&have, want) {
        None => Ok(number),
        Some(rule) => Err(LinkError::Mismatch(place, rule)),
    }
}

/// The number of the definition of the import at a position of a held module. The memory of `names`
/// is reused for the names of the import.
pub(crate) fn resolve_at(
    definitions: &Definitions,
    registry: &TypeRegistry,
    key: ModuleKey,
    module: &Module,
    place: usize,
    names: &mut DefinitionNames,
) -> Result<usize, LinkError>
    requires definitions { All (λ (d : Definition). HasEngineTypes d.1) definitions.now }
    requires held { IsHeld registry.now key }
    requires can { CanImport registry.now key «module».now }
    requires place { place < length (record_of «module».now).initializers }
    ensures { IsAnswerAt result definitions.now (wanted registry.now key «module».now) place }
{
    let Some((from, own, ty)) = module.import(place) else {
        unreachable!()
    };
    names.set(from, own)?;
    let want = with_engine_types(registry, key, ty);
    answer(definitions, names, place, &want)
}

/// The number of the definition of each import of a held module, in order.
pub(crate) fn resolve_imports(
    alloc: Global,
    definitions: &Definitions,
    registry: &TypeRegistry,
    key: ModuleKey,
    module: &Module,
) -> Result<Vec<usize>, LinkError>
    requires definitions { All (λ (d : Definition). HasEngineTypes d.1) definitions.now }
    requires held { IsHeld registry.now key }
    requires can { CanImport registry.now key «module».now }
    ensures { IsAnswer result (resolved definitions.now (wanted registry.now key «module».now)) }
{
    let count = module.initializers.len();
    let mut numbers = Vec::with_capacity(alloc, count)?;
    let mut names = DefinitionNames::new(alloc);
    for place in 0..count {
        let number = resolve_at(definitions, registry, key, module, place, &mut names)?;
        numbers.push(number)?;
    }
    Ok(numbers)
}
