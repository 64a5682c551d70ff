//! The answer to each import of a held module, by itself.

ghost use Rattle.std.specs.Prelude.{◌≡◌, ◌<◌, Some, length, slice_get, IfOk};
ghost use Rattle.wasm_module.specs.Record.{record_of};
ghost use Rattle.import_match.specs.declared.error.LinkError.TheVariants as refused;
ghost use Rattle.import_match.specs.Linking.{exported, wanted, CanExport, CanImport, IsHeld};
ghost use Rattle.plan_link.specs.Answers.{import_answers, told_by, CanCome};

use crate::answer::ImportAnswer;
use entity_map::OutOfMemory;
use import_match::{LinkError, Linker};
use std::alloc::Global;
use type_registry::{ModuleKey, TypeRegistry};
use wasm_module::Module;

/// A linker in which the exports of a held module are defined, and nothing else.
pub(crate) fn exports_of(
    alloc: Global,
    registry: &TypeRegistry,
    key: ModuleKey,
    as_module: &str,
    module: &Module,
) -> Result<Linker, OutOfMemory>
    requires held { IsHeld registry.now key }
    requires can { CanExport registry.now key «module».now as_module.now }
    ensures { IfOk result (λ linker. linker ≡ exported registry.now key «module».now as_module.now) }
{
    let mut linker = Linker::new(alloc);
    match linker.define_exports(registry, key, as_module, module) {
        Ok(()) => Ok(linker),
        Err(refusal) => Err(memory(refusal)),
    }
}

/// The answer to each import of a held module, in order.
pub(crate) fn answers_of(
    alloc: Global,
    linker: &Linker,
    registry: &TypeRegistry,
    key: ModuleKey,
    module: &Module,
) -> Result<Vec<ImportAnswer>, OutOfMemory>
    requires held { IsHeld registry.now key }
    requires can { CanImport registry.now key «module».now }
    ensures { IfOk result (λ answers. answers.items ≡ import_answers linker.now (wanted registry.now key «module».now)) }
{
    let count = module.initializers.len();
    let mut answers = Vec::with_capacity(alloc, count)?;
    for place in 0..count {
        answers.push(answer_at(linker, registry, key, module, place)?)?;
    }
    Ok(answers)
}

// The answer to the import at an index.
fn answer_at(
    linker: &Linker,
    registry: &TypeRegistry,
    key: ModuleKey,
    module: &Module,
    place: usize,
) -> Result<ImportAnswer, OutOfMemory>
    requires held { IsHeld registry.now key }
    requires can { CanImport registry.now key «module».now }
    requires place { place < length (record_of «module».now).initializers }
    ensures { IfOk result (λ answer. slice_get (import_answers linker.now (wanted registry.now key «module».now)) place ≡ Some answer) }
{
    match linker.resolve_import(registry, key, module, place) {
        Ok(number) => Ok(ImportAnswer::Given(number)),
        Err(refusal) => told_by(refusal),
    }
}

// What a refusal says of one import. The module is held, and nothing is defined.
fn told_by(refusal: LinkError) -> Result<ImportAnswer, OutOfMemory>
    requires { CanCome refusal }
    ensures { IfOk result (λ answer. told_by refusal ≡ Some answer) }
{
    match refusal {
        LinkError::Missing(_) => Ok(ImportAnswer::Missing),
        LinkError::Mismatch(_, rule) => Ok(ImportAnswer::Mismatch(rule)),
        LinkError::OutOfMemory => Err(OutOfMemory),
        LinkError::Duplicate | LinkError::NotHeld => unreachable!(),
    }
}

// A module that is held, with nothing defined yet, is refused for want of memory alone.
fn memory(_refusal: LinkError) -> OutOfMemory
    requires { _refusal ≡ refused.OutOfMemory }
{
    OutOfMemory
}
