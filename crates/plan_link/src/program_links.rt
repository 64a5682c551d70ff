//! The imports and exports of the modules of a program.

ghost use Rattle.std.specs.Prelude.{◌≡◌, ◌⊎◌, ◌++◌, ℕ, All, IfOk, IfErr, OnOk};
ghost use Rattle.std.specs.List.{zip};
ghost use Rattle.import_match.specs.declared.error.LinkError.TheVariants as error;
ghost use Rattle.import_match.specs.Linking.{exported, CanExport, CanImport, IsHeld};
ghost use Rattle.plan_link.specs.Program.{IsLinkedBy, AreLinked, RepeatsNames};
ghost use Rattle.plan_link.specs.Members.{IsLinkableModule, AreHeld, IsTaken, IsRefusedAt, IsUnlinked};

use crate::answering::answers_of;
use crate::program::{LinkedModule, ProgramModule};
use crate::program_error::ProgramError;
use crate::program_types::indices_of;
use entity_map::OutOfMemory;
use import_match::{LinkError, Linker};
use std::alloc::Global;
use type_registry::{ModuleKey, TypeRegistry};

/// What is found for each member, in order: each module is held under its key.
pub(crate) fn link_members(
    alloc: Global,
    registry: &TypeRegistry,
    keys: &[ModuleKey],
    modules: &[ProgramModule<'_, '_>],
) -> Result<Vec<LinkedModule>, ProgramError>
    requires held { AreHeld registry.now modules.now keys.now }
    requires linkable { All IsLinkableModule modules.now }
    ensures linked { IfOk result (λ linked. AreLinked registry.now (zip modules.now keys.now) linked.items) }
    ensures once { OnOk result ((k : ℕ) → RepeatsNames modules.now k → ⊥) }
    ensures err { IfErr result (IsUnlinked modules.now) }
{
    let mut linker = Linker::new(alloc);
    let mut linked = Vec::with_capacity(alloc, modules.len())?;
    for (place, module) in modules.iter().enumerate() {
        let key = keys[place];
        linked.push(link_member(alloc, &linker, registry, key, module)?)?;
        define_member(&mut linker, registry, key, module, place)?;
    }
    Ok(linked)
}

// What is found for a member, where the exports of those before it are defined.
fn link_member(
    alloc: Global,
    linker: &Linker,
    registry: &TypeRegistry,
    key: ModuleKey,
    module: &ProgramModule<'_, '_>,
) -> Result<LinkedModule, OutOfMemory>
    requires held { IsHeld registry.now key }
    requires can { CanImport registry.now key «module».now.plan.now.translation.module }
    ensures { IfOk result (IsLinkedBy registry.now linker.now («module».now, key)) }
{
    let types = indices_of(alloc, registry, key)?;
    let answers = answers_of(
        alloc,
        linker,
        registry,
        key,
        &module.plan.translation.module,
    )?;
    Ok(LinkedModule {
        types,
        answers,
        first_export: linker.len(),
    })
}

// Defines the exports of the member at a position under its name.
fn define_member(
    linker: &mut Linker,
    registry: &TypeRegistry,
    key: ModuleKey,
    module: &ProgramModule<'_, '_>,
    place: usize,
) -> Result<(), ProgramError>
    requires held { IsHeld registry.now key }
    requires can { CanExport registry.now key «module».now.plan.now.translation.module «module».now.name.now }
    ensures ok { OnOk result (linker.new ≡ linker.old ++ exported registry.now key «module».now.plan.now.translation.module «module».now.name.now) }
    ensures new { OnOk result (IsTaken registry.now linker.old «module».now key → ⊥) }
    ensures err { IfErr result (IsRefusedAt place (IsTaken registry.now linker.old «module».now key)) }
{
    match linker.define_exports(registry, key, module.name, &module.plan.translation.module) {
        Ok(()) => Ok(()),
        Err(refusal) => Err(refusal_at(place, refusal)),
    }
}

// A held module at a position is refused for a name or for want of memory.
fn refusal_at(place: usize, refusal: LinkError) -> ProgramError
    requires { (refusal ≡ error.Duplicate) ⊎ (refusal ≡ error.OutOfMemory) }
    ensures { IsRefusedAt place (refusal ≡ error.Duplicate) result }
{
    match refusal {
        LinkError::Duplicate => ProgramError::Duplicate(place),
        LinkError::OutOfMemory => ProgramError::OutOfMemory,
        LinkError::NotHeld | LinkError::Missing(_) | LinkError::Mismatch(_, _) => unreachable!(),
    }
}
