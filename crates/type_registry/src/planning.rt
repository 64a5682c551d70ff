//! The groups of a module, one after another, before anything changes.

ghost use Rattle.std.specs.Prelude.{◌≡◌, ◌<◌, ◌≤◌, ◌+◌, ◌-◌, ◌++◌, ◌∷◌, [], None, length, map, take, IfOk, OnOk, IsErrOf};
ghost use Rattle.std.specs.Option.{option_copied};
ghost use Rattle.wasm_index.specs.Index.{number_of};
ghost use Rattle.wasm_types.specs.TypeViews.{group_of};
ghost use Rattle.module_types.specs.Views.{span_of};
ghost use Rattle.type_registry.specs.declared.error.RegistryError.TheVariants as refused;
ghost use Rattle.type_registry.specs.Registry.{indices_of};
ghost use Rattle.type_registry.specs.Changes.{at_first, begun, canonical_data, canonical_of, find_group, free_indices, new_group, next_group, plan_group, plan_groups, with_group};
ghost use Rattle.module_types.specs.Listed.{Listed};
ghost use Rattle.type_registry.specs.Planning.{HaveFirstFree, MayBePlanned, plan};

use crate::error::RegistryError;
use crate::fresh::FreshGroups;
use crate::groups::Groups;
use crate::kept::{Held, Kept};
use crate::plan::{Fresh, canonical, used};
use entity_map::{EntityRef, OutOfMemory};
use module_types::ModuleTypes;
use std::alloc::Global;
use std::marker::Model;
use std::rc::Rc;
use wasm_index::VMSharedTypeIndex;
use wasm_types::{WasmRecGroup, equality_law};

/// What a registration reads.
#[derive(Clone, Copy)]
pub(crate) struct RegistrationInput<'a> {
    pub(crate) alloc: Global,
    pub(crate) types: &'a ModuleTypes,
    pub(crate) groups: &'a Groups,
    /// How many more types may be live.
    pub(crate) room: u32,
}

/// The indices of a module, and the groups of it that are not kept yet.
#[derive(Drop)]
pub(crate) struct Planned {
    pub(crate) listed: Held,
    pub(crate) fresh: FreshGroups,
}

impl Model for Planned {
    ghost use Rattle.type_registry.specs.Changes.{Plan};

    ghost Value = { Plan };

    ghost view = { λ p. record { listed = p.listed; fresh = p.fresh } };
}

/// The next indices that are not live, where so many before them are already assigned.
fn new_indices(
    alloc: Global,
    groups: &Groups,
    given: u32,
    count: u32,
) -> Result<Vec<VMSharedTypeIndex>, OutOfMemory>
    requires { length (indices_of groups.now.groups) + given + count < u32.MAX }
    ensures { IfOk result (λ v. map number_of v.items
        ≡ free_indices (indices_of groups.now.groups ++ free_indices (indices_of groups.now.groups) given) count) }
{
    let mut indices = Vec::with_capacity(alloc, count as usize)?;
    for place in 0..count {
        indices.push(groups.free_at(given + place))?;
    }
    Ok(indices)
}

/// The equal group, if one is kept or is new.
fn find_equal<'a>(
    groups: &'a Groups,
    fresh: &'a FreshGroups,
    canonical: &Rc<WasmRecGroup>,
) -> Option<&'a Kept>
    ensures { option_copied result ≡ find_group canonical.now.value (groups.now.groups ++ fresh.now) }
{
    match groups.find(canonical) {
        Some(group) => Some(group),
        None => fresh.find(canonical),
    }
}

/// A group that no module has yet, whose members have these indices: the last of those assigned to
/// types so far.
fn fresh_group(
    source: RegistrationInput<'_>,
    start: u32,
    end: u32,
    given: &[VMSharedTypeIndex],
    indices: Vec<VMSharedTypeIndex>,
    canonical: Rc<WasmRecGroup>,
) -> Result<Fresh, OutOfMemory>
    requires may { MayBePlanned source.types.now (record { start = start; end = end }) }
    requires count { length indices.items ≡ end - start }
    requires given { map number_of given.now ≡ take start (map number_of given.now) ++ map number_of indices.items }
    requires long { length given.now ≡ end }
    requires canonical { group_of canonical.value ≡ canonical_data source.types.now (take start (map number_of given.now)) (record { start = start; end = end }) }
    ensures { IfOk result (λ f. f ≡ at_first (new_group canonical.value (map number_of indices.items))) }
{
    let used = used(source.alloc, source.types, start, end, given)?;
    let name = canonical.clone()?;
    let kept = Kept {
        canonical,
        types: used.types,
        indices,
        count: 0,
    };
    Ok(Fresh { kept, name })
}

/// A group that is not known gets the next indices that are not live.
fn take_new(
    source: RegistrationInput<'_>,
    start: u32,
    end: u32,
    canonical: Rc<WasmRecGroup>,
    listed: &mut Held,
    fresh: &mut FreshGroups,
) -> Result<(), OutOfMemory>
    requires may { MayBePlanned source.types.now (record { start = start; end = end }) }
    requires long { length listed.old.indices ≡ start }
    requires canonical { group_of canonical.value ≡ canonical_data source.types.now listed.old.indices (record { start = start; end = end }) }
    requires unknown { find_group canonical.value fresh.old ≡ None }
    requires free { HaveFirstFree (indices_of source.groups.now.groups) fresh.old }
    requires room { length (indices_of source.groups.now.groups) + length (indices_of fresh.old) + (end - start) < u32.MAX }
    ensures listed { OnOk result (listed.new ≡ with_group listed.old (next_group source.entry.groups.now.groups fresh.old canonical.value (end - start))) }
    ensures fresh { OnOk result (fresh.new ≡ fresh.old ++ at_first (next_group source.entry.groups.now.groups fresh.old canonical.value (end - start)) ∷ []) }
{
    let indices = new_indices(source.alloc, source.groups, fresh.members(), end - start)?;
    listed.take(&indices)?;
    let name = canonical.clone()?;
    let group = fresh_group(source, start, end, &listed.indices, indices, canonical)?;
    fresh.push(group, name)
}

/// The canonical members of a group, to be shared.
fn shared_canonical(
    source: RegistrationInput<'_>,
    start: u32,
    end: u32,
    given: &[VMSharedTypeIndex],
) -> Result<Rc<WasmRecGroup>, OutOfMemory>
    requires may { MayBePlanned source.types.now (record { start = start; end = end }) }
    requires long { length given.now ≡ start }
    ensures canonical { IfOk result (λ c. c.value ≡ canonical_of source.entry.types.now (map number_of given.now) (record { start = start; end = end })) }
    ensures form { IfOk result (λ c. group_of c.value ≡ canonical_data source.entry.types.now (map number_of given.now) (record { start = start; end = end })) }
{
    let members = canonical(source.alloc, source.types, start, end, given)?;
    Ok(Rc::new(source.alloc, members)?)
}

/// Plans the next group of a module.
fn take_group(
    source: RegistrationInput<'_>,
    start: u32,
    end: u32,
    listed: &mut Held,
    fresh: &mut FreshGroups,
) -> Result<(), RegistryError>
    requires may { MayBePlanned source.types.now (record { start = start; end = end }) }
    requires long { length listed.old.indices ≡ start }
    requires free { HaveFirstFree (indices_of source.groups.now.groups) fresh.old }
    requires few { length (indices_of source.groups.now.groups) + source.room < u32.MAX }
    requires room { length (indices_of fresh.old) ≤ source.room }
    ensures ok { OnOk result (plan listed.new fresh.new
        ≡ plan_group source.entry.groups.now.groups source.entry.types.now (plan listed.old fresh.old) (record { start = start; end = end })) }
    ensures long { OnOk result (length listed.new.indices ≡ end) }
    ensures fits { OnOk result (length (indices_of fresh.new) ≤ source.entry.room) }
    ensures full { IsErrOf result refused.Full → source.entry.room < length (indices_of
        (plan_group source.entry.groups.now.groups source.entry.types.now (plan listed.old fresh.old) (record { start = start; end = end })).fresh) }
    ensures held { IsErrOf result refused.NotHeld → ⊥ }
{
    let canonical = shared_canonical(source, start, end, &listed.indices)?;
    equality_law();
    if let Some(group) = find_equal(source.groups, fresh, &canonical) {
        group.join(listed)?;
        return Ok(());
    }
    if end - start > source.room - fresh.members() {
        return Err(RegistryError::Full);
    }
    take_new(source, start, end, canonical, listed, fresh)?;
    Ok(())
}

/// Plans all groups of a list, one after another. Hashes begin from the seed.
///
/// # Errors
/// `Full` where the new groups have more members than there is capacity for, and `OutOfMemory`.
pub(crate) fn plan_groups(
    source: RegistrationInput<'_>,
    seed: u64,
) -> Result<Planned, RegistryError>
    requires listed { Listed source.types.now }
    requires few { length (indices_of source.groups.now.groups) + source.room < u32.MAX }
    ensures ok { IfOk result (λ p. p ≡ plan_groups source.entry.groups.now.groups source.entry.types.now begun (map span_of source.entry.types.now.groups)) }
    ensures fits { IfOk result (λ p. length (indices_of p.fresh) ≤ source.entry.room) }
    ensures few { IfOk result (λ p. length p.listed.groups < 4294967296) }
    ensures short { OnOk result (length source.entry.types.now.types < u32.MAX) }
    ensures full { IsErrOf result refused.Full → source.entry.room
        < length (indices_of (plan_groups source.entry.groups.now.groups source.entry.types.now begun (map span_of source.entry.types.now.groups)).fresh) }
    ensures held { IsErrOf result refused.NotHeld → ⊥ }
{
    let mut listed = Held::with_capacity(source.alloc, source.types.len_types())?;
    let mut fresh = FreshGroups::new(source.alloc, seed);
    for (_group, range) in source.types.rec_groups() {
        let start = range.start.as_u32();
        let end = range.end.as_u32();
        take_group(source, start, end, &mut listed, &mut fresh)?;
    }
    Ok(Planned { listed, fresh })
}
