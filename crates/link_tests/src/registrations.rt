//! Rows of registrations and releases: the key and the indices that a list gets, and how many types
//! are live then.

ghost use Rattle.std.specs.Prelude.{◌≡◌, ◌<◌, length};
ghost use Rattle.module_types.specs.Listed.{Listed};

use crate::lists::{nothing, startup, twice};
use crate::modules::{
    FINAL_OR_NOT, GROUP_AND_EXCEPTION, OF_ITSELF, SAME_BEHIND_ANOTHER, TWO_SEGMENTS, plan_of,
    types_of,
};
use entity_map::EntityRef;
use module_types::ModuleTypes;
use std::alloc::Global;
use std::process::Abort;
use std::test::Fail;
use type_registry::{ModuleKey, RegistryError, TypeRegistry};
use wasm_index::{ModuleInternedTypeIndex, VMSharedTypeIndex};

// What a registration gives: the number of the key, the index of each type, and how many types are
// live then.
#[derive(Drop)]
struct Wanted<'a> {
    number: u64,
    indices: &'a [u32],
    live: u32,
}

fn gives<'a>(number: u64, indices: &'a [u32], live: u32) -> Wanted<'a>
    ensures { result.indices.now ≡ indices.now }
{
    Wanted {
        number,
        indices,
        live,
    }
}

// Registers a list, which gives what is expected.
fn registers(
    rt: &impl Abort,
    registry: &mut TypeRegistry,
    alloc: Global,
    types: &ModuleTypes,
    wanted: &Wanted<'_>,
) -> Result<ModuleKey, Fail>
    requires listed { Listed types.now }
    requires few { length wanted.now.indices.now < 10 }
{
    let key = registry.register(types)?;
    let shown = format!(in alloc; "{key:?}")?;
    let number = wanted.number;
    let named = format!(in alloc; "ModuleKey({number})")?;
    assert_eq!(rt; shown.as_str(), named.as_str());
    for (place, index) in wanted.indices.iter().enumerate() {
        let got = registry.index_of(key, ModuleInternedTypeIndex::from_u32(place as u32));
        assert!(rt; got.is_some_and(|got| got.as_u32() == *index));
    }
    assert!(rt; registry.type_count(key) == Some(wanted.indices.len() as u32));
    assert!(rt; registry.live_types() == wanted.live);
    Ok(key)
}

// A module that is no longer held is not known, and cannot be released.
fn is_not_held(rt: &impl Abort, registry: &mut TypeRegistry, key: ModuleKey) -> Result<(), Fail> {
    assert!(rt; registry.type_count(key) == None);
    assert!(rt; registry.index_of(key, ModuleInternedTypeIndex::from_u32(0)) == None);
    assert!(rt; registry.release(key) == Err(RegistryError::NotHeld));
    Ok(())
}

// Releases a module, and so many types are live then.
fn releases(
    rt: &impl Abort,
    registry: &mut TypeRegistry,
    key: ModuleKey,
    live: u32,
) -> Result<(), Fail> {
    registry.release(key)?;
    assert!(rt; registry.live_types() == live);
    is_not_held(rt, registry, key)?;
    assert!(rt; registry.live_types() == live);
    Ok(())
}

// Whether two types have one index, where both are types of held modules.
fn same(registry: &TypeRegistry, a: ModuleKey, i: u32, b: ModuleKey, j: u32) -> Option<bool>
    requires i { i < 10 }
    requires j { j < 10 }
{
    let i = ModuleInternedTypeIndex::from_u32(i);
    let j = ModuleInternedTypeIndex::from_u32(j);
    registry.index_of(a, i)?;
    registry.index_of(b, j)?;
    Some(registry.same(a, i, b, j))
}

// A list is refused, as there would be too many types.
fn refuses(
    rt: &impl Abort,
    registry: &mut TypeRegistry,
    types: &ModuleTypes,
    live: u32,
) -> Result<(), Fail>
    requires { Listed types.now }
{
    let registrations = registry.registrations();
    match registry.register(types) {
        Err(RegistryError::Full) => {}
        _ => return Err(Fail::from("not full")),
    }
    assert!(rt; registry.live_types() == live);
    assert!(rt; registry.registrations() == registrations);
    Ok(())
}

fn equal_types(
    rt: &impl Abort,
    registry: &mut TypeRegistry,
    alloc: Global,
    first: &ModuleTypes,
    second: &ModuleTypes,
    third: &ModuleTypes,
) -> Result<(), Fail>
    requires first { Listed first.now }
    requires second { Listed second.now }
    requires third { Listed third.now }
{
    let a = registers(rt, registry, alloc, first, &gives(0, &[0, 1], 2))?;
    let b = registers(rt, registry, alloc, second, &gives(1, &[2, 3], 4))?;
    let c = registers(rt, registry, alloc, first, &gives(2, &[0, 1], 4))?;
    assert!(rt; same(registry, a, 0, c, 0) == Some(true));
    assert!(rt; same(registry, a, 0, b, 0) == Some(false));
    assert!(rt; same(registry, a, 0, b, 2) == None);
    releases(rt, registry, a, 4)?;
    assert!(rt; same(registry, a, 0, c, 0) == None);
    releases(rt, registry, c, 2)?;
    registers(rt, registry, alloc, third, &gives(3, &[0], 3))?;
    is_not_held(rt, registry, a)?;
    releases(rt, registry, b, 1)
}

#[test]
fn equal_types_have_one_index(rt: HostRuntime) -> Result<(), Fail> {
    let alloc = rt.alloc();
    let first = types_of(alloc, &FINAL_OR_NOT)?;
    let second = types_of(alloc, &OF_ITSELF)?;
    let third = plan_of(alloc, &TWO_SEGMENTS)?;
    let mut registry = TypeRegistry::new(alloc, 10);
    equal_types(&rt, &mut registry, alloc, &first, &second, &third.types)
}

fn equal_members(
    rt: &impl Abort,
    registry: &mut TypeRegistry,
    alloc: Global,
    first: &ModuleTypes,
    second: &ModuleTypes,
) -> Result<(), Fail>
    requires first { Listed first.now }
    requires second { Listed second.now }
{
    let a = registers(rt, registry, alloc, first, &gives(0, &[0, 1, 2, 3, 4], 5))?;
    let b = registers(
        rt,
        registry,
        alloc,
        second,
        &gives(1, &[5, 0, 1, 2, 3, 4], 6),
    )?;
    for (i, j, wanted) in [
        (0, 1, true),
        (1, 2, true),
        (0, 2, false),
        (1, 1, false),
        (2, 3, true),
        (3, 4, true),
        (4, 5, true),
        (4, 0, false),
    ] {
        assert!(rt; same(registry, a, i, b, j) == Some(wanted));
    }
    releases(rt, registry, a, 6)?;
    releases(rt, registry, b, 0)
}

#[test]
fn members_of_equal_groups_and_exceptions_have_one_index(rt: HostRuntime) -> Result<(), Fail> {
    let alloc = rt.alloc();
    let first = types_of(alloc, &GROUP_AND_EXCEPTION)?;
    let second = types_of(alloc, &SAME_BEHIND_ANOTHER)?;
    let mut registry = TypeRegistry::new(alloc, 10);
    equal_members(&rt, &mut registry, alloc, &first, &second)
}

fn engine_references(
    rt: &impl Abort,
    registry: &mut TypeRegistry,
    alloc: Global,
    types: &ModuleTypes,
) -> Result<(), Fail>
    requires { Listed types.now }
{
    registers(rt, registry, alloc, types, &gives(0, &[0, 1], 2))?;
    let Some(ty) = registry.get(VMSharedTypeIndex::from_u32(0)) else {
        return Err(Fail::from("no type"));
    };
    let shown = format!(in alloc; "{ty}")?;
    assert_eq!(rt; shown.as_str(), "(func (param (ref func (engine 0))))");
    assert!(rt; registry.get(VMSharedTypeIndex::from_u32(2)).is_none());
    Ok(())
}

#[test]
fn references_of_used_types_are_the_engines(rt: HostRuntime) -> Result<(), Fail> {
    let alloc = rt.alloc();
    let types = types_of(alloc, &OF_ITSELF)?;
    let mut registry = TypeRegistry::new(alloc, 10);
    engine_references(&rt, &mut registry, alloc, &types)
}

fn too_many_types(
    rt: &impl Abort,
    registry: &mut TypeRegistry,
    alloc: Global,
    first: &ModuleTypes,
    second: &ModuleTypes,
) -> Result<(), Fail>
    requires first { Listed first.now }
    requires second { Listed second.now }
{
    let a = registers(rt, registry, alloc, first, &gives(0, &[0, 1], 2))?;
    refuses(rt, registry, second, 2)?;
    releases(rt, registry, a, 0)?;
    registers(rt, registry, alloc, second, &gives(1, &[0, 1], 2))?;
    Ok(())
}

#[test]
fn list_is_refused_by_one_type_and_taken_after_a_release(rt: HostRuntime) -> Result<(), Fail> {
    let alloc = rt.alloc();
    let first = types_of(alloc, &FINAL_OR_NOT)?;
    let second = types_of(alloc, &OF_ITSELF)?;
    let mut registry = TypeRegistry::new(alloc, 3);
    too_many_types(&rt, &mut registry, alloc, &first, &second)
}

fn no_room(
    rt: &impl Abort,
    registry: &mut TypeRegistry,
    alloc: Global,
    one: &ModuleTypes,
) -> Result<(), Fail>
    requires { Listed one.now }
{
    let none = nothing(alloc);
    refuses(rt, registry, one, 0)?;
    registers(rt, registry, alloc, &none, &gives(0, &[], 0))?;
    Ok(())
}

#[test]
fn no_types_fit_where_none_may_be_live(rt: HostRuntime) -> Result<(), Fail> {
    let alloc = rt.alloc();
    let one = startup(alloc)?;
    let mut registry = TypeRegistry::new(alloc, 0);
    no_room(&rt, &mut registry, alloc, &one)
}

fn same_twice(
    rt: &impl Abort,
    registry: &mut TypeRegistry,
    alloc: Global,
    one: &ModuleTypes,
    two: &ModuleTypes,
) -> Result<(), Fail>
    requires one { Listed one.now }
    requires two { Listed two.now }
{
    let a = registers(rt, registry, alloc, two, &gives(0, &[0, 0], 1))?;
    let b = registers(rt, registry, alloc, one, &gives(1, &[0], 1))?;
    releases(rt, registry, a, 1)?;
    releases(rt, registry, b, 0)
}

#[test]
fn group_that_a_module_has_twice_counts_twice(rt: HostRuntime) -> Result<(), Fail> {
    let alloc = rt.alloc();
    let one = startup(alloc)?;
    let two = twice(alloc)?;
    let mut registry = TypeRegistry::new(alloc, 1);
    same_twice(&rt, &mut registry, alloc, &one, &two)
}
