//! Groups of a module that was read, interned and looked up.

ghost use Rattle.std.specs.Prelude.{◌≡◌, ◌<◌, ◌+◌, length, OnOk};
ghost use Rattle.form_types.specs.Types.{types_by_id};
ghost use Rattle.module_types.specs.Builder.{builder_view};
ghost use Rattle.module_types.specs.Conversion.{group_of_id, members_of};
ghost use Rattle.module_tests.specs.FirstGroups.{HoldsFirst, IsNextOrLast};

use entity_map::EntityRef;
use form_types::{RecGroupId, Types, Validator};
use module_types::{BuildError, ModuleTypesBuilder, TypeLookUp, WasmparserTypeConverter};
use std::process::Abort;
use std::test::Fail;
use wasm_convert::TypeConvert;
use wasm_form::{check, read_module};
use wasm_index::{ModuleInternedRecGroupIndex, ModuleInternedTypeIndex, TypeIndex};
use wasm_spec::{CoreTypeId, UnpackedIndex};
use wasm_types::EngineOrModuleTypeIndex;

// The types `(func)` and `(func (param i32))`.
const TWO_TYPES: [u8; 18] = [
    0, 0x61, 0x73, 0x6d, 1, 0, 0, 0, 1, 8, 2, 0x60, 0, 0, 0x60, 1, 0x7f, 0,
];

// Looks every type up to one.
#[derive(Drop)]
struct OneType(ModuleInternedTypeIndex);

impl TypeLookUp for OneType {
    ghost callable = { λ f i. Unit {0} };

    ghost gives = { λ f i r. r ≡ f.0 };

    fn interned_index(&self, _index: TypeIndex) -> ModuleInternedTypeIndex {
        self.0
    }
}

// The id of a declared type, and its group.
fn ids_of(types: &Types, declared: u32) -> (CoreTypeId, RecGroupId)
    requires { declared < length types.now.declared }
    ensures type_known { result.0.0 < length (types_by_id types.now.groups) }
    ensures group { group_of_id types.now result.0.0 ≡ result.1.0 }
    ensures group_known { result.1.0 < length types.now.groups }
    ensures filled { 0 < length (members_of types.now result.1.0) }
{
    let id = types.core_type_at_in_module(declared);
    let group = types.rec_group_id_of(id);
    (id, group)
}

// Interns one of the first two groups, where those before it are held.
fn intern(
    builder: &mut ModuleTypesBuilder,
    types: &Types,
    id: RecGroupId,
) -> Result<ModuleInternedRecGroupIndex, BuildError>
    requires few { id.0 < 2 }
    requires known { id.0 < length types.now.groups }
    requires filled { 0 < length (members_of types.now id.0) }
    requires next { IsNextOrLast types.now (builder_view builder.old) id.0 }
    ensures { OnOk result (HoldsFirst types.now (builder_view builder.new) (id.0 + 1)) }
{
    builder.intern_rec_group(types, id)
}

// What a type of a held group and one of the group that is next are looked up to.
fn look_up(
    builder: &ModuleTypesBuilder,
    types: &Types,
    held: CoreTypeId,
    next: CoreTypeId,
    group: RecGroupId,
) -> (EngineOrModuleTypeIndex, EngineOrModuleTypeIndex)
    requires first { HoldsFirst types.now (builder_view builder.now) 1 }
    requires held { (held.0 < length (types_by_id types.now.groups)) × (group_of_id types.now held.0 ≡ 0) }
    requires next { (next.0 < length (types_by_id types.now.groups)) × (group_of_id types.now next.0 ≡ group.0) }
{
    let mut converter = WasmparserTypeConverter::new(
        builder,
        0,
        OneType(ModuleInternedTypeIndex::new(0)),
    );
    let converter = converter.with_rec_group(types, group);
    (
        converter.lookup_type_index(UnpackedIndex::Id(held)),
        converter.lookup_type_index(UnpackedIndex::Id(next)),
    )
}

fn module_type(number: u32) -> EngineOrModuleTypeIndex
    requires { number < u32.MAX }
{
    EngineOrModuleTypeIndex::Module(ModuleInternedTypeIndex::from_u32(number))
}

// The first group twice, then the second: groups 0, 0 and 1. Each has one type, and is called by
// it.
fn intern_both(rt: &impl Abort, builder: &mut ModuleTypesBuilder, types: &Types) -> Result<(), Fail>
    requires { HoldsFirst types.now (builder_view builder.old) 0 }
{
    assert!(rt; types.core_type_count_in_module() == 2);
    let (first, first_group) = ids_of(types, 0);
    let (second, second_group) = ids_of(types, 1);
    assert!(rt; first_group.0 == 0);
    assert!(rt; second_group.0 == 1);
    assert!(rt; intern(builder, types, first_group)?.as_u32() == 0);
    assert!(rt; intern(builder, types, first_group)?.as_u32() == 0);
    let looked_up = look_up(builder, types, first, second, second_group);
    assert!(rt; looked_up.0 == module_type(0));
    assert!(rt; looked_up.1 == module_type(1));
    assert!(rt; intern(builder, types, second_group)?.as_u32() == 1);
    Ok(())
}

#[test]
fn groups_are_interned_once(rt: HostRuntime) -> Result<(), Fail> {
    let alloc = rt.alloc();
    let form = read_module(alloc, &TWO_TYPES)?;
    check(alloc, &form)?;
    let validator = Validator::new(7);
    let types = Types::build(alloc, &validator, &form)?;
    let mut builder = ModuleTypesBuilder::new(alloc, &validator);
    assert!(rt; types.id().0 == builder.validator_id().0);
    intern_both(&rt, &mut builder, &types)?;
    assert!(rt; builder.find_resource_drop_signature() == Some(ModuleInternedTypeIndex::new(1)));
    Ok(())
}
