//! Types in which each reference is the id of what it names.

ghost use Rattle.std.specs.Prelude.{◌≡◌, length, map};
ghost use Rattle.std.specs.Option.{option_map};
ghost use Rattle.wasm_spec.specs.TypeData.{heap_of, reference_of, value_of, storage_of, field_of, map_heap, map_reference, map_value, map_storage, map_field, map_composite, map_sub_type, map_group, group_edges};
ghost use Rattle.form_reader.specs.Views.{composite_of, sub_type_of};
ghost use Rattle.form_types.specs.EarlierTypes.{ids_of};
ghost use Rattle.form_types.specs.Placed.{named_index};

use crate::earlier_types::{id_at, place_of};
use form_reader::{CompositeInnerType, SubType};
use wasm_spec::{CoreTypeId, FieldType, HeapType, RefType, StorageType, UnpackedIndex, ValType};

fn named_index(ids: &[CoreTypeId], index: UnpackedIndex) -> UnpackedIndex
    ensures { result ≡ named_index (ids_of ids.now) index }
{
    UnpackedIndex::Id(id_at(ids, place_of(index)))
}

fn named_heap(ids: &[CoreTypeId], heap: HeapType) -> HeapType
    ensures { heap_of result ≡ map_heap (named_index (ids_of ids.now)) (heap_of heap) }
{
    match heap {
        HeapType::Concrete(index) => HeapType::Concrete(named_index(ids, index)),
        HeapType::Abstract(heap) => HeapType::Abstract(heap),
    }
}

fn named_reference(ids: &[CoreTypeId], ty: RefType) -> RefType
    ensures { reference_of result ≡ map_reference (named_index (ids_of ids.now)) (reference_of ty) }
{
    RefType {
        nullable: ty.nullable,
        heap: named_heap(ids, ty.heap),
    }
}

fn named_value(ids: &[CoreTypeId], value: ValType) -> ValType
    ensures { value_of result ≡ map_value (named_index (ids_of ids.now)) (value_of value) }
{
    match value {
        ValType::I32 => ValType::I32,
        ValType::I64 => ValType::I64,
        ValType::F32 => ValType::F32,
        ValType::F64 => ValType::F64,
        ValType::V128 => ValType::V128,
        ValType::Ref(ty) => ValType::Ref(named_reference(ids, ty)),
    }
}

fn named_storage(ids: &[CoreTypeId], storage: StorageType) -> StorageType
    ensures { storage_of result ≡ map_storage (named_index (ids_of ids.now)) (storage_of storage) }
{
    match storage {
        StorageType::I8 => StorageType::I8,
        StorageType::I16 => StorageType::I16,
        StorageType::Val(value) => StorageType::Val(named_value(ids, value)),
    }
}

fn named_field(ids: &[CoreTypeId], field: FieldType) -> FieldType
    ensures { field_of result ≡ map_field (named_index (ids_of ids.now)) (field_of field) }
{
    FieldType {
        element_type: named_storage(ids, field.element_type),
        mutable: field.mutable,
    }
}

/// References in the values of a list become ids, in place.
fn name_values(ids: &[CoreTypeId], values: &mut [ValType])
    ensures { map value_of values.new ≡ map (map_value (named_index (ids_of ids.now))) (map value_of values.old) }
{
    for value in values.iter_mut() {
        *value = named_value(ids, *value);
    }
}

fn name_fields(ids: &[CoreTypeId], fields: &mut [FieldType])
    ensures { map field_of fields.new ≡ map (map_field (named_index (ids_of ids.now))) (map field_of fields.old) }
{
    for field in fields.iter_mut() {
        *field = named_field(ids, *field);
    }
}

fn name_composite(ids: &[CoreTypeId], composite: &mut CompositeInnerType)
    ensures { composite_of composite.new
        ≡ map_composite (named_index (ids_of ids.now)) (named_index (ids_of ids.now)) (composite_of composite.old) }
{
    match composite {
        CompositeInnerType::Func(function) => {
            name_values(ids, function.params.as_mut_slice());
            name_values(ids, function.results.as_mut_slice());
        }
        CompositeInnerType::Array(field) => *field = named_field(ids, *field),
        CompositeInnerType::Struct(fields) => name_fields(ids, fields.as_mut_slice()),
        CompositeInnerType::Cont(index) => *index = named_index(ids, *index),
    }
}

fn named_supertype(ids: &[CoreTypeId], supertype: Option<UnpackedIndex>) -> Option<UnpackedIndex>
    ensures { result ≡ option_map (named_index (ids_of ids.now)) supertype }
{
    match supertype {
        Some(index) => Some(named_index(ids, index)),
        None => None,
    }
}

fn name_sub_type(ids: &[CoreTypeId], ty: &mut SubType)
    ensures { sub_type_of ty.new ≡ map_sub_type (named_index (ids_of ids.now)) (named_index (ids_of ids.now)) (sub_type_of ty.old) }
{
    ty.supertype = named_supertype(ids, ty.supertype);
    name_composite(ids, &mut ty.composite);
}

/// Each reference of a group's members becomes the id of what it names. `count` is how many
/// references they have.
pub fn name_group(ids: &[CoreTypeId], types: &mut [SubType], count: usize)
    requires { count ≡ length (group_edges (λ i. i) (map sub_type_of types.old)) }
    ensures { map sub_type_of types.new ≡ map_group (named_index (ids_of ids.now)) (named_index (ids_of ids.now)) (map sub_type_of types.old) }
{
    // Most groups name no type, and stay as they are.
    if count == 0 {
        return;
    }
    for ty in types.iter_mut() {
        name_sub_type(ids, ty);
    }
}
