//! Types whose indices are below a bound (core specification, 3.2, recursive types).

ghost use Rattle.std.specs.Prelude.{◌≡◌, ◌↔◌, ◌+◌, ◌<◌, ◌^◌, map, length, All, IsTrue, IfSome};
ghost use Rattle.form_reader.specs.Views.{function_of, composite_of, sub_type_of};
ghost use Rattle.wasm_spec.specs.TypeData.{Func, heap_of, value_of, storage_of, field_of, group_edges};
ghost use Rattle.rule_spec.specs.Lists.{declared_from};
ghost use Rattle.rule_spec.specs.TypeRules.{IsBelow, HeapIsBelow, ValueIsBelow, KindIsBelow};
ghost use Rattle.form_types.specs.Below.{StorageIsBelow, FieldIsBelow, HasSupertypeBelow, NamesBelow};

use form_reader::{CompositeInnerType, FuncType, SubType};
use wasm_spec::{FieldType, HeapType, StorageType, UnpackedIndex, ValType};

/// Whether the index is below a bound.
pub fn is_below(bound: usize, index: &UnpackedIndex) -> bool
    ensures { IsTrue result ↔ IsBelow bound index.now }
{
    match index {
        UnpackedIndex::Module(index) => (*index as usize) < bound,
        UnpackedIndex::RecGroup(_) | UnpackedIndex::Id(_) => false,
    }
}

/// Whether the index in a heap type, if it has one, is below a bound.
#[tactic(auto, using(crate::proofs::PartsBelow::concrete_below, crate::proofs::PartsBelow::abstract_below))]
pub fn heap_is_below(bound: usize, heap: &HeapType) -> bool
    ensures { IsTrue result ↔ HeapIsBelow bound (heap_of heap.now) }
{
    match heap {
        HeapType::Concrete(index) => is_below(bound, index),
        HeapType::Abstract(_) => true,
    }
}

/// Whether the index in a value type, if it has one, is below a bound.
#[tactic(auto, using(crate::proofs::PartsBelow::ref_below, crate::proofs::PartsBelow::i32_below, crate::proofs::PartsBelow::i64_below, crate::proofs::PartsBelow::f32_below, crate::proofs::PartsBelow::f64_below, crate::proofs::PartsBelow::v128_below))]
pub fn value_is_below(bound: usize, ty: &ValType) -> bool
    ensures { IsTrue result ↔ ValueIsBelow bound (value_of ty.now) }
{
    match ty {
        ValType::Ref(reference) => heap_is_below(bound, &reference.heap),
        ValType::I32 | ValType::I64 | ValType::F32 | ValType::F64 | ValType::V128 => true,
    }
}

#[tactic(auto, using(crate::proofs::PartsBelow::val_below, crate::proofs::PartsBelow::i8_below, crate::proofs::PartsBelow::i16_below))]
fn storage_is_below(bound: usize, ty: &StorageType) -> bool
    ensures { IsTrue result ↔ StorageIsBelow bound (storage_of ty.now) }
{
    match ty {
        StorageType::Val(ty) => value_is_below(bound, ty),
        StorageType::I8 | StorageType::I16 => true,
    }
}

#[tactic(auto, using(crate::proofs::PartsBelow::field_below))]
fn field_is_below(bound: usize, field: &FieldType) -> bool
    ensures { IsTrue result ↔ FieldIsBelow bound (field_of field.now) }
{
    storage_is_below(bound, &field.element_type)
}

fn values_are_below(bound: usize, types: &[ValType]) -> bool
    ensures { IsTrue result ↔ All (ValueIsBelow bound) (map value_of types.now) }
{
    types.iter().all(|ty| value_is_below(bound, ty))
}

fn fields_are_below(bound: usize, fields: &[FieldType]) -> bool
    ensures { IsTrue result ↔ All (FieldIsBelow bound) (map field_of fields.now) }
{
    fields.iter().all(|field| field_is_below(bound, field))
}

#[tactic(auto, using(crate::proofs::PartsBelow::function_below))]
fn function_is_below(bound: usize, function: &FuncType) -> bool
    ensures { IsTrue result ↔ KindIsBelow bound (Func (function_of function.now)) }
{
    values_are_below(bound, &function.params) && values_are_below(bound, &function.results)
}

#[tactic(auto, using(crate::proofs::PartsBelow::array_below, crate::proofs::PartsBelow::struct_below, crate::proofs::PartsBelow::cont_below))]
fn kind_is_below(bound: usize, kind: &CompositeInnerType) -> bool
    ensures { IsTrue result ↔ KindIsBelow bound (composite_of kind.now) }
{
    match kind {
        CompositeInnerType::Func(function) => function_is_below(bound, function),
        CompositeInnerType::Array(field) => field_is_below(bound, field),
        CompositeInnerType::Struct(fields) => fields_are_below(bound, fields),
        CompositeInnerType::Cont(function) => is_below(bound, function),
    }
}

fn supertype_is_below(bound: usize, ty: &SubType) -> bool
    ensures { IsTrue result ↔ IfSome (sub_type_of ty.now).supertype (IsBelow bound) }
{
    match &ty.supertype {
        Some(index) => is_below(bound, index),
        None => true,
    }
}

/// Whether a type names only types before the end of its group, and has a supertype before itself.
pub fn names_below(end: usize, index: usize, ty: &SubType) -> bool
    ensures { IsTrue result ↔ NamesBelow (record { type = sub_type_of ty.now; index = index; group_end = end }) }
{
    kind_is_below(end, &ty.composite) && supertype_is_below(index, ty)
}

/// Whether the members of a group, the first with the index `start`, name only types before its
/// end, and have supertypes before themselves. `named` is what they name.
///
/// Most groups name no type, so what they name is asked rather than their lists of values.
pub fn members_name_below(start: usize, types: &[SubType], named: &[UnpackedIndex]) -> bool
    requires few { start + length types.now < 2 ^ 30 }
    requires named { named.now ≡ group_edges (λ i. i) (map sub_type_of types.now) }
    ensures { IsTrue result ↔ All NamesBelow (declared_from (start + length types.now) start (map sub_type_of types.now)) }
{
    let end = start + types.len();
    are_below(end, named) && supertypes_are_below(start, types)
}

fn are_below(bound: usize, named: &[UnpackedIndex]) -> bool
    ensures { IsTrue result ↔ All (IsBelow bound) named.now }
{
    named.iter().all(|index| is_below(bound, index))
}

/// Whether each member of a group, the first with the index `start`, has a supertype before itself, if any.
fn supertypes_are_below(start: usize, types: &[SubType]) -> bool
    requires { start + length types.now < 2 ^ 30 }
    ensures { IsTrue result ↔ All HasSupertypeBelow (declared_from (start + length types.now) start (map sub_type_of types.now)) }
{
    let mut index = start;
    let mut left = types;
    while let Some((first, others)) = left.split_first() {
        if !supertype_is_below(index, first) {
            return false;
        }
        index += 1;
        left = others;
    }
    true
}
