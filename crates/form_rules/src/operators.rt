//! What each operator takes and pushes.

ghost use Rattle.std.specs.Prelude.{◌≡◌, ◌∷◌, [], map, replicate, length, slice_get, nat_lt};
ghost use Rattle.std.specs.Option.{option_and_then, option_map};
ghost use Rattle.wasm_spec.specs.TypeData.{field_of};
ghost use Rattle.wasm_spec.specs.declared.operators.Operator.TheVariants as op;
ghost use Rattle.form_reader.specs.Views.{composite_of};
ghost use Rattle.rule_spec.specs.declared.classes.Class.TheVariants as class;
ghost use Rattle.rule_spec.specs.Lists.{kind_at};
ghost use Rattle.rule_spec.specs.Typing.{has_default, field_class, struct_fields, struct_at, array_field, array_at, signature, gives, joins, refers_to, where_true, global_signature};
ghost use Rattle.form_rules.specs.Views.{lists_of};
ghost use Rattle.form_rules.specs.Stack.{Taken};
ghost use Rattle.form_rules.specs.Defaults.{default_signature};

use crate::classes::{Typing, class_of, field_class, has_default};
use crate::lists::Lists;
use crate::stack::{pop, pop_fields, pop_many, pop_two};
use form_reader::CompositeInnerType;
use rule_spec::Class;
use wasm_spec::{FieldType, GlobalType, Operator};

// ---- what indices name

fn struct_fields(kind: &CompositeInnerType) -> Option<&[FieldType]>
    ensures { option_map (λ fields. map field_of fields.now) result ≡ struct_fields (composite_of kind.now) }
{
    match kind {
        CompositeInnerType::Struct(fields) => Some(fields.as_slice()),
        CompositeInnerType::Func(_) | CompositeInnerType::Array(_) | CompositeInnerType::Cont(_) =>
            None,
    }
}

/// The fields of a struct type, in which references may have other names.
fn struct_at<'f>(lists: &Lists<'f, '_>, index: u32) -> Option<&'f [FieldType]>
    ensures { option_map (λ fields. map field_class (map field_of fields.now)) result ≡ option_map (map field_class) (struct_at (lists_of lists.now) index) }
{
    match lists.kind_at(index) {
        Some(kind) => struct_fields(kind),
        None => None,
    }
}

fn array_field(kind: &CompositeInnerType) -> Option<FieldType>
    ensures { option_map field_of result ≡ array_field (composite_of kind.now) }
{
    match kind {
        CompositeInnerType::Array(field) => Some(*field),
        CompositeInnerType::Func(_) | CompositeInnerType::Struct(_) | CompositeInnerType::Cont(_) =>
            None,
    }
}

/// The elements of an array type, in which references may have other names.
fn array_at(lists: &Lists<'_, '_>, index: u32) -> Option<FieldType>
    ensures class { option_map (λ field. field_class (field_of field)) result ≡ option_map field_class (array_at (lists_of lists.now) index) }
    ensures default { option_map (λ field. has_default (field_of field)) result ≡ option_map has_default (array_at (lists_of lists.now) index) }
{
    match lists.kind_at(index) {
        Some(kind) => array_field(kind),
        None => None,
    }
}

// ---- signatures of one form

/// Pops two values of a class, and returns the class.
fn join(stack: &mut Vec<Class>, class: Class) -> Option<Class>
    ensures { Taken (joins class) stack.old.items stack.new.items result }
{
    if pop_two(stack, class, class) {
        Some(class)
    } else {
        None
    }
}

/// Pops a value, and returns the class of references.
fn refer_to_one(stack: &mut Vec<Class>, class: Class) -> Option<Class>
    ensures { Taken (refers_to (class ∷ [])) stack.old.items stack.new.items result }
{
    if pop(stack, class) {
        Some(Class::Ref)
    } else {
        None
    }
}

fn refer_to_two(stack: &mut Vec<Class>, first: Class, second: Class) -> Option<Class>
    ensures { Taken (refers_to (first ∷ second ∷ [])) stack.old.items stack.new.items result }
{
    if pop_two(stack, first, second) {
        Some(Class::Ref)
    } else {
        None
    }
}

fn refer_to_fields(stack: &mut Vec<Class>, fields: &[FieldType]) -> Option<Class>
    ensures { Taken (refers_to (map field_class (map field_of fields.now))) stack.old.items stack.new.items result }
{
    if pop_fields(stack, fields) {
        Some(Class::Ref)
    } else {
        None
    }
}

fn refer_to_many(stack: &mut Vec<Class>, count: u32, class: Class) -> Option<Class>
    ensures { Taken (refers_to (replicate count class)) stack.old.items stack.new.items result }
{
    if pop_many(stack, count, class) {
        Some(Class::Ref)
    } else {
        None
    }
}

// ---- operators that name something

/// The value of a visible global, which must be immutable.
fn global_get(visible: &[GlobalType], index: u32) -> Option<Class>
    ensures { option_and_then gives result ≡ option_and_then global_signature (slice_get visible.now index) }
{
    match visible.get(index as usize) {
        Some(global) => global_value(global),
        None => None,
    }
}

fn global_value(global: &GlobalType) -> Option<Class>
    ensures { option_and_then gives result ≡ global_signature global.now }
{
    if global.mutable {
        return None;
    }
    Some(class_of(&global.content_type))
}

fn ref_func(lists: &Lists<'_, '_>, function: u32) -> Option<Class>
    ensures { option_and_then gives result ≡ where_true (nat_lt function (length lists.now.spaces.functions.items)) (refers_to []) }
{
    if (function as usize) < lists.spaces.functions.len() {
        Some(Class::Ref)
    } else {
        None
    }
}

fn struct_new(lists: &Lists<'_, '_>, ty: u32, stack: &mut Vec<Class>) -> Option<Class>
    ensures { Taken (option_and_then (λ fields. refers_to (map field_class fields)) (struct_at (lists_of lists.now) ty))
        stack.old.items stack.new.items result }
{
    match struct_at(lists, ty) {
        Some(fields) => refer_to_fields(stack, fields),
        None => None,
    }
}

fn array_new(lists: &Lists<'_, '_>, ty: u32, stack: &mut Vec<Class>) -> Option<Class>
    ensures { Taken (option_and_then (λ field. refers_to (field_class field ∷ class.I32 ∷ [])) (array_at (lists_of lists.now) ty))
        stack.old.items stack.new.items result }
{
    match array_at(lists, ty) {
        Some(field) => refer_to_two(stack, field_class(&field), Class::I32),
        None => None,
    }
}

fn array_new_default(lists: &Lists<'_, '_>, ty: u32, stack: &mut Vec<Class>) -> Option<Class>
    ensures { Taken (option_and_then (λ field. where_true (has_default field) (refers_to (class.I32 ∷ []))) (array_at (lists_of lists.now) ty))
        stack.old.items stack.new.items result }
{
    match array_at(lists, ty) {
        Some(field) => default_array(&field, stack),
        None => None,
    }
}

fn default_array(field: &FieldType, stack: &mut Vec<Class>) -> Option<Class>
    ensures { Taken (where_true (has_default (field_of field.now)) (refers_to (class.I32 ∷ []))) stack.old.items stack.new.items result }
{
    if has_default(field) {
        refer_to_one(stack, Class::I32)
    } else {
        None
    }
}

fn array_new_fixed(
    lists: &Lists<'_, '_>,
    ty: u32,
    count: u32,
    stack: &mut Vec<Class>,
) -> Option<Class>
    ensures { Taken (option_and_then (λ field. refers_to (replicate count (field_class field))) (array_at (lists_of lists.now) ty))
        stack.old.items stack.new.items result }
{
    match array_at(lists, ty) {
        Some(field) => refer_to_many(stack, count, field_class(&field)),
        None => None,
    }
}

/// The fields are not checked again: `struct_defaults` checked those of each type.
fn struct_new_default(typing: &Typing<'_, '_, '_>, ty: u32) -> Option<Class>
    ensures { option_and_then gives result ≡ default_signature (kind_at (lists_of typing.now.lists.now) ty) }
{
    match typing.defaults.get(ty as usize) {
        Some(true) => Some(Class::Ref),
        _ => None,
    }
}

// ---- all operators

/// Pops what the operator takes, and returns the class of what it pushes.
pub fn take_operands(
    typing: &Typing<'_, '_, '_>,
    visible: &[GlobalType],
    op: &Operator,
    stack: &mut Vec<Class>,
) -> Option<Class>
    ensures { Taken (signature (lists_of typing.now.lists.now) visible.now op.now) stack.old.items stack.new.items result }
{
    let lists = typing.lists;
    match op {
        Operator::I32Const { .. } => Some(Class::I32),
        Operator::I64Const { .. } => Some(Class::I64),
        Operator::F32Const { .. } => Some(Class::F32),
        Operator::F64Const { .. } => Some(Class::F64),
        Operator::V128Const { .. } => Some(Class::V128),
        Operator::RefNull { .. } => Some(Class::Ref),
        Operator::I32Add | Operator::I32Sub | Operator::I32Mul => join(stack, Class::I32),
        Operator::I64Add | Operator::I64Sub | Operator::I64Mul => join(stack, Class::I64),
        Operator::RefI31 => refer_to_one(stack, Class::I32),
        Operator::ExternConvertAny | Operator::AnyConvertExtern => refer_to_one(stack, Class::Ref),
        Operator::GlobalGet { global_index } => global_get(visible, *global_index),
        Operator::RefFunc { function_index } => ref_func(lists, *function_index),
        Operator::StructNew { struct_type_index } => struct_new(lists, *struct_type_index, stack),
        Operator::StructNewDefault { struct_type_index } => {
            struct_new_default(typing, *struct_type_index)
        }
        Operator::ArrayNew { array_type_index } => array_new(lists, *array_type_index, stack),
        Operator::ArrayNewDefault { array_type_index } => {
            array_new_default(lists, *array_type_index, stack)
        }
        Operator::ArrayNewFixed {
            array_type_index,
            array_size,
        } => array_new_fixed(lists, *array_type_index, *array_size, stack),
    }
}
