//! Classes and defaults of types.

ghost use Rattle.std.specs.Prelude.{◌≡◌, ◌↔◌, All, IsTrue, IfOk, false};
ghost use Rattle.std.specs.Option.{option_map, unwrap_or};
ghost use Rattle.wasm_spec.specs.TypeData.{value_of, field_of};
ghost use Rattle.form_reader.specs.Views.{composite_of};
ghost use Rattle.rule_spec.specs.Lists.{kind_at};
ghost use Rattle.rule_spec.specs.Typing.{class_of, field_class, value_has_default, has_default};
ghost use Rattle.form_rules.specs.Views.{lists_of};
ghost use Rattle.form_rules.specs.Defaults.{defaults_of, defaults as defaults_of_types};

use crate::lists::Lists;
use form_reader::CompositeInnerType;
use rule_spec::Class;
use std::alloc::{AllocError, Global};
use wasm_spec::{FieldType, StorageType, ValType};

/// The class of the values of a type.
pub fn class_of(ty: &ValType) -> Class
    ensures { result ≡ class_of (value_of ty.now) }
{
    match ty {
        ValType::I32 => Class::I32,
        ValType::I64 => Class::I64,
        ValType::F32 => Class::F32,
        ValType::F64 => Class::F64,
        ValType::V128 => Class::V128,
        ValType::Ref(_) => Class::Ref,
    }
}

/// The class of what a field or an element is made of.
pub fn field_class(field: &FieldType) -> Class
    ensures { result ≡ field_class (field_of field.now) }
{
    match &field.element_type {
        // A packed value is an i32 on the stack.
        StorageType::I8 | StorageType::I16 => Class::I32,
        StorageType::Val(ty) => class_of(ty),
    }
}

fn value_has_default(ty: &ValType) -> bool
    ensures { result ≡ value_has_default (value_of ty.now) }
{
    match ty {
        ValType::Ref(reference) => reference.nullable,
        ValType::I32 | ValType::I64 | ValType::F32 | ValType::F64 | ValType::V128 => true,
    }
}

/// Whether a field or an element has a default.
pub fn has_default(field: &FieldType) -> bool
    ensures { result ≡ has_default (field_of field.now) }
{
    match &field.element_type {
        StorageType::I8 | StorageType::I16 => true,
        StorageType::Val(ty) => value_has_default(ty),
    }
}

fn all_have_defaults(fields: &[FieldType]) -> bool
    ensures { IsTrue result ↔ All (λ f. IsTrue (has_default (field_of f))) fields.now }
{
    fields.iter().all(has_default)
}

/// Whether the type is a struct type of which each field has a default.
fn kind_has_defaults(kind: &CompositeInnerType) -> bool
    ensures { result ≡ defaults_of (composite_of kind.now) }
{
    match kind {
        CompositeInnerType::Struct(fields) => all_have_defaults(fields),
        CompositeInnerType::Func(_) | CompositeInnerType::Array(_) | CompositeInnerType::Cont(_) =>
            false,
    }
}

/// Whether the declared type that has this index is a struct type of which each field has a default.
fn type_has_defaults(lists: &Lists<'_, '_>, index: u32) -> bool
    ensures { result ≡ unwrap_or (option_map defaults_of (kind_at (lists_of lists.now) index)) false }
{
    match lists.kind_at(index) {
        Some(kind) => kind_has_defaults(kind),
        None => false,
    }
}

/// Of each declared type, whether it is a struct type of which each field has a default.
///
/// Each type is checked once, however many expressions name it.
pub fn struct_defaults(alloc: Global, lists: &Lists<'_, '_>) -> Result<Vec<bool>, AllocError>
    ensures { IfOk result (λ defaults. defaults.items ≡ defaults_of_types (lists_of lists.now)) }
{
    let mut defaults = Vec::new(alloc);
    for index in 0..lists.types.count() {
        defaults.push(type_has_defaults(lists, index))?;
    }
    Ok(defaults)
}

/// What the typing of expressions asks: the lists of a module, and which of its types are struct
/// types of which each field has a default.
#[derive(Clone, Copy)]
pub struct Typing<'l, 'f, 'd> {
    pub lists: &'l Lists<'f, 'd>,
    /// The `struct_defaults` of the lists.
    pub defaults: &'l [bool],
    pub ghost of_lists: { defaults.now ≡ defaults_of_types (lists_of lists.now) },
}
