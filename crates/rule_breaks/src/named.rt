//! The type indices that an entry names, and the first that is not below a bound.

ghost use Rattle.std.specs.Prelude.{◌↔◌, ◌∷◌, [], map, IsTrue};
ghost use Rattle.std.specs.List.{flat_map};
ghost use Rattle.wasm_spec.specs.TypeData.{field_edges, composite_edges, field_of};
ghost use Rattle.form_reader.specs.Views.{expression_of, composite_of, table_of, global_of, element_of, element_kind_of, items_of, body_of, data_kind_of};
ghost use Rattle.rule_spec.specs.TypeRules.{IsBelow};
ghost use Rattle.rule_breaks.specs.Named.{heap_types, value_types, operator_types, expression_types, import_types, table_types, global_types, offset_types, item_types, element_types, body_types, segment_types};
ghost use Rattle.rule_breaks.specs.Faults.{IsNoType};
ghost use Rattle.rule_breaks.specs.Past.{FindsPast};

use crate::fault::{IndexSpace, RuleFault};
use form_reader::{
    CompositeInnerType, ConstExpr, DataKind, Element, ElementItems, ElementKind, FuncType,
    FunctionBody, GlobalDef, TableDef,
};
use wasm_spec::{FieldType, HeapType, Operator, StorageType, TypeRef, UnpackedIndex, ValType};

/// What names types.
trait NamesTypes: Sized {
    ghost use Rattle.std.specs.Prelude.{List};
    ghost use Rattle.wasm_spec.specs.declared.types.UnpackedIndex.{UnpackedIndex};

    ghost named: { Self → List UnpackedIndex };

    /// The first type index that is not below a bound.
    fn past(&self, bound: usize) -> Option<UnpackedIndex>
        ensures { FindsPast bound (named self.now) result };
}

/// The first type index that is not below a bound, of things in order.
fn first_past<T: NamesTypes>(bound: usize, things: &[T]) -> Option<UnpackedIndex>
    ensures { FindsPast bound (flat_map T.named things.now) result }
{
    let mut left = things;
    while let Some((first, others)) = left.split_first() {
        if let Some(index) = first.past(bound) {
            return Some(index);
        }
        left = others;
    }
    None
}

// ---- types

fn is_below(bound: usize, index: &UnpackedIndex) -> bool
    ensures { IsTrue result ↔ IsBelow bound index.now }
{
    match index {
        UnpackedIndex::Module(index) => (*index as usize) < bound,
        UnpackedIndex::RecGroup(_) | UnpackedIndex::Id(_) => false,
    }
}

/// The index where it is not below a bound.
pub(crate) fn index_past(bound: usize, index: &UnpackedIndex) -> Option<UnpackedIndex>
    ensures { FindsPast bound (index.now ∷ []) result }
{
    if is_below(bound, index) {
        return None;
    }
    Some(*index)
}

fn heap_past(bound: usize, heap: &HeapType) -> Option<UnpackedIndex>
    ensures { FindsPast bound (heap_types heap.now) result }
{
    match heap {
        HeapType::Concrete(index) => index_past(bound, index),
        HeapType::Abstract(_) => None,
    }
}

impl NamesTypes for ValType {
    ghost named = { value_types };

    fn past(&self, bound: usize) -> Option<UnpackedIndex> {
        match self {
            ValType::Ref(reference) => heap_past(bound, &reference.heap),
            ValType::I32 | ValType::I64 | ValType::F32 | ValType::F64 | ValType::V128 => None,
        }
    }
}

impl NamesTypes for FieldType {
    ghost named = { λ f. field_edges (λ i. i) (field_of f) };

    fn past(&self, bound: usize) -> Option<UnpackedIndex> {
        match &self.element_type {
            StorageType::Val(ty) => ty.past(bound),
            StorageType::I8 | StorageType::I16 => None,
        }
    }
}

/// The first type index of a function type that is not below a bound.
fn function_past(bound: usize, function: &FuncType) -> Option<UnpackedIndex>
    ensures { FindsPast bound (composite_edges (λ i. i) (composite_of (CompositeInnerType.Func function.now))) result }
{
    if let Some(index) = first_past(bound, &function.params) {
        return Some(index);
    }
    first_past(bound, &function.results)
}

/// The first type index of a composite type that is not below a bound.
pub(crate) fn kind_past(bound: usize, kind: &CompositeInnerType) -> Option<UnpackedIndex>
    ensures { FindsPast bound (composite_edges (λ i. i) (composite_of kind.now)) result }
{
    match kind {
        CompositeInnerType::Func(function) => function_past(bound, function),
        CompositeInnerType::Array(field) => field.past(bound),
        CompositeInnerType::Struct(fields) => first_past(bound, fields),
        CompositeInnerType::Cont(function) => index_past(bound, function),
    }
}

// ---- expressions

impl NamesTypes for Operator {
    ghost named = { operator_types };

    fn past(&self, bound: usize) -> Option<UnpackedIndex> {
        match self {
            Operator::RefNull { hty } => heap_past(bound, hty),
            _ => None,
        }
    }
}

fn expression_past(bound: usize, expression: &ConstExpr) -> Option<UnpackedIndex>
    ensures { FindsPast bound (expression_types (expression_of expression.now)) result }
{
    first_past(bound, &expression.ops)
}

fn expressions_past(bound: usize, expressions: &[ConstExpr]) -> Option<UnpackedIndex>
    ensures { FindsPast bound (flat_map expression_types (map expression_of expressions.now)) result }
{
    let mut left = expressions;
    while let Some((first, others)) = left.split_first() {
        if let Some(index) = expression_past(bound, first) {
            return Some(index);
        }
        left = others;
    }
    None
}

// ---- entries

/// The first type index of an import's references that is not below a bound.
pub(crate) fn import_past(bound: usize, ty: &TypeRef) -> Option<UnpackedIndex>
    ensures { FindsPast bound (import_types ty.now) result }
{
    match ty {
        TypeRef::Table(table) => heap_past(bound, &table.element_type.heap),
        TypeRef::Global(global) => global.content_type.past(bound),
        TypeRef::Func(_) | TypeRef::Memory(_) | TypeRef::Tag(_) => None,
    }
}

/// The first type index of a table's references that is not below a bound.
pub(crate) fn table_past(bound: usize, table: &TableDef) -> Option<UnpackedIndex>
    ensures { FindsPast bound (table_types (table_of table.now)) result }
{
    if let Some(index) = heap_past(bound, &table.ty.element_type.heap) {
        return Some(index);
    }
    match &table.init {
        Some(init) => expression_past(bound, init),
        None => None,
    }
}

/// The first type index of a global's references that is not below a bound.
pub(crate) fn global_past(bound: usize, global: &GlobalDef) -> Option<UnpackedIndex>
    ensures { FindsPast bound (global_types (global_of global.now)) result }
{
    if let Some(index) = global.ty.content_type.past(bound) {
        return Some(index);
    }
    expression_past(bound, &global.init)
}

fn offset_past(bound: usize, kind: &ElementKind) -> Option<UnpackedIndex>
    ensures { FindsPast bound (offset_types (element_kind_of kind.now)) result }
{
    match kind {
        ElementKind::Passive | ElementKind::Declared => None,
        ElementKind::Active { offset, .. } => expression_past(bound, offset),
    }
}

fn items_past(bound: usize, items: &ElementItems) -> Option<UnpackedIndex>
    ensures { FindsPast bound (item_types (items_of items.now)) result }
{
    match items {
        ElementItems::Functions(_) => None,
        ElementItems::Expressions(ty, list) => {
            if let Some(index) = heap_past(bound, &ty.heap) {
                return Some(index);
            }
            expressions_past(bound, list)
        }
    }
}

/// The first type index of an element segment's references that is not below a bound.
pub(crate) fn element_past(bound: usize, element: &Element) -> Option<UnpackedIndex>
    ensures { FindsPast bound (element_types (element_of element.now)) result }
{
    if let Some(index) = offset_past(bound, &element.kind) {
        return Some(index);
    }
    items_past(bound, &element.items)
}

impl NamesTypes for (u32, ValType) {
    ghost named = { λ run. value_types run.1 };

    fn past(&self, bound: usize) -> Option<UnpackedIndex> {
        self.1.past(bound)
    }
}

/// The first type index of a body's locals that is not below a bound.
pub(crate) fn body_past(bound: usize, body: &FunctionBody<'_>) -> Option<UnpackedIndex>
    ensures { FindsPast bound (body_types (body_of body.now)) result }
{
    first_past(bound, &body.locals)
}

/// The first type index of a data segment's offset that is not below a bound.
pub(crate) fn segment_past(bound: usize, kind: &DataKind) -> Option<UnpackedIndex>
    ensures { FindsPast bound (segment_types (data_kind_of kind.now)) result }
{
    match kind {
        DataKind::Passive => None,
        DataKind::Active { offset, .. } => expression_past(bound, offset),
    }
}

/// The fault of an index that is not below the number of types.
pub(crate) fn no_type(types: u32, index: UnpackedIndex) -> RuleFault
    requires { ¬ IsBelow types index }
    ensures { IsNoType types index result }
{
    match index {
        UnpackedIndex::Module(index) => RuleFault::NoSuchEntry {
            space: IndexSpace::Types,
            index,
            count: u64::from(types),
        },
        UnpackedIndex::RecGroup(_) | UnpackedIndex::Id(_) => RuleFault::ForeignIndex,
    }
}
