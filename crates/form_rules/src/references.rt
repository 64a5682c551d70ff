//! Concrete references outside the type section (core specification, 3.2).

ghost use Rattle.std.specs.Prelude.{◌↔◌, map, length, All, IsTrue};
ghost use Rattle.std.specs.List.{flat_map};
ghost use Rattle.wasm_spec.specs.TypeData.{heap_of};
ghost use Rattle.wasm_spec.specs.Module.{imports, segments, tables_of_section, globals_of_section, elements_of_section, bodies_of_section};
ghost use Rattle.form_reader.specs.Views.{table_of, global_of, element_of, element_kind_of, items_of, body_of, data_kind_of, expression_of};
ghost use Rattle.rule_spec.specs.References.{RefersIn, ValueRefersIn, ImportRefersIn, OperatorRefersIn, ExpressionRefersIn, TableRefersIn, GlobalRefersIn, ElementKindRefersIn, ItemsReferIn, ElementRefersIn, BodyRefersIn, DataKindRefersIn, AllReferIn};
ghost use Rattle.form_rules.specs.Source.{source_module};
ghost use Rattle.form_rules.specs.Views.{lists_of};

use crate::{Lists, entries_of};
use form_reader::{
    ConstExpr, DataKind, Element, ElementItems, ElementKind, FunctionBody, GlobalDef, Import,
    TableDef,
};
use form_types::{heap_is_below, value_is_below};
use wasm_spec::{Operator, TypeRef};

/// Whether each concrete reference outside the type section names one of the declared types.
/// `globals_refer`, `elements_refer` and `segments_refer` are the results for globals and segments,
/// by `global_refers`, `element_refers` and `data_kind_refers` of each.
pub fn references_hold(
    lists: &Lists<'_, '_>,
    globals_refer: bool,
    elements_refer: bool,
    segments_refer: bool,
) -> bool
    requires globals { IsTrue globals_refer
        ↔ All (GlobalRefersIn (length lists.now.types)) (flat_map globals_of_section (source_module lists.now.source)) }
    requires elements { IsTrue elements_refer
        ↔ All (ElementRefersIn (length lists.now.types)) (flat_map elements_of_section (source_module lists.now.source)) }
    requires segments { IsTrue segments_refer
        ↔ All (λ s. DataKindRefersIn (length lists.now.types) s.kind) (segments (source_module lists.now.source)) }
    ensures { IsTrue result ↔ AllReferIn (length lists.now.types) (lists_of lists.now) }
{
    let types = lists.types.count() as usize;
    globals_refer
        && elements_refer
        && segments_refer
        && imports_refer(types, lists)
        && tables_refer(types, lists)
        && bodies_refer(types, lists)
}

// ---- expressions

fn operator_refers(types: usize, op: &Operator) -> bool
    ensures { IsTrue result ↔ OperatorRefersIn types op.now }
{
    match op {
        Operator::RefNull { hty } => heap_is_below(types, hty),
        _ => true,
    }
}

fn expression_refers(types: usize, expression: &ConstExpr) -> bool
    ensures { IsTrue result ↔ ExpressionRefersIn types (expression_of expression.now) }
{
    expression.ops.iter().all(|op| operator_refers(types, op))
}

fn all_expressions_refer(types: usize, expressions: &[ConstExpr]) -> bool
    ensures { IsTrue result ↔ All (ExpressionRefersIn types) (map expression_of expressions.now) }
{
    expressions
        .iter()
        .all(|expression| expression_refers(types, expression))
}

// ---- imports

fn imports_refer(types: usize, lists: &Lists<'_, '_>) -> bool
    ensures { IsTrue result ↔ All (λ i. ImportRefersIn types i.type) (imports (source_module lists.now.source)) }
{
    entries_of::<Import<'_>>(lists.source).all(|import| import_refers(types, &import.ty))
}

/// Whether the types that an import names are below a bound.
pub fn import_refers(types: usize, ty: &TypeRef) -> bool
    ensures { IsTrue result ↔ ImportRefersIn types ty.now }
{
    match ty {
        TypeRef::Table(table) => heap_is_below(types, &table.element_type.heap),
        TypeRef::Global(global) => value_is_below(types, &global.content_type),
        TypeRef::Func(_) | TypeRef::Memory(_) | TypeRef::Tag(_) => true,
    }
}

// ---- tables and globals

fn tables_refer(types: usize, lists: &Lists<'_, '_>) -> bool
    ensures { IsTrue result
        ↔ All (TableRefersIn types) (flat_map tables_of_section (source_module lists.now.source)) }
{
    entries_of::<TableDef>(lists.source).all(|table| table_refers(types, table))
}

/// Whether the concrete references of a table are below a bound.
pub fn table_refers(types: usize, table: &TableDef) -> bool
    ensures { IsTrue result ↔ TableRefersIn types (table_of table.now) }
{
    if !heap_is_below(types, &table.ty.element_type.heap) {
        return false;
    }
    match &table.init {
        Some(init) => expression_refers(types, init),
        None => true,
    }
}

/// Whether the concrete references of a global are below a bound.
pub fn global_refers(types: usize, global: &GlobalDef) -> bool
    ensures { IsTrue result ↔ GlobalRefersIn types (global_of global.now) }
{
    value_is_below(types, &global.ty.content_type) && expression_refers(types, &global.init)
}

// ---- element segments

/// Whether the concrete references of an element segment are below a bound.
pub fn element_refers(types: usize, element: &Element) -> bool
    ensures { IsTrue result ↔ ElementRefersIn types (element_of element.now) }
{
    element_kind_refers(types, &element.kind) && items_refer(types, &element.items)
}

fn element_kind_refers(types: usize, kind: &ElementKind) -> bool
    ensures { IsTrue result ↔ ElementKindRefersIn types (element_kind_of kind.now) }
{
    match kind {
        ElementKind::Passive | ElementKind::Declared => true,
        ElementKind::Active { offset, .. } => expression_refers(types, offset),
    }
}

fn items_refer(types: usize, items: &ElementItems) -> bool
    ensures { IsTrue result ↔ ItemsReferIn types (items_of items.now) }
{
    match items {
        ElementItems::Functions(_) => true,
        ElementItems::Expressions(ty, list) => {
            heap_is_below(types, &ty.heap) && all_expressions_refer(types, list)
        }
    }
}

// ---- bodies and data segments

fn bodies_refer(types: usize, lists: &Lists<'_, '_>) -> bool
    ensures { IsTrue result
        ↔ All (BodyRefersIn types) (flat_map bodies_of_section (source_module lists.now.source)) }
{
    entries_of::<FunctionBody<'_>>(lists.source).all(|body| body_refers(types, body))
}

/// Whether the concrete references of the locals of a body are below a bound.
pub fn body_refers(types: usize, body: &FunctionBody<'_>) -> bool
    ensures { IsTrue result ↔ BodyRefersIn types (body_of body.now) }
{
    body.locals.iter().all(|run| value_is_below(types, &run.1))
}

/// Whether the concrete references of a data segment are below a bound.
pub fn data_kind_refers(types: usize, kind: &DataKind) -> bool
    ensures { IsTrue result ↔ DataKindRefersIn types (data_kind_of kind.now) }
{
    match kind {
        DataKind::Passive => true,
        DataKind::Active { offset, .. } => expression_refers(types, offset),
    }
}
