//! Element segments as rows.

ghost use Rattle.std.specs.Prelude.{◌≡◌, ℕ, ◌+◌, ◌++◌, List, [], ◌∷◌, length, map, IfOk, OnOk};
ghost use Rattle.std.specs.List.{flat_map};
ghost use Rattle.wasm_spec.specs.Module as plain;
ghost use Rattle.wasm_spec.specs.Module.{Expression, elements_of_section};
ghost use Rattle.form_reader.specs.Views.{expression_of, element_kind_of, items_of, element_of, payload_of};
ghost use Rattle.segment_tables.specs.Expressions.{HasExpressions};
ghost use Rattle.segment_tables.specs.Elements.{kind_number, table_number, offsets_in, offset_number, item_type, expressed_bit, functions_in, expressions_in, element_expressions, element_row, HasElements};

use crate::expressions::{ExpressionRows, push_expression, push_expressions};
use crate::segment_rows::ElementSegmentRow;
use entity_map::OutOfMemory;
use form_reader::{ConstExpr, Element, ElementItems, ElementKind, Payload};
use plan_tables::{Span, read_ref_row};
use std::alloc::Global;
use wasm_spec::{AbstractHeapType, HeapType, RefType};

/// A nullable reference to a function.
const FUNCREF: RefType = RefType {
    nullable: true,
    heap: HeapType::Abstract(AbstractHeapType::Func),
};

/// The rows of element segments, while there are more to come.
#[derive(Drop)]
pub(crate) struct ElementRows {
    pub rows: Vec<ElementSegmentRow>,
    pub functions: Vec<u32>,
}

fn kind_number(kind: &ElementKind) -> u32
    ensures { result ≡ kind_number (element_kind_of kind.now) }
{
    match kind {
        ElementKind::Passive => 0,
        ElementKind::Active { .. } => 1,
        ElementKind::Declared => 2,
    }
}

fn table_number(kind: &ElementKind) -> u32
    ensures { result ≡ table_number (element_kind_of kind.now) }
{
    match kind {
        ElementKind::Active { table_index, .. } => table_index.unwrap_or(0),
        _ => 0,
    }
}

/// Appends the offset of an active segment, and gives its number.
fn push_offset(rows: &mut ExpressionRows, kind: &ElementKind) -> Result<usize, OutOfMemory>
    ensures pushed { OnOk result ((es : List Expression) → HasExpressions es rows.old → HasExpressions (es ++ offsets_in (element_kind_of kind.now)) rows.new) }
    ensures number { IfOk result (λ number. (es : List Expression) → HasExpressions es rows.old → number ≡ offset_number (length es) (element_kind_of kind.now)) }
{
    match kind {
        ElementKind::Active { offset, .. } => {
            let number = rows.parts.len();
            push_expression(rows, offset)?;
            Ok(number)
        }
        _ => Ok(0),
    }
}

fn item_type(items: &ElementItems) -> RefType
    ensures { result ≡ item_type (items_of items.now) }
{
    match items {
        ElementItems::Functions(_) => FUNCREF,
        ElementItems::Expressions(ty, _) => *ty,
    }
}

fn expressed_bit(items: &ElementItems) -> u32
    ensures { result ≡ expressed_bit (items_of items.now) }
{
    match items {
        ElementItems::Functions(_) => 0,
        ElementItems::Expressions(..) => 1,
    }
}

fn functions_in(items: &ElementItems) -> &[u32]
    ensures { result.now ≡ functions_in (items_of items.now) }
{
    match items {
        ElementItems::Functions(functions) => functions.as_slice(),
        ElementItems::Expressions(..) => &[],
    }
}

fn expressions_in(items: &ElementItems) -> &[ConstExpr]
    ensures { map expression_of result.now ≡ expressions_in (items_of items.now) }
{
    match items {
        ElementItems::Functions(_) => &[],
        ElementItems::Expressions(_, expressions) => expressions.as_slice(),
    }
}

/// The row of a segment whose functions begin at a place, its offset at another, and its items that
/// are expressions at a third.
fn element_row(
    functions: usize,
    offset: usize,
    items: usize,
    element: &Element,
) -> ElementSegmentRow
    ensures { (n : ℕ) → offset ≡ offset_number n (element_of element.now).kind → items ≡ n + length (offsets_in (element_of element.now).kind)
        → result ≡ element_row functions n (element_of element.now) }
{
    ElementSegmentRow {
        kind: kind_number(&element.kind),
        table: table_number(&element.kind),
        offset,
        element: read_ref_row(item_type(&element.items)),
        expressed: expressed_bit(&element.items),
        functions: Span {
            begin: functions,
            len: functions_in(&element.items).len(),
        },
        expressions: Span {
            begin: items,
            len: expressions_in(&element.items).len(),
        },
    }
}

/// Appends an element segment.
fn push_element(
    out: &mut ElementRows,
    rows: &mut ExpressionRows,
    element: &Element,
) -> Result<(), OutOfMemory>
    ensures { OnOk result ((es : List plain.Element) → HasElements es out.old rows.old → HasElements (es ++ element_of element.now ∷ []) out.new rows.new) }
{
    let offset = push_offset(rows, &element.kind)?;
    let row = element_row(out.functions.len(), offset, rows.parts.len(), element);
    out.rows.push(row)?;
    push_functions(&mut out.functions, functions_in(&element.items))?;
    push_expressions(rows, expressions_in(&element.items))?;
    Ok(())
}

fn push_functions(rows: &mut Vec<u32>, functions: &[u32]) -> Result<(), OutOfMemory>
    ensures { OnOk result (rows.new.items ≡ rows.old.items ++ functions.now) }
{
    rows.extend_from_slice(functions)?;
    Ok(())
}

/// Appends element segments.
fn push_elements(
    out: &mut ElementRows,
    rows: &mut ExpressionRows,
    elements: &[Element],
) -> Result<(), OutOfMemory>
    ensures { OnOk result ((es : List plain.Element) → HasElements es out.old rows.old → HasElements (es ++ map element_of elements.now) out.new rows.new) }
{
    for element in elements {
        push_element(out, rows, element)?;
    }
    Ok(())
}

fn elements_in<'f>(payload: &'f Payload<'_>) -> &'f [Element]
    ensures { map element_of result.now ≡ elements_of_section (payload_of payload.now) }
{
    match payload {
        Payload::Elements(elements) => elements.as_slice(),
        _ => &[],
    }
}

/// The element segments of a module; their expressions follow none.
pub(crate) fn element_rows(
    alloc: Global,
    rows: &mut ExpressionRows,
    payloads: &[Payload<'_>],
) -> Result<ElementRows, OutOfMemory>
    requires { HasExpressions [] rows.old }
    ensures { IfOk result (λ out. HasElements (flat_map elements_of_section (map payload_of payloads.now)) out rows.new) }
{
    let mut out = ElementRows {
        rows: Vec::new(alloc),
        functions: Vec::new(alloc),
    };
    for payload in payloads {
        push_elements(&mut out, rows, elements_in(payload))?;
    }
    Ok(out)
}
