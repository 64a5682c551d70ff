//! The items of element segments as tables.

ghost use Rattle.std.specs.Prelude.{◌≡◌, ◌+◌, ◌++◌, List, length, map, IfOk, OnOk};
ghost use Rattle.std.specs.List.{flat_map};
ghost use Rattle.wasm_index.specs.Index.{number_of};
ghost use Rattle.wasm_module.specs.declared.table_initialization.TableSegmentElements.{TableSegmentElements};
ghost use Rattle.plan_tables.specs.Items.{functions_in, expressions_in, items_rows, TellsElementItems, TellsItems};
ghost use Rattle.plan_tables.specs.Operators.{operator_row};
ghost use Rattle.plan_tables.specs.Spans.{spans_from};

use crate::operators::push_operators;
use crate::record::{ElementItemsRecord, ExpressionsRecord, ItemsRecord};
use crate::rows::{ItemsRow, OperatorRow, Span};
use crate::values::ref_row;
use entity_map::{EntityRef, OutOfMemory};
use init_plan::ModuleTranslation;
use std::alloc::Global;
use wasm_convert::ConstExpr;
use wasm_index::FuncIndex;
use wasm_module::{TableSegment, TableSegmentElements};

/// What holds the elements of a segment.
pub(crate) trait HasElements {
    ghost elements: { Self → TableSegmentElements };

    /// These elements.
    fn elements(&self) -> &TableSegmentElements
        ensures { result.now ≡ elements self.now };
}

impl HasElements for TableSegment {
    ghost elements = { λ segment. segment.elements };

    fn elements(&self) -> &TableSegmentElements {
        &self.elements
    }
}

impl HasElements for TableSegmentElements {
    ghost elements = { λ elements. elements };

    fn elements(&self) -> &TableSegmentElements {
        self
    }
}

fn functions_in(elements: &TableSegmentElements) -> &[FuncIndex]
    ensures { result.now ≡ functions_in elements.now }
{
    match elements {
        TableSegmentElements::Functions(functions) => functions.as_slice(),
        TableSegmentElements::Expressions { .. } => &[],
    }
}

fn expressions_in(elements: &TableSegmentElements) -> &[ConstExpr]
    ensures { result.now ≡ expressions_in elements.now }
{
    match elements {
        TableSegmentElements::Functions(_) => &[],
        TableSegmentElements::Expressions { exprs, .. } => exprs.as_slice(),
    }
}

fn push_functions(rows: &mut Vec<u32>, functions: &[FuncIndex]) -> Result<(), OutOfMemory>
    ensures { OnOk result (rows.new.items ≡ rows.old.items ++ map number_of functions.now) }
{
    for function in functions {
        rows.push(function.as_u32())?;
    }
    Ok(())
}

// Appends expressions: the part of each, and their operators.
fn push_expressions(
    parts: &mut Vec<Span>,
    operators: &mut Vec<OperatorRow>,
    expressions: &[ConstExpr],
) -> Result<(), OutOfMemory>
    ensures parts { OnOk result (parts.new.items
        ≡ parts.old.items ++ spans_from (length operators.old.items) (map (λ e. length e) expressions.now)) }
    ensures operators { OnOk result (operators.new.items ≡ operators.old.items ++ flat_map (λ e. map operator_row e) expressions.now) }
    ensures count { OnOk result (length parts.new.items ≡ length parts.old.items + length expressions.now) }
{
    for expression in expressions {
        let ops = expression.ops();
        parts.push(Span {
            begin: operators.len(),
            len: ops.len(),
        })?;
        push_operators(operators, ops)?;
    }
    Ok(())
}

/// The items of the segments of a list.
pub(crate) fn element_items_of<'d, T: HasElements>(
    alloc: Global,
    holders: &[T],
) -> Result<ElementItemsRecord<'d>, OutOfMemory>
    ensures { IfOk result (TellsElementItems T.elements holders.now) }
{
    let mut rows = Vec::with_capacity(alloc, holders.len())?;
    let mut functions = Vec::new(alloc);
    let mut parts = Vec::new(alloc);
    let mut operators = Vec::new(alloc);
    for holder in holders {
        let elements = holder.elements();
        let (called, expressed) = (functions_in(elements), expressions_in(elements));
        rows.push(ItemsRow {
            element: ref_row(elements.ty()),
            functions: Span {
                begin: functions.len(),
                len: called.len(),
            },
            expressions: Span {
                begin: parts.len(),
                len: expressed.len(),
            },
        })?;
        push_functions(&mut functions, called)?;
        push_expressions(&mut parts, &mut operators, expressed)?;
    }
    Ok(ElementItemsRecord {
        rows: rows.leak(),
        functions: functions.leak(),
        expressions: ExpressionsRecord {
            parts: parts.leak(),
            operators: operators.leak(),
        },
    })
}

/// Puts the items of element segments into a record. Where memory ends it has those that were made.
pub(crate) fn fill_items<'d>(
    alloc: Global,
    translation: &ModuleTranslation<'_>,
    out: &mut ItemsRecord<'d>,
) -> Result<(), OutOfMemory>
    ensures { OnOk result (TellsItems translation.now out.new) }
{
    out.kept = element_items_of(alloc, translation.table_initialization.segments.as_slice())?;
    out.passive = element_items_of(alloc, translation.passive_elements.as_slice())?;
    Ok(())
}
