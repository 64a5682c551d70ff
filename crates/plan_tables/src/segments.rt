//! Segments that remain to be written, as tables.

ghost use Rattle.std.specs.Prelude.{◌≡◌, map, IfOk};
ghost use Rattle.plan_tables.specs.Segments.{operator_place, expression_place, offset_place, segment_row, planned_of, element_row};

use crate::rows::{ElementsRow, SegmentRow};
use entity_map::{EntityRef, OutOfMemory};
use init_plan::{MemoryInit, MemorySegmentOffset};
use std::alloc::Global;
use wasm_convert::{ConstExpr, ConstOp};
use wasm_index::{MemoryIndex, RuntimeDataIndex};
use wasm_module::TableSegment;

// The kind and the number of an offset that one operator gives.
fn operator_place(operator: ConstOp) -> (u32, u64)
    ensures { result ≡ operator_place operator }
{
    match operator {
        ConstOp::I32Const(number) => (1, u64::from(number.cast_unsigned())),
        ConstOp::I64Const(number) => (1, number.cast_unsigned()),
        ConstOp::GlobalGet(global) => (2, u64::from(global.as_u32())),
        _ => (3, 0),
    }
}

// The kind and the number of an offset that an expression gives.
fn expression_place(expression: &ConstExpr) -> (u32, u64)
    ensures { result ≡ expression_place expression.now }
{
    match expression.ops() {
        [operator] => operator_place(*operator),
        _ => (3, 0),
    }
}

// The kind and the number of the offset of a planned segment.
fn offset_place(offset: &MemorySegmentOffset) -> (u32, u64)
    ensures { result ≡ offset_place offset.now }
{
    match offset {
        MemorySegmentOffset::Static(place) => (0, *place),
        MemorySegmentOffset::Expr(expression) => expression_place(expression),
    }
}

fn segment_row(segment: &(MemoryIndex, MemorySegmentOffset, RuntimeDataIndex)) -> SegmentRow
    ensures { result ≡ segment_row segment.now }
{
    let (kind, offset) = offset_place(&segment.1);
    SegmentRow {
        memory: segment.0.as_u32(),
        runtime: segment.2.as_u32(),
        kind,
        offset,
    }
}

/// The data segments as they are planned, in order.
pub(crate) fn planned_of<'a>(
    init: &'a MemoryInit<'_>,
) -> &'a [(MemoryIndex, MemorySegmentOffset, RuntimeDataIndex)]
    ensures { result.now ≡ planned_of init.now }
{
    match init {
        MemoryInit::Unprocessed(_) => &[],
        MemoryInit::Processed(planned) => planned.as_slice(),
    }
}

/// The data segments that remain to be written, in order.
pub(crate) fn segments_of(
    alloc: Global,
    planned: &[(MemoryIndex, MemorySegmentOffset, RuntimeDataIndex)],
) -> Result<Vec<SegmentRow>, OutOfMemory>
    ensures { IfOk result (λ rows. rows.items ≡ map segment_row planned.now) }
{
    let mut rows = Vec::with_capacity(alloc, planned.len())?;
    for segment in planned {
        rows.push(segment_row(segment))?;
    }
    Ok(rows)
}

fn element_row(segment: &TableSegment) -> ElementsRow
    ensures { result ≡ element_row segment.now }
{
    let (kind, offset) = expression_place(&segment.offset);
    ElementsRow {
        table: segment.table_index.as_u32(),
        kind,
        offset,
        count: segment.elements.len(),
    }
}

/// The element segments that remain to be written, in order.
pub(crate) fn elements_of(
    alloc: Global,
    segments: &[TableSegment],
) -> Result<Vec<ElementsRow>, OutOfMemory>
    ensures { IfOk result (λ rows. rows.items ≡ map element_row segments.now) }
{
    let mut rows = Vec::with_capacity(alloc, segments.len())?;
    for segment in segments {
        rows.push(element_row(segment))?;
    }
    Ok(rows)
}
