//! How many bytes the lines of globals and tables have.

ghost use Rattle.std.specs.Prelude.{◌<◌, ◌≤◌, ◌+◌, ◌*◌, ◌^◌, All, length, sum_by};
ghost use Rattle.std.specs.List.{flat_map};
ghost use Rattle.wasm_index.specs.Index.{number_of};
ghost use Rattle.plan_lines.specs.GlobalLines.{global_line, global_expression_line};
ghost use Rattle.plan_lines.specs.Numbers.{keyed_lines};
ghost use Rattle.plan_lines.specs.SegmentLines.{table_value_lines, element_line};
ghost use Rattle.plan_lines.specs.TableLines.{table_image_lines, passive_element_line};
ghost use Rattle.plan_laws.specs.TextCosts.{value_operators};
ghost use Rattle.plan_laws.specs.Widths.{ValueFits, GlobalFits, FirstFits, InitialFits, TableImageFits, ElementsFit, PassiveFits};

use crate::operator_bytes::expression;
use crate::type_bytes::reference;
use entity_map::{EntityRef, PrimaryMap};
use wasm_convert::{ConstExpr, GlobalConstValue};
use wasm_index::{DefinedGlobalIndex, DefinedTableIndex, FuncIndex, PassiveElemIndex};
use wasm_module::{TableInitialValue, TableSegment};
use wasm_types::WasmRefType;

fn constant(value: GlobalConstValue)
    ensures { ValueFits value }
{
    match value {
        GlobalConstValue::I32(number) => {
            let _number = number;
        }
        GlobalConstValue::I64(number) => {
            let _number = number;
        }
        GlobalConstValue::F32(_) | GlobalConstValue::F64(_) | GlobalConstValue::V128(_) => {}
    }
}

fn global(global: &(DefinedGlobalIndex, GlobalConstValue))
    ensures { GlobalFits global.now }
{
    let _number = global.0.as_u32();
    constant(global.1);
}

fn each_global(globals: &[(DefinedGlobalIndex, GlobalConstValue)])
    ensures { All GlobalFits globals.now }
{
    for each in globals {
        global(each);
    }
}

/// The globals whose values are known.
pub(crate) fn globals(globals: &[(DefinedGlobalIndex, GlobalConstValue)])
    ensures { length (flat_map (λ g. global_line g.0 g.1) globals.now) ≤ 128 * length globals.now }
{
    each_global(globals);
}

fn first(global: &(DefinedGlobalIndex, ConstExpr))
    ensures { FirstFits global.now }
{
    let _number = global.0.as_u32();
    expression(&global.1);
}

fn each_first(globals: &[(DefinedGlobalIndex, ConstExpr)])
    ensures { All FirstFits globals.now }
{
    for each in globals {
        first(each);
    }
}

/// The globals that begin as the values of expressions.
pub(crate) fn first_values(globals: &[(DefinedGlobalIndex, ConstExpr)])
    ensures { length (flat_map (λ g. global_expression_line g.0 g.1) globals.now)
        ≤ 128 * length globals.now + 48 * sum_by (λ g. length g.1) globals.now }
{
    each_first(globals);
}

fn initial(value: &TableInitialValue)
    ensures { InitialFits value.now }
{
    match value {
        TableInitialValue::Null => {}
        TableInitialValue::Expr(value) => expression(value),
    }
}

fn each_initial(values: &[TableInitialValue])
    ensures { All InitialFits values.now }
{
    for value in values {
        initial(value);
    }
}

/// The first values of tables.
pub(crate) fn initial_values(values: &PrimaryMap<DefinedTableIndex, TableInitialValue>)
    ensures { length (keyed_lines table_value_lines values.now)
        ≤ 128 * length values.now + 48 * sum_by value_operators values.now }
{
    let _count = values.len();
    each_initial(values.as_slice());
}

fn cells(cells: &[FuncIndex])
    ensures { All (λ f. number_of f < 2 ^ 32) cells.now }
{
    for function in cells {
        let _number = function.as_u32();
    }
}

fn image(image: &Vec<FuncIndex>)
    ensures { TableImageFits image.now }
{
    let _count = image.len();
    cells(image.as_slice());
}

fn each_image(images: &[Vec<FuncIndex>])
    ensures { All TableImageFits images.now }
{
    for each in images {
        image(each);
    }
}

/// The images of tables, at 11 bytes for each cell.
pub(crate) fn images(images: &PrimaryMap<DefinedTableIndex, Vec<FuncIndex>>)
    ensures { length (keyed_lines (λ table image. table_image_lines table image.items) images.now)
        ≤ 128 * length images.now + 11 * sum_by (λ image. length image.items) images.now }
{
    let _count = images.len();
    each_image(images.as_slice());
}

fn segment(segment: &TableSegment)
    ensures { ElementsFit segment.now }
{
    let _number = segment.table_index.as_u32();
    let _count = segment.elements.len();
    expression(&segment.offset);
}

fn each_segment(segments: &[TableSegment])
    ensures { All ElementsFit segments.now }
{
    for each in segments {
        segment(each);
    }
}

/// The active element segments.
pub(crate) fn element_segments(segments: &[TableSegment])
    ensures { length (flat_map element_line segments.now)
        ≤ 128 * length segments.now + 48 * sum_by (λ s. length s.offset) segments.now }
{
    each_segment(segments);
}

fn passive(elements: &(WasmRefType, u64))
    ensures { PassiveFits elements.now }
{
    reference(&elements.0);
    let _count = elements.1;
}

fn each_passive(elements: &[(WasmRefType, u64)])
    ensures { All PassiveFits elements.now }
{
    for each in elements {
        passive(each);
    }
}

/// The passive element segments.
pub(crate) fn passive_elements(elements: &PrimaryMap<PassiveElemIndex, (WasmRefType, u64)>)
    ensures { length (keyed_lines passive_element_line elements.now) ≤ 128 * length elements.now }
{
    let _count = elements.len();
    each_passive(elements.as_slice());
}
