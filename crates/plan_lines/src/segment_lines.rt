//! The lines of what is written at the start: element segments, first values of tables, and data
//! segments.

ghost use Rattle.std.specs.Prelude.{◌≡◌, ◌++◌, OnOk};
ghost use Rattle.std.specs.List.{flat_map};
ghost use Rattle.wasm_index.specs.Index.{number_of};
ghost use Rattle.plan_lines.specs.Numbers.{keyed_lines};
ghost use Rattle.plan_lines.specs.SegmentLines.{
  table_expression_line,
  table_value_lines,
  element_line,
  initialization_line,
  initialization_images,
  offset_text,
  segment_line,
  segment_lines,
};

use crate::expressions::{append_expression, append_expression_line};
use crate::memory_lines::append_images;
use crate::numbers::append_between;
use crate::text::Text;
use entity_map::{EntityRef, OutOfMemory, PrimaryMap};
use init_plan::{MemoryInit, MemoryInitialization, MemorySegmentOffset};
use wasm_convert::ConstExpr;
use wasm_index::{DefinedTableIndex, MemoryIndex, RuntimeDataIndex};
use wasm_module::{TableInitialValue, TableSegment};

#[tactic(auto, unfolding(crate::specs::SegmentLines::table_expression_line))]
fn append_table_expression(
    text: &mut Text,
    table: DefinedTableIndex,
    expression: &ConstExpr,
) -> Result<(), OutOfMemory>
    ensures { OnOk result (text.new ≡ text.old ++ table_expression_line table expression.now) }
{
    append_expression_line(text, "table-expr", table.as_u32(), expression)
}

/// Appends the line of a table whose cells begin as the value of an expression; a table of null
/// references has none.
///
/// # Errors
/// `OutOfMemory`; the text may then end anywhere.
pub fn append_table_value(
    text: &mut Text,
    table: DefinedTableIndex,
    value: &TableInitialValue,
) -> Result<(), OutOfMemory>
    ensures { OnOk result (text.new ≡ text.old ++ table_value_lines table value.now) }
{
    match value {
        TableInitialValue::Null => Ok(()),
        TableInitialValue::Expr(expression) => append_table_expression(text, table, expression),
    }
}

/// Appends the lines of the tables whose cells begin as the values of expressions.
///
/// # Errors
/// `OutOfMemory`; the text may then end anywhere.
pub fn append_table_values(
    text: &mut Text,
    values: &PrimaryMap<DefinedTableIndex, TableInitialValue>,
) -> Result<(), OutOfMemory>
    ensures { OnOk result (text.new ≡ text.old ++ keyed_lines table_value_lines values.now) }
{
    for (table, value) in values.iter() {
        append_table_value(text, table, value)?;
    }
    Ok(())
}

/// Appends the line of an active element segment.
///
/// # Errors
/// `OutOfMemory`; the text may then end anywhere.
#[tactic(auto, unfolding(crate::specs::SegmentLines::element_line))]
pub fn append_element(text: &mut Text, segment: &TableSegment) -> Result<(), OutOfMemory>
    ensures { OnOk result (text.new ≡ text.old ++ element_line segment.now) }
{
    append_between(text, "element ", segment.table_index.as_u32().into(), " ")?;
    append_between(text, "", segment.elements.len() as u64, " at ")?;
    append_expression(text, &segment.offset)?;
    text.push_byte(b'\n')
}

/// Appends the lines of the active element segments.
///
/// # Errors
/// `OutOfMemory`; the text may then end anywhere.
pub fn append_elements(text: &mut Text, segments: &[TableSegment]) -> Result<(), OutOfMemory>
    ensures { OnOk result (text.new ≡ text.old ++ flat_map element_line segments.now) }
{
    for segment in segments {
        append_element(text, segment)?;
    }
    Ok(())
}

/// Appends the line of how the memories begin.
///
/// # Errors
/// `OutOfMemory`; the text may then end anywhere.
pub fn append_initialization(
    text: &mut Text,
    initialization: &MemoryInitialization,
) -> Result<(), OutOfMemory>
    ensures { OnOk result (text.new ≡ text.old ++ initialization_line initialization.now) }
{
    match initialization {
        MemoryInitialization::Segmented => text.push_str("memory-init segmented\n"),
        MemoryInitialization::Static { .. } => text.push_str("memory-init static\n"),
    }
}

/// Appends the lines of the images of memories that begin as images.
///
/// # Errors
/// `OutOfMemory`; the text may then end anywhere.
pub fn append_initialization_images(
    text: &mut Text,
    initialization: &MemoryInitialization,
) -> Result<(), OutOfMemory>
    ensures { OnOk result (text.new ≡ text.old ++ initialization_images initialization.now) }
{
    match initialization {
        MemoryInitialization::Segmented => Ok(()),
        MemoryInitialization::Static { map } => append_images(text, map),
    }
}

fn append_place(text: &mut Text, place: u64) -> Result<(), OutOfMemory>
    ensures { OnOk result (text.new ≡ text.old ++ offset_text (MemorySegmentOffset.Static place)) }
{
    append_between(text, "static ", place, "")
}

/// Appends the offset of a planned segment.
///
/// # Errors
/// `OutOfMemory`; the text may then end anywhere.
pub fn append_offset(text: &mut Text, offset: &MemorySegmentOffset) -> Result<(), OutOfMemory>
    ensures { OnOk result (text.new ≡ text.old ++ offset_text offset.now) }
{
    match offset {
        MemorySegmentOffset::Expr(expression) => append_expression(text, expression),
        MemorySegmentOffset::Static(place) => append_place(text, *place),
    }
}

/// Appends the line of a planned segment.
///
/// # Errors
/// `OutOfMemory`; the text may then end anywhere.
#[tactic(auto, unfolding(crate::specs::SegmentLines::segment_line))]
pub fn append_segment(
    text: &mut Text,
    memory: MemoryIndex,
    index: RuntimeDataIndex,
    offset: &MemorySegmentOffset,
) -> Result<(), OutOfMemory>
    ensures { OnOk result (text.new ≡ text.old ++ segment_line (number_of memory) (number_of index) offset.now) }
{
    append_between(text, "segment ", memory.as_u32().into(), " ")?;
    append_between(text, "", index.as_u32().into(), " at ")?;
    append_offset(text, offset)?;
    text.push_byte(b'\n')
}

/// Appends the lines of the planned segments.
///
/// # Errors
/// `OutOfMemory`; the text may then end anywhere.
pub fn append_segments(text: &mut Text, memory_init: &MemoryInit<'_>) -> Result<(), OutOfMemory>
    ensures { OnOk result (text.new ≡ text.old ++ segment_lines memory_init.now) }
{
    let MemoryInit::Processed(segments) = memory_init else {
        return Ok(());
    };
    for (memory, offset, index) in segments {
        append_segment(text, *memory, *index, offset)?;
    }
    Ok(())
}
