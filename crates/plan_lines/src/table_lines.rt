//! The lines of tables: their images, and passive element segments.

ghost use Rattle.std.specs.Prelude.{◌≡◌, ◌++◌, OnOk};
ghost use Rattle.std.specs.List.{flat_map};
ghost use Rattle.plan_lines.specs.Numbers.{keyed_lines};
ghost use Rattle.plan_lines.specs.TableLines.{cell_text, table_image_line, table_image_lines, passive_element_line};

use crate::numbers::{append_named, append_number};
use crate::reference_words::append_reference;
use crate::text::Text;
use entity_map::{EntityRef, OutOfMemory, PrimaryMap, ReservedValue};
use wasm_index::{DefinedTableIndex, FuncIndex, PassiveElemIndex};
use wasm_types::WasmRefType;

fn append_cell(text: &mut Text, function: FuncIndex) -> Result<(), OutOfMemory>
    ensures { OnOk result (text.new ≡ text.old ++ cell_text function) }
{
    if function.is_reserved_value() {
        return text.push_str(" null");
    }
    append_number(text, function.as_u32())
}

fn append_cells(text: &mut Text, cells: &[FuncIndex]) -> Result<(), OutOfMemory>
    ensures { OnOk result (text.new ≡ text.old ++ flat_map cell_text cells.now) }
{
    for function in cells {
        append_cell(text, *function)?;
    }
    Ok(())
}

#[tactic(auto, unfolding(crate::specs::TableLines::table_image_line))]
fn append_image(
    text: &mut Text,
    table: DefinedTableIndex,
    cells: &[FuncIndex],
) -> Result<(), OutOfMemory>
    ensures { OnOk result (text.new ≡ text.old ++ table_image_line table cells.now) }
{
    append_named(text, "table-image", table.as_u32())?;
    text.push_byte(b' ')?;
    text.push_number(cells.len())?;
    append_cells(text, cells)?;
    text.push_byte(b'\n')
}

/// Appends the line of a table's image, where it has cells.
///
/// # Errors
/// `OutOfMemory`; the text may then end anywhere.
pub fn append_table_image(
    text: &mut Text,
    table: DefinedTableIndex,
    cells: &[FuncIndex],
) -> Result<(), OutOfMemory>
    ensures { OnOk result (text.new ≡ text.old ++ table_image_lines table cells.now) }
{
    if cells.len() == 0 {
        return Ok(());
    }
    append_image(text, table, cells)
}

/// Appends the lines of the images of tables.
///
/// # Errors
/// `OutOfMemory`; the text may then end anywhere.
pub fn append_table_images(
    text: &mut Text,
    images: &PrimaryMap<DefinedTableIndex, Vec<FuncIndex>>,
) -> Result<(), OutOfMemory>
    ensures { OnOk result (text.new ≡ text.old ++ keyed_lines (λ table image. table_image_lines table image.items) images.now) }
{
    for (table, image) in images.iter() {
        append_table_image(text, table, image)?;
    }
    Ok(())
}

/// Appends the line of a passive element segment: the type of its elements, and their number.
///
/// # Errors
/// `OutOfMemory`; the text may then end anywhere.
#[tactic(auto, unfolding(crate::specs::TableLines::passive_element_line))]
pub fn append_passive_element(
    text: &mut Text,
    index: PassiveElemIndex,
    ty: WasmRefType,
    count: u64,
) -> Result<(), OutOfMemory>
    ensures { OnOk result (text.new ≡ text.old ++ passive_element_line index (ty, count)) }
{
    append_named(text, "passive-element", index.as_u32())?;
    text.push_byte(b' ')?;
    append_reference(text, &ty)?;
    text.push_byte(b' ')?;
    text.push_number(count)?;
    text.push_byte(b'\n')
}

/// Appends the lines of the passive element segments.
///
/// # Errors
/// `OutOfMemory`; the text may then end anywhere.
pub fn append_passive_elements(
    text: &mut Text,
    elements: &PrimaryMap<PassiveElemIndex, (WasmRefType, u64)>,
) -> Result<(), OutOfMemory>
    ensures { OnOk result (text.new ≡ text.old ++ keyed_lines passive_element_line elements.now) }
{
    for (index, (ty, count)) in elements.iter() {
        append_passive_element(text, index, *ty, *count)?;
    }
    Ok(())
}
