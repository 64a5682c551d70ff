//! Cells in images.

ghost use Rattle.std.specs.Prelude.{◌≡◌, ◌+◌, ◌<◌, ◌≤◌, OnOk, length};
ghost use Rattle.replay_spec.specs.Tables.{image_cells, most_cells};
ghost use Rattle.table_images.specs.Steps.{AreFunctions, LaysCells, OverlaysCells, LaysAt, grown, images_of};
ghost use Rattle.table_images.specs.Views.{image_of, items_of};

use crate::cells::cell_at;
use crate::spot::Spot;
use entity_map::{OutOfMemory, ReservedValue};
use wasm_index::FuncIndex;
use wasm_module::TableSegmentElements;

// Extends an image with nulls to an end.
fn grow(image: &mut Vec<FuncIndex>, end: usize) -> Result<(), OutOfMemory>
    ensures { OnOk result (image_of image.new.items ≡ grown end (image_of image.old.items)) }
{
    if image.len() < end {
        image.resize(end, FuncIndex::reserved_value())?;
    }
    Ok(())
}

// Writes the elements of a segment over an image that reaches their end.
fn fill(image: &mut [FuncIndex], place: usize, elements: &TableSegmentElements)
    requires reach { place + length (image_cells (items_of elements.now)) ≤ length image.old }
    requires functions { AreFunctions (image_cells (items_of elements.now)) }
    ensures { OverlaysCells place (image_cells (items_of elements.now)) (image_of image.old) (image_of image.new) }
{
    'cells: for i in 0..elements.len() as usize {
        image[place + i] = cell_at(elements, i);
    }
}

/// Writes the elements of a segment over an image, which grows with nulls to their end.
fn lay_cells(
    image: &mut Vec<FuncIndex>,
    place: usize,
    elements: &TableSegmentElements,
) -> Result<(), OutOfMemory>
    requires small { place + length (image_cells (items_of elements.now)) ≤ most_cells }
    requires functions { AreFunctions (image_cells (items_of elements.now)) }
    ensures { OnOk result (LaysCells place (image_cells (items_of elements.now)) (image_of image.old.items) (image_of image.new.items)) }
{
    grow(image, place + elements.len() as usize)?;
    fill(image, place, elements);
    Ok(())
}

/// Writes the elements of a segment over the image of a table.
pub(crate) fn lay_at(
    images: &mut [Vec<FuncIndex>],
    spot: Spot,
    elements: &TableSegmentElements,
) -> Result<(), OutOfMemory>
    requires table { spot.table < length images.old }
    requires small { spot.place + length (image_cells (items_of elements.now)) ≤ most_cells }
    requires functions { AreFunctions (image_cells (items_of elements.now)) }
    ensures { OnOk result (LaysAt spot.table spot.place (image_cells (items_of elements.now)) (images_of images.old) (images_of images.new)) }
{
    lay_cells(&mut images[spot.table], spot.place, elements)?;
    Ok(())
}
