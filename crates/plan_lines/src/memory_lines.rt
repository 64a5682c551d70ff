//! The lines of memories: their images, and runtime data.

ghost use Rattle.std.specs.Prelude.{◌≡◌, ◌++◌, OnOk};
ghost use Rattle.plan_lines.specs.Numbers.{keyed_lines};
ghost use Rattle.plan_lines.specs.MemoryLines.{alignment_lines, image_lines, passive_lines, runtime_line};

use crate::numbers::append_numbers;
use crate::text::Text;
use entity_map::{EntityRef, OutOfMemory, PrimaryMap, SecondaryMap};
use std::ops::Range;
use wasm_index::{DataIndex, MemoryIndex, RuntimeDataIndex};

/// Appends the line of the alignment of images, where there is one.
///
/// # Errors
/// `OutOfMemory`; the text may then end anywhere.
pub fn append_alignment(text: &mut Text, align: Option<u64>) -> Result<(), OutOfMemory>
    ensures { OnOk result (text.new ≡ text.old ++ alignment_lines align) }
{
    match align {
        Some(align) => append_numbers(text, "data-align", &[align]),
        None => Ok(()),
    }
}

/// Appends the line of a memory's image, where it has one.
///
/// # Errors
/// `OutOfMemory`; the text may then end anywhere.
pub fn append_image(
    text: &mut Text,
    memory: MemoryIndex,
    image: Option<(u64, RuntimeDataIndex)>,
) -> Result<(), OutOfMemory>
    ensures { OnOk result (text.new ≡ text.old ++ image_lines memory image) }
{
    match image {
        Some((place, index)) => append_numbers(
            text,
            "image",
            &[memory.as_u32().into(), place, index.as_u32().into()],
        ),
        None => Ok(()),
    }
}

/// Appends the lines of the images of memories.
///
/// # Errors
/// `OutOfMemory`; the text may then end anywhere.
pub fn append_images(
    text: &mut Text,
    images: &PrimaryMap<MemoryIndex, Option<(u64, RuntimeDataIndex)>>,
) -> Result<(), OutOfMemory>
    ensures { OnOk result (text.new ≡ text.old ++ keyed_lines image_lines images.now) }
{
    for (memory, image) in images.iter() {
        append_image(text, memory, *image)?;
    }
    Ok(())
}

/// Appends the line of a passive data segment; other data segments have none.
///
/// # Errors
/// `OutOfMemory`; the text may then end anywhere.
pub fn append_passive(
    text: &mut Text,
    segment: DataIndex,
    index: Option<RuntimeDataIndex>,
) -> Result<(), OutOfMemory>
    ensures { OnOk result (text.new ≡ text.old ++ passive_lines segment index) }
{
    match index {
        Some(index) => append_numbers(
            text,
            "passive-data",
            &[segment.as_u32().into(), index.as_u32().into()],
        ),
        None => Ok(()),
    }
}

/// Appends the lines of the passive data segments.
///
/// # Errors
/// `OutOfMemory`; the text may then end anywhere.
pub fn append_passive_data(
    text: &mut Text,
    runtime_data_map: &SecondaryMap<DataIndex, Option<RuntimeDataIndex>>,
) -> Result<(), OutOfMemory>
    ensures { OnOk result (text.new ≡ text.old ++ keyed_lines passive_lines runtime_data_map.now.items) }
{
    for (segment, index) in runtime_data_map.iter() {
        append_passive(text, segment, *index)?;
    }
    Ok(())
}

/// Appends the lines of the ranges of runtime data.
///
/// # Errors
/// `OutOfMemory`; the text may then end anywhere.
#[inline(always)]
pub fn append_runtime_data(
    text: &mut Text,
    ranges: &PrimaryMap<RuntimeDataIndex, Range<u32>>,
) -> Result<(), OutOfMemory>
    ensures { OnOk result (text.new ≡ text.old ++ keyed_lines runtime_line ranges.now) }
{
    for (index, range) in ranges.iter() {
        append_numbers(
            text,
            "runtime",
            &[index.as_u32().into(), range.start.into(), range.end.into()],
        )?;
    }
    Ok(())
}
