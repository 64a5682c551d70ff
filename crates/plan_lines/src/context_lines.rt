//! The lines of the layout of a context.

ghost use Rattle.std.specs.Prelude.{◌≡◌, ◌∷◌, [], ◌++◌, codes, OnOk};
ghost use Rattle.std.specs.List.{flat_map};
ghost use Rattle.vm_offsets.specs.Layouts.{fields_of, pointer_of, size_of_context};
ghost use Rattle.vm_offsets.specs.Regions.{context_regions};
ghost use Rattle.plan_lines.specs.Numbers.{numbers_line};
ghost use Rattle.plan_lines.specs.ContextLines.{region_line};

use crate::numbers::{append_named, append_numbers};
use crate::text::Text;
use entity_map::OutOfMemory;
use vm_offsets::VMOffsets;

/// Appends the line of a region.
///
/// # Errors
/// `OutOfMemory`; the text may then end anywhere.
#[tactic(auto, unfolding(crate::specs::ContextLines::region_line))]
pub fn append_region(text: &mut Text, description: &str, size: u32) -> Result<(), OutOfMemory>
    ensures { OnOk result (text.new ≡ text.old ++ region_line (description.now, size)) }
{
    append_named(text, "region", size)?;
    text.push_byte(b' ')?;
    text.push_str(description)?;
    text.push_byte(b'\n')
}

/// Appends the lines of the regions of a context, the last one first.
///
/// # Errors
/// `OutOfMemory`; the text may then end anywhere.
pub fn append_regions(text: &mut Text, offsets: &VMOffsets<u8>) -> Result<(), OutOfMemory>
    ensures { OnOk result (text.new ≡ text.old ++ flat_map region_line (context_regions (pointer_of offsets.now) (fields_of offsets.now))) }
{
    for (description, size) in offsets.region_sizes() {
        append_region(text, description, size)?;
    }
    Ok(())
}

/// Appends the line of the size of a context.
///
/// # Errors
/// `OutOfMemory`; the text may then end anywhere.
pub fn append_context(text: &mut Text, offsets: &VMOffsets<u8>) -> Result<(), OutOfMemory>
    ensures { OnOk result (text.new ≡ text.old ++ numbers_line (codes "context") (size_of_context offsets.now ∷ [])) }
{
    append_numbers(text, "context", &[offsets.size_of_vmctx().into()])
}
