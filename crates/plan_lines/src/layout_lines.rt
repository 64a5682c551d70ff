//! The lines of the layouts of objects of a garbage collector.

ghost use Rattle.std.specs.Prelude.{◌≡◌, ◌++◌, Some, OnOk};
ghost use Rattle.std.specs.List.{flat_map};
ghost use Rattle.plan_lines.specs.Numbers.{keyed_lines};
ghost use Rattle.plan_lines.specs.LayoutLines.{refs_text, array_layout_line, layout_field_text, fields_layout_line, layout_lines};

use crate::numbers::{append_named, append_number};
use crate::text::Text;
use entity_map::{EntityRef, OutOfMemory, PrimaryMap};
use gc_layout::{GcArrayLayout, GcLayout, GcStructLayout, GcStructLayoutField};
use wasm_index::ModuleInternedTypeIndex;

fn append_refs(text: &mut Text, refs: bool) -> Result<(), OutOfMemory>
    ensures { OnOk result (text.new ≡ text.old ++ refs_text refs) }
{
    text.push_str(if refs { " refs yes\n" } else { " refs no\n" })
}

/// Appends the line of the layout of an array.
///
/// # Errors
/// `OutOfMemory`; the text may then end anywhere.
#[tactic(auto, unfolding(crate::specs::LayoutLines::array_layout_line))]
pub fn append_array_layout(
    text: &mut Text,
    index: ModuleInternedTypeIndex,
    layout: &GcArrayLayout,
) -> Result<(), OutOfMemory>
    ensures { OnOk result (text.new ≡ text.old ++ array_layout_line index layout.now) }
{
    append_named(text, "layout", index.as_u32())?;
    append_named(text, " array base", layout.base_size)?;
    append_named(text, " align", layout.align)?;
    append_named(text, " element", layout.elem_size)?;
    append_refs(text, layout.elems_are_gc_refs)
}

fn append_field(text: &mut Text, field: GcStructLayoutField) -> Result<(), OutOfMemory>
    ensures { OnOk result (text.new ≡ text.old ++ layout_field_text field) }
{
    append_number(text, field.offset)?;
    text.push_str(if field.is_gc_ref { "r" } else { "" })
}

fn append_fields(text: &mut Text, fields: &[GcStructLayoutField]) -> Result<(), OutOfMemory>
    ensures { OnOk result (text.new ≡ text.old ++ flat_map layout_field_text fields.now) }
{
    for field in fields {
        append_field(text, *field)?;
    }
    Ok(())
}

/// Appends the line of the layout of a struct or an exception.
///
/// # Errors
/// `OutOfMemory`; the text may then end anywhere.
#[tactic(auto, unfolding(crate::specs::LayoutLines::fields_layout_line))]
pub fn append_fields_layout(
    text: &mut Text,
    index: ModuleInternedTypeIndex,
    layout: &GcStructLayout,
) -> Result<(), OutOfMemory>
    ensures { OnOk result (text.new ≡ text.old ++ fields_layout_line index layout.now) }
{
    append_named(text, "layout", index.as_u32())?;
    let kind = if layout.is_exception {
        " exn size"
    } else {
        " struct size"
    };
    append_named(text, kind, layout.size)?;
    append_named(text, " align", layout.align)?;
    text.push_str(" fields")?;
    append_fields(text, &layout.fields)?;
    text.push_byte(b'\n')
}

/// Appends the line of a type's layout; a type without one has none.
///
/// # Errors
/// `OutOfMemory`; the text may then end anywhere.
pub fn append_layout(
    text: &mut Text,
    index: ModuleInternedTypeIndex,
    layout: &GcLayout,
) -> Result<(), OutOfMemory>
    ensures { OnOk result (text.new ≡ text.old ++ layout_lines index (Some layout.now)) }
{
    match layout {
        GcLayout::Array(array) => append_array_layout(text, index, array),
        GcLayout::Struct(fields) => append_fields_layout(text, index, fields),
    }
}

/// Appends the lines of the types' layouts.
///
/// # Errors
/// `OutOfMemory`; the text may then end anywhere.
pub fn append_layouts(
    text: &mut Text,
    layouts: &PrimaryMap<ModuleInternedTypeIndex, Option<GcLayout>>,
) -> Result<(), OutOfMemory>
    ensures { OnOk result (text.new ≡ text.old ++ keyed_lines layout_lines layouts.now) }
{
    for (index, layout) in layouts.iter() {
        if let Some(layout) = layout {
            append_layout(text, index, layout)?;
        }
    }
    Ok(())
}
