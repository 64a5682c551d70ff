//! The entries of the subsections of a name section.

ghost use Rattle.std.specs.Prelude.{◌≡◌, ◌++◌, map, IfOk};
ghost use Rattle.name_maps.specs.Entries.{entry_of};
ghost use Rattle.name_maps.specs.NameMaps.{is_indirect as indirect};
ghost use Rattle.name_maps.specs.Reading.{contents_read, subsections_before, section_entries};

use crate::entry::{FIELDS, LABELS, LOCALS, MODULE, NameEntry, TAGS, entry};
use crate::maps::{add_indirect_map, add_map};
use custom_sections::{is_filled, sized_subsection, whole_name};
use entity_map::OutOfMemory;
use form_reader::name;

/// Whether the names of a subsection are those of locals, labels or fields.
fn is_indirect(subsection: u8) -> bool
    ensures { result ≡ indirect subsection }
{
    subsection == LOCALS || subsection == LABELS || subsection == FIELDS
}

/// Adds the entries of a subsection, up to a fault; returns whether they fill it. One of an id above
/// `TAGS` is skipped.
fn add_contents<'d>(
    entries: &mut Vec<NameEntry<'d>>,
    subsection: u8,
    contents: &'d [u8],
) -> Result<bool, OutOfMemory>
    ensures added { IfOk result (λ _. map entry_of entries.new.items
        ≡ map entry_of entries.old.items ++ (contents_read subsection contents.now).0) }
    ensures filled { IfOk result (λ filled. filled ≡ (contents_read subsection contents.now).1) }
{
    if subsection == MODULE {
        let Some(name) = whole_name(contents) else {
            return Ok(false);
        };
        entries.push(entry(subsection, None, 0, name))?;
        return Ok(true);
    }
    if is_indirect(subsection) {
        return Ok(is_filled(add_indirect_map(entries, subsection, contents)?));
    }
    if subsection <= TAGS {
        return Ok(is_filled(add_map(entries, subsection, None, contents)?));
    }
    Ok(true)
}

/// Adds the entries of at most `most` subsections, up to a fault.
fn add_subsections<'d>(
    entries: &mut Vec<NameEntry<'d>>,
    most: usize,
    bytes: &'d [u8],
) -> Result<(), OutOfMemory>
    ensures { IfOk result (λ _. map entry_of entries.new.items ≡ map entry_of entries.old.items ++ subsections_before most bytes.now) }
{
    let mut rest = bytes;
    'subsections: for _ in 0..most {
        let Some(((id, contents), after)) = sized_subsection(rest) else {
            return Ok(());
        };
        let filled = add_contents(entries, id, contents)?;
        if !filled {
            return Ok(());
        }
        rest = after;
    }
    Ok(())
}

/// Adds the entries of a name section, which begins with its name, up to a fault.
#[tactic(auto, unfolding(crate::specs::Reading::section_entries))]
pub(crate) fn add_section<'d>(
    entries: &mut Vec<NameEntry<'d>>,
    contents: &'d [u8],
) -> Result<(), OutOfMemory>
    ensures { IfOk result (λ _. map entry_of entries.new.items ≡ map entry_of entries.old.items ++ section_entries contents.now) }
{
    let Some((_title, subsections)) = name(contents) else {
        return Ok(());
    };
    add_subsections(entries, contents.len(), subsections)
}
