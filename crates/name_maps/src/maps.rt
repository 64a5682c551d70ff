//! The entries of name maps and of indirect name maps.

ghost use Rattle.std.specs.Prelude.{◌≡◌, ◌++◌, map, IfOk};
ghost use Rattle.std.specs.Option.{option_map};
ghost use Rattle.custom_sections.specs.NameReading.{names_before, locals_before, vector_before};
ghost use Rattle.name_maps.specs.Entries.{entry_of, entry_in, indirect_entries};

use crate::entry::{NameEntry, entry};
use custom_sections::naming;
use entity_map::OutOfMemory;
use form_reader::u32_at;

/// Adds the entries of a name map, up to a fault; the bytes after the map, where it has none. With
/// an outer index it is the map of that index.
///
/// The list grows as names are read, since the count may be any number.
pub(crate) fn add_map<'d>(
    entries: &mut Vec<NameEntry<'d>>,
    subsection: u8,
    outer: Option<u32>,
    bytes: &'d [u8],
) -> Result<Option<&'d [u8]>, OutOfMemory>
    ensures added { IfOk result (λ _. map entry_of entries.new.items
        ≡ map entry_of entries.old.items ++ map (entry_in subsection outer) (names_before bytes.now).0) }
    ensures left { IfOk result (λ rest. option_map (λ bytes. bytes.now) rest ≡ (names_before bytes.now).1) }
{
    let Some((count, mut rest)) = u32_at(bytes) else {
        return Ok(None);
    };
    'names: for _ in 0..count {
        let Some(((index, name), after)) = naming(rest) else {
            return Ok(None);
        };
        entries.push(entry(subsection, outer, index, name))?;
        rest = after;
    }
    Ok(Some(rest))
}

/// Adds the entries of an indirect name map, up to a fault; the bytes after it, where it has none.
pub(crate) fn add_indirect_map<'d>(
    entries: &mut Vec<NameEntry<'d>>,
    subsection: u8,
    bytes: &'d [u8],
) -> Result<Option<&'d [u8]>, OutOfMemory>
    ensures added { IfOk result (λ _. map entry_of entries.new.items
        ≡ map entry_of entries.old.items ++ indirect_entries subsection (vector_before locals_before bytes.now).0) }
    ensures left { IfOk result (λ rest. option_map (λ bytes. bytes.now) rest ≡ (vector_before locals_before bytes.now).1) }
{
    let Some((count, mut rest)) = u32_at(bytes) else {
        return Ok(None);
    };
    'maps: for _ in 0..count {
        let Some((outer, map)) = u32_at(rest) else {
            return Ok(None);
        };
        let Some(after) = add_map(entries, subsection, Some(outer), map)? else {
            return Ok(None);
        };
        rest = after;
    }
    Ok(Some(rest))
}
