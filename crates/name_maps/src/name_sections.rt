//! The entries of the name sections of a module.

ghost use Rattle.std.specs.Prelude.{◌≡◌, ◌≤◌, ◌+◌, length, map, List, IfOk};
ghost use Rattle.refusal_place.specs.SectionList.{name_of};
ghost use Rattle.name_maps.specs.Entries.{NameMapEntry, entry_of};
ghost use Rattle.name_maps.specs.Told.{TellsNames, contents_of, is_named};

use crate::entry::NameEntry;
use crate::subsections::add_section;
use entity_map::OutOfMemory;
use refusal_place::{SectionPlace, section_places};
use std::alloc::Global;

/// The entries of all name maps and indirect name maps of all name sections, in the order of the
/// bytes (core specification, appendix, name section, and the extended name section). The name of
/// the module is an entry, too. A fault ends its name section: the entries before it are told, and
/// later sections are read. The sections are those of `refusal_place::section_places`, also where
/// the bytes spell no module.
///
/// # Errors
/// `OutOfMemory` where the list finds no memory.
pub fn name_maps<'d>(alloc: Global, bytes: &'d [u8]) -> Result<Vec<NameEntry<'d>>, OutOfMemory>
    ensures told { IfOk result (λ entries. TellsNames bytes.now (map entry_of entries.items)) }
    // The bytes tell no other entries.
    ensures only { IfOk result (λ entries. (other : List NameMapEntry) → TellsNames bytes.now other → other ≡ map entry_of entries.items) }
{
    let places = section_places(alloc, bytes)?;
    let mut entries = Vec::new(alloc);
    for place in &places {
        if is_name_section(place) {
            add_section(&mut entries, contents(bytes, place))?;
        }
    }
    Ok(entries)
}

/// Whether a section is a custom section with the name of name sections.
fn is_name_section(place: &SectionPlace<'_>) -> bool
    ensures { result ≡ is_named (name_of place.now) }
{
    match place.name {
        Some(name) => name == "name",
        None => false,
    }
}

/// The contents of a section.
fn contents<'d>(bytes: &'d [u8], place: &SectionPlace<'_>) -> &'d [u8]
    requires { place.now.contents + place.now.size ≤ length bytes.now }
    ensures { result.now ≡ contents_of bytes.now place.now }
{
    let start = place.contents as usize;
    &bytes[start..start + place.size as usize]
}
