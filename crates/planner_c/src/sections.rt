//! The call from C that lists the sections of a module.

ghost use Rattle.std.specs.Prelude.{◌≡◌, ◌≢◌, ◌⊎◌, map, IfOk};
ghost use Rattle.planner_c.specs.Sections.{TellsSections, section_told, section_row};

use entity_map::OutOfMemory;
use refusal_place::{SectionPlace, section_places};
use std::alloc::Global;
use translate::{NO_MEMORY, SUCCESS};

/// A section of a module. Offsets count the bytes of the module, from 0 on: `bobbinazure_section`.
#[repr(C)]
#[derive(Clone, Copy)]
pub struct SectionRow<'d> {
    /// The id; no section of a module has one above 13.
    pub id: u32,
    /// The offset of the section, which begins with its id.
    pub start: u32,
    /// The offset of its contents. Where `has_name` is 1 they begin with the name; the rest goes from
    /// the end of the name up to `contents + size`.
    pub contents: u32,
    /// The length of its contents, in bytes.
    pub size: u32,
    /// Whether it is a custom section that begins with a name.
    pub has_name: u32,
    /// The name, in the bytes of the module. Without a name it is empty, and not in those bytes. It is
    /// never freed.
    pub name: &'d [u8],
}

/// The sections of a module: `bobbinazure_section_list`.
#[repr(C)]
#[derive(Clone, Copy)]
pub struct SectionsRecord<'d> {
    /// In order, as far as each has an id, a size and all its contents.
    pub sections: &'d [SectionRow<'d>],
}

/// Lists the sections of the bytes, also where they spell no module: `bobbinazure_sections`.
/// Answers 0 where the record has them, and 5 where there is no memory and the record is as it was.
#[unsafe(no_mangle)]
pub extern "C" fn bobbinazure_sections<'d>(
    alloc: Global,
    bytes: &'d [u8],
    out: &mut SectionsRecord<'d>,
) -> u32
    ensures statuses { (result ≡ 0) ⊎ (result ≡ 5) }
    // The record has the sections of the bytes, and so each section of a module.
    ensures told { result ≡ 0 → TellsSections bytes.now out.new }
    ensures same { result ≢ 0 → out.new ≡ out.old }
{
    let Ok(places) = section_places(alloc, bytes) else {
        return u32::from(NO_MEMORY);
    };
    let Ok(rows) = section_rows(alloc, &places) else {
        return u32::from(NO_MEMORY);
    };
    *out = SectionsRecord {
        sections: rows.leak(),
    };
    u32::from(SUCCESS)
}

fn section_rows<'d>(
    alloc: Global,
    places: &[SectionPlace<'d>],
) -> Result<Vec<SectionRow<'d>>, OutOfMemory>
    ensures { IfOk result (λ rows. map section_told rows.items ≡ map section_row places.now) }
{
    let mut rows = Vec::with_capacity(alloc, places.len())?;
    for place in places {
        rows.push(section_row(place))?;
    }
    Ok(rows)
}

fn section_row<'d>(place: &SectionPlace<'d>) -> SectionRow<'d>
    ensures { section_told result ≡ section_row place.now }
{
    SectionRow {
        id: u32::from(place.id),
        start: place.start,
        contents: place.contents,
        size: place.size,
        has_name: u32::from(place.name.is_some()),
        name: place.name.unwrap_or("").as_bytes(),
    }
}
