//! Where an entry of a section begins.

ghost use Rattle.std.specs.Prelude.{◌≡◌, ◌∷◌, None, IfOk};
ghost use Rattle.refusal_place.specs.Entries.{IsEntryPlace};
ghost use Rattle.refusal_place.specs.EntryFound.{IsEntryFound, IsEntryIn, IsEntryInSection};
ghost use Rattle.refusal_place.specs.Found.{Shortens};
ghost use Rattle.refusal_place.specs.Kinds.{id_of};
ghost use Rattle.refusal_place.specs.Listed.{ListsAtMost};

use crate::entries::{InputEntryReader, pass_entry};
use crate::kind::SectionKind;
use crate::numbers::read_number;
use crate::seek::{contents_in_section, seek_section};
use entity_map::OutOfMemory;
use form_reader::{
    Cursor, DataSegment, DefinedFunction, DefinedTag, Element, Entry, Export, FunctionBody,
    GlobalDef, Import, RecGroup, TableDef,
};
use std::alloc::Global;
use wasm_spec::MemoryType;

/// The offset at which an entry of a section of this kind begins. The sections and the entries
/// before it have to be read. `None` where there is no such entry, and where there are 2^30
/// bytes or more, which are not looked at.
///
/// # Errors
/// `OutOfMemory` where an entry finds no memory.
pub fn entry_place(
    alloc: Global,
    bytes: &[u8],
    section: SectionKind,
    entry: u32,
) -> Result<Option<u32>, OutOfMemory>
    ensures place { IfOk result (IsEntryPlace bytes.now section entry) }
    // A module that the bytes spell lists no such entry.
    ensures none { IfOk result (λ place. place ≡ None → ListsAtMost bytes.now section entry) }
{
    let Some(start) = seek_section(alloc, bytes, section)? else {
        return Ok(None);
    };
    match entry_in_section(alloc, section, &bytes[start + 1..], entry)? {
        Some(distance) => Ok(Some((start + distance) as u32)),
        None => Ok(None),
    }
}

/// How far behind the start of a section an entry of it begins; `sized` follows the id.
fn entry_in_section(
    alloc: Global,
    section: SectionKind,
    sized: &[u8],
    entry: u32,
) -> Result<Option<usize>, OutOfMemory>
    ensures { IfOk result (IsEntryInSection section (id_of section ∷ sized.now) entry) }
{
    let Some(found) = contents_in_section(section, sized)? else {
        return Ok(None);
    };
    match entry_in_contents(alloc, section, found.contents, entry)? {
        Some(offset) => Ok(Some(found.before + offset)),
        None => Ok(None),
    }
}

/// How far from the start of the contents an entry begins.
fn entry_in_contents(
    alloc: Global,
    section: SectionKind,
    contents: &[u8],
    entry: u32,
) -> Result<Option<usize>, OutOfMemory>
    ensures { IfOk result (IsEntryIn section contents.now entry) }
{
    match section {
        SectionKind::Custom | SectionKind::Start | SectionKind::DataCount => Ok(None),
        SectionKind::Type => listed_entry::<InputEntryReader<RecGroup>>(alloc, contents, entry),
        SectionKind::Import => listed_entry::<Import<'_>>(alloc, contents, entry),
        SectionKind::Function => listed_entry::<InputEntryReader<DefinedFunction>>(
            alloc, contents, entry,
        ),
        SectionKind::Table => listed_entry::<TableDef>(alloc, contents, entry),
        SectionKind::Memory => listed_entry::<MemoryType>(alloc, contents, entry),
        SectionKind::Tag => listed_entry::<InputEntryReader<DefinedTag>>(alloc, contents, entry),
        SectionKind::Global => listed_entry::<InputEntryReader<GlobalDef>>(alloc, contents, entry),
        SectionKind::Export => listed_entry::<Export<'_>>(alloc, contents, entry),
        SectionKind::Element => listed_entry::<InputEntryReader<Element>>(alloc, contents, entry),
        SectionKind::Code => listed_entry::<FunctionBody<'_>>(alloc, contents, entry),
        SectionKind::Data => listed_entry::<InputEntryReader<DataSegment<'_>>>(
            alloc, contents, entry,
        ),
    }
}

/// How far from the start of a list an entry of it begins, where those before it are read.
fn listed_entry<'d, E: Entry<'d>>(
    alloc: Global,
    contents: &'d [u8],
    entry: u32,
) -> Result<Option<usize>, OutOfMemory>
    requires shortens { Shortens E.form }
    ensures { IfOk result (IsEntryFound E.form contents.now entry) }
{
    let mut cursor = Cursor { rest: contents };
    let Some(count) = read_number(&mut cursor)? else {
        return Ok(None);
    };
    if count <= entry {
        return Ok(None);
    }
    'entries: for passed in 0..entry {
        if let Some(_fault) = pass_entry::<E>(alloc, &mut cursor)? {
            return Ok(None);
        }
    }
    Ok(Some(contents.len() - cursor.rest.len()))
}
