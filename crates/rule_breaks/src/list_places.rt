//! Where an entry of a list begins, from the bytes of a module.

ghost use Rattle.std.specs.Prelude.{◌≡◌, ◌<◌, ◌^◌, None, length, IfOk, IfSome};
ghost use Rattle.wasm_spec.specs.Grammar.{Spells};
ghost use Rattle.wasm_spec.specs.Interfaces.{HasNoInterfaceTypes};
ghost use Rattle.form_reader.specs.Views.{module_of};
ghost use Rattle.rule_breaks.specs.BrokenAt.{HasEntryInSection};
ghost use Rattle.rule_breaks.specs.ListPlaces.{IsPlacedAt, IsEntryPlaceOf, LacksIfRead};
ghost use Rattle.rule_breaks.specs.Listed.{IsListed};
ghost use Rattle.rule_breaks.specs.SectionEntries.{BeginsAt};

use crate::lists::Break;
use crate::section_entries::{SectionEntry, section_entry};
use entity_map::OutOfMemory;
use form_reader::{Form, ReadError, read_module};
use form_rules::ModuleSource;
use refusal_place::{SectionKind, contents_place, entry_place};
use std::alloc::Global;

/// The entry of a section, and where it begins.
#[derive(Clone, Copy, Debug, PartialEq, Eq)]
pub struct EntryPlace {
    /// The kind of the section: the import section where the entry is imported.
    pub section: SectionKind,
    /// The entry of that section, from 0 on: of a type the recursion group that has it. It is 0 in
    /// start and data count sections, which have one number.
    pub section_entry: u32,
    /// The offset in the input at which that entry begins.
    pub byte: u32,
}

/// The entry of a section that has an entry of a list, and where it begins. None where the bytes
/// are not read as a module, and where the module has no such entry.
///
/// # Errors
/// `OutOfMemory` where the module or an entry finds no memory.
pub fn list_entry_place(
    alloc: Global,
    bytes: &[u8],
    place: Break,
) -> Result<Option<EntryPlace>, OutOfMemory>
    ensures found { IfOk result (λ p. IfSome p (IsEntryPlaceOf bytes.now place)) }
    ensures none { IfOk result (λ p. p ≡ None → LacksIfRead bytes.now place) }
{
    let form = match read_module(alloc, bytes) {
        Ok(form) => form,
        Err(ReadError::OutOfMemory) => return Err(OutOfMemory),
        Err(ReadError::Malformed) => return Ok(None),
        Err(ReadError::Unsupported(_)) => return Ok(None),
        Err(ReadError::TooLarge) => return Ok(None),
    };
    entry_place_in(alloc, bytes, &form, place)
}

/// The same of bytes that were read.
pub(crate) fn entry_place_in(
    alloc: Global,
    bytes: &[u8],
    form: &Form<'_>,
    place: Break,
) -> Result<Option<EntryPlace>, OutOfMemory>
    requires few { length bytes.now < 2 ^ 30 }
    requires spelled { Spells bytes.now (module_of form.now) }
    requires no_interface_types { HasNoInterfaceTypes (module_of form.now) }
    ensures found { IfOk result (λ p. IfSome p (IsPlacedAt bytes.now (module_of form.now) place)) }
    ensures none { IfOk result (λ p. p ≡ None → ¬ IsListed (module_of form.now) place.list place.entry) }
{
    let Some(SectionEntry { section, entry }) = section_entry(
        alloc,
        ModuleSource::Form(form),
        place,
    )?
    else {
        return Ok(None);
    };
    match section_entry_place(alloc, bytes, section, entry)? {
        Some(byte) => Ok(Some(EntryPlace {
            section,
            section_entry: entry,
            byte,
        })),
        None => Ok(None),
    }
}

/// The offset at which the entry of a section begins; none where there is no such entry.
fn section_entry_place(
    alloc: Global,
    bytes: &[u8],
    section: SectionKind,
    entry: u32,
) -> Result<Option<u32>, OutOfMemory>
    ensures found { IfOk result (λ byte. IfSome byte (BeginsAt bytes.now section entry)) }
    ensures none { IfOk result (λ byte. byte ≡ None → ¬ HasEntryInSection bytes.now section entry) }
{
    match section {
        SectionKind::Start | SectionKind::DataCount => contents_place(alloc, bytes, section),
        _ => entry_place(alloc, bytes, section, entry),
    }
}
