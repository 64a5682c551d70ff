//! What is wrong with the contents of a section.

ghost use Rattle.std.specs.Prelude.{◌≡◌, None, Some, IfOk};
ghost use Rattle.refusal_place.specs.Found.{AreUnread};
ghost use Rattle.refusal_place.specs.Places.{IsInContents};

use crate::entries::{InputEntryReader, entries_fault};
use crate::kind::SectionKind;
use crate::place::Fault;
use entity_map::OutOfMemory;
use form_reader::{
    Cursor, DataSegment, DefinedFunction, DefinedTag, Element, Export, FunctionBody, GlobalDef,
    Import, ReadError, RecGroup, TableDef,
};
use std::alloc::Global;
use wasm_spec::{MemoryType, What};

/// What is wrong with the contents of a section.
#[derive(Clone, Copy)]
pub(crate) struct ContentsFault {
    /// The entry that is wrong, where one is.
    pub entry: Option<u32>,
    /// How far from the start of the contents it begins.
    pub offset: usize,
    pub fault: Fault,
}

impl ContentsFault {
    /// A fault of no entry, at the start of the contents.
    pub(crate) fn at_start(fault: Fault) -> ContentsFault
        ensures { (result.fault ≡ fault) × (result.entry ≡ None) × (result.offset ≡ 0) }
    {
        ContentsFault {
            entry: None,
            offset: 0,
            fault,
        }
    }
}

/// What is wrong with contents that are not read as those of a section of this kind.
pub(crate) fn contents_fault(
    alloc: Global,
    section: SectionKind,
    contents: &[u8],
) -> Result<ContentsFault, OutOfMemory>
    requires unread { AreUnread section contents.now }
    ensures { IfOk result (λ found. IsInContents found.fault section contents.now found.entry found.offset) }
{
    match section {
        SectionKind::Custom => custom_fault(contents),
        SectionKind::Start | SectionKind::DataCount => Ok(ContentsFault::at_start(Fault::Number)),
        SectionKind::Type => entries_fault::<InputEntryReader<RecGroup>>(alloc, contents),
        SectionKind::Import => entries_fault::<Import<'_>>(alloc, contents),
        SectionKind::Function => entries_fault::<InputEntryReader<DefinedFunction>>(
            alloc, contents,
        ),
        SectionKind::Table => entries_fault::<TableDef>(alloc, contents),
        SectionKind::Memory => entries_fault::<MemoryType>(alloc, contents),
        SectionKind::Tag => entries_fault::<InputEntryReader<DefinedTag>>(alloc, contents),
        SectionKind::Global => entries_fault::<InputEntryReader<GlobalDef>>(alloc, contents),
        SectionKind::Export => entries_fault::<Export<'_>>(alloc, contents),
        SectionKind::Element => entries_fault::<InputEntryReader<Element>>(alloc, contents),
        SectionKind::Code => entries_fault::<FunctionBody<'_>>(alloc, contents),
        SectionKind::Data => entries_fault::<InputEntryReader<DataSegment<'_>>>(alloc, contents),
    }
}

/// What is wrong with a custom section: it begins with no name, or its name is one of interface types.
fn custom_fault(contents: &[u8]) -> Result<ContentsFault, OutOfMemory>
    requires unread { AreUnread SectionKind.Custom contents.now }
    ensures { IfOk result (λ found. IsInContents found.fault SectionKind.Custom contents.now found.entry found.offset) }
{
    let mut cursor = Cursor { rest: contents };
    match cursor.name() {
        Ok(_) => Ok(ContentsFault::at_start(Fault::Unsupported(What::InterfaceTypes))),
        Err(ReadError::OutOfMemory) => Err(OutOfMemory),
        Err(ReadError::Malformed) => Ok(ContentsFault::at_start(Fault::Name)),
        // No name has these errors.
        Err(ReadError::Unsupported(_)) => Ok(ContentsFault::at_start(Fault::Name)),
        Err(ReadError::TooLarge) => Ok(ContentsFault::at_start(Fault::Name)),
    }
}
