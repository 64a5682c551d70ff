//! The first section of a kind, and where its contents begin.

ghost use Rattle.std.specs.Prelude.{◌≡◌, ◌∷◌, None, IfOk};
ghost use Rattle.refusal_place.specs.Contents.{IsContentsPlace};
ghost use Rattle.refusal_place.specs.Sought.{AreContentsIn, IsSectionFound};
ghost use Rattle.refusal_place.specs.Kinds.{id_of};
ghost use Rattle.refusal_place.specs.Listed.{HasNoSection};

use crate::header::header_fault;
use crate::kind::SectionKind;
use crate::numbers::read_number;
use crate::sections::pass_section;
use entity_map::OutOfMemory;
use form_reader::{Cursor, HEADER, MAX_MODULE_SIZE};
use std::alloc::Global;

/// The offset at which the contents of the first section of this kind begin, behind its id and its
/// size. The sections before it have to be read. `None` where there is no such section, where the
/// input ends before it does, and where there are 2^30 bytes or more, which are not looked at.
///
/// # Errors
/// `OutOfMemory` where an entry of a section before it finds no memory.
pub fn contents_place(
    alloc: Global,
    bytes: &[u8],
    section: SectionKind,
) -> Result<Option<u32>, OutOfMemory>
    ensures place { IfOk result (IsContentsPlace bytes.now section) }
    // A module that the bytes spell has no such section.
    ensures none { IfOk result (λ place. place ≡ None → HasNoSection bytes.now section) }
{
    let Some(start) = seek_section(alloc, bytes, section)? else {
        return Ok(None);
    };
    match contents_in_section(section, &bytes[start + 1..])? {
        Some(found) => Ok(Some((start + found.before) as u32)),
        None => Ok(None),
    }
}

/// The offset of the first section of this kind.
pub(crate) fn seek_section(
    alloc: Global,
    bytes: &[u8],
    section: SectionKind,
) -> Result<Option<usize>, OutOfMemory>
    ensures { IfOk result (IsSectionFound bytes.now section) }
{
    if bytes.len() >= MAX_MODULE_SIZE {
        return Ok(None);
    }
    if let Some(_other) = header_fault(bytes) {
        return Ok(None);
    }
    let mut start = HEADER.len();
    let mut next = 0;
    'sections: while start < bytes.len() {
        if bytes[start] == section.id() {
            return Ok(Some(start));
        }
        match pass_section(alloc, &bytes[start..], start, &mut next)? {
            Some(length) => start += length,
            None => return Ok(None),
        }
    }
    Ok(None)
}

/// The contents of a section.
#[derive(Clone, Copy)]
pub(crate) struct FoundContents<'d> {
    /// How far behind the start of the section they begin.
    pub before: usize,
    pub contents: &'d [u8],
}

/// The contents of a section of this kind; `sized` follows the id.
pub(crate) fn contents_in_section(
    section: SectionKind,
    sized: &[u8],
) -> Result<Option<FoundContents<'_>>, OutOfMemory>
    ensures { IfOk result (AreContentsIn section (id_of section ∷ sized.now)) }
{
    let mut cursor = Cursor { rest: sized };
    let size = match read_number(&mut cursor)? {
        Some(size) => size as usize,
        None => return Ok(None),
    };
    if cursor.rest.len() < size {
        return Ok(None);
    }
    Ok(Some(FoundContents {
        before: 1 + (sized.len() - cursor.rest.len()),
        contents: &cursor.rest[..size],
    }))
}
