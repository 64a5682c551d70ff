//! The sections of the input, and the names of custom ones.

ghost use Rattle.std.specs.Prelude.{◌≡◌, ◌≤◌, ◌<◌, ◌+◌, ◌^◌, length, IfOk};
ghost use Rattle.std.specs.Option.{option_map};
ghost use Rattle.refusal_place.specs.SectionList.{HasName, IsFound, IsSectionList, ListsAll};

use crate::header::header_fault;
use crate::kind::SectionKind;
use crate::numbers::read_number;
use entity_map::OutOfMemory;
use form_reader::{Cursor, HEADER, MAX_MODULE_SIZE, ReadError};
use std::alloc::Global;

/// A section of the input. Offsets count the bytes of the input, from 0 on.
#[derive(Clone, Copy, Debug, PartialEq, Eq)]
pub struct SectionPlace<'d> {
    /// The id; no section of a module has one above 13.
    pub id: u8,
    /// The offset of the section, which begins with its id.
    pub start: u32,
    /// The offset of its contents.
    pub contents: u32,
    /// The length of its contents, in bytes.
    pub size: u32,
    /// The name of a custom section; `None` for another section, and where the contents begin with
    /// no name.
    pub name: Option<&'d str>,
}

/// The sections of the input in order, as far as each has an id, a size and all its contents. Of the
/// contents only names are looked at. Empty where the header is wrong, and where there are 2^30
/// bytes or more.
///
/// # Errors
/// `OutOfMemory` where the list finds no memory.
pub fn section_places<'d>(
    alloc: Global,
    bytes: &'d [u8],
) -> Result<Vec<SectionPlace<'d>>, OutOfMemory>
    ensures sections { IfOk result (λ places. IsSectionList bytes.now places.items) }
    // The list has each section of a module.
    ensures all { IfOk result (λ places. ListsAll bytes.now places.items) }
{
    let mut places = Vec::new(alloc);
    if bytes.len() >= MAX_MODULE_SIZE {
        return Ok(places);
    }
    if let Some(_other) = header_fault(bytes) {
        return Ok(places);
    }
    let mut start = HEADER.len();
    'sections: while let Some(place) = section_at(&bytes[start..], start)? {
        start = (place.contents + place.size) as usize;
        places.push(place)?;
    }
    Ok(places)
}

/// The section with which these bytes begin; the first of them is at the offset `start`.
fn section_at<'d>(rest: &'d [u8], start: usize) -> Result<Option<SectionPlace<'d>>, OutOfMemory>
    requires small { start + length rest.now < 2 ^ 30 }
    ensures { IfOk result (IsFound start rest.now) }
{
    let [id, sized @ ..] = rest else {
        return Ok(None);
    };
    let mut cursor = Cursor { rest: sized };
    let Some(size) = read_number(&mut cursor)? else {
        return Ok(None);
    };
    let Some(contents) = cursor.rest.get(..size as usize) else {
        return Ok(None);
    };
    let offset = start + 1 + (sized.len() - cursor.rest.len());
    let name = custom_name(*id, contents)?;
    Ok(Some(SectionPlace {
        id: *id,
        start: start as u32,
        contents: offset as u32,
        size,
        name,
    }))
}

/// The name with which the contents of a custom section begin.
fn custom_name<'d>(id: u8, contents: &'d [u8]) -> Result<Option<&'d str>, OutOfMemory>
    ensures { IfOk result (λ text. HasName id contents.now (option_map (λ t. t.now) text)) }
{
    if id != SectionKind::Custom.id() {
        return Ok(None);
    }
    let mut cursor = Cursor { rest: contents };
    match cursor.name() {
        Ok(name) => Ok(Some(name)),
        Err(ReadError::OutOfMemory) => Err(OutOfMemory),
        Err(ReadError::Malformed) => Ok(None),
        // No name has these errors.
        Err(ReadError::Unsupported(_)) => Ok(None),
        Err(ReadError::TooLarge) => Ok(None),
    }
}
