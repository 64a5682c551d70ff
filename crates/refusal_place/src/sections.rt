//! A section that is read, and one that is not.

ghost use Rattle.std.specs.Prelude.{◌≡◌, ◌+◌, ◌<◌, ◌≤◌, ◌^◌, length, IfOk, IfSome, None, Err};
ghost use Rattle.wasm_spec.specs.Grammar.{order_of as spec_order_of};
ghost use Rattle.form_reader.specs.Reading.{Fault as ReadFault};
ghost use Rattle.form_reader.specs.declared.error.ReadError.TheVariants as read;
ghost use Rattle.form_reader.specs.SectionRows.{section as section_row};
ghost use Rattle.refusal_place.specs.Found.{IsPassed, IsDecidedBy, IsAfterId, after_id_at, misplaced, place_of_id, place_of_size, place_of_cut};
ghost use Rattle.refusal_place.specs.Kinds.{id_of};
ghost use Rattle.refusal_place.specs.Places.{IsOpenWhereItEnds, IsWrong};

use crate::contents::contents_fault;
use crate::kind::SectionKind;
use crate::numbers::read_number;
use crate::place::{Fault, Place};
use entity_map::OutOfMemory;
use form_reader::{Cursor, NoSink, ReadError, next_order, order_of};
use std::alloc::Global;

/// The length of the section at the front, where it is read; `next` is then the least order of
/// the one after it.
pub(crate) fn pass_section(
    alloc: Global,
    rest: &[u8],
    start: usize,
    next: &mut usize,
) -> Result<Option<usize>, OutOfMemory>
    requires small { start + length rest.now < 2 ^ 30 }
    ensures { IfOk result (λ passed. IsPassed start next.old next.new rest.now passed) }
{
    let mut cursor = Cursor { rest };
    if cursor.is_at_custom() {
        return match cursor.custom() {
            Ok(_) => Ok(Some(rest.len() - cursor.rest.len())),
            Err(error) => not_read(error),
        };
    }
    match cursor.section(alloc, start, *next, &mut NoSink) {
        Ok(section) => {
            *next = next_order(*next, &section);
            Ok(Some(rest.len() - cursor.rest.len()))
        }
        Err(error) => not_read(error),
    }
}

/// No section was read, or memory ran out.
fn not_read(error: ReadError) -> Result<Option<usize>, OutOfMemory>
    ensures { IfOk result (λ passed. (passed ≡ None) × (¬ (error ≡ read.OutOfMemory))) }
{
    match error {
        ReadError::OutOfMemory => Err(OutOfMemory),
        ReadError::Malformed | ReadError::TooLarge | ReadError::Unsupported(_) => Ok(None),
    }
}

/// Where and why the section that begins at `start` is not read.
pub(crate) fn section_place(
    alloc: Global,
    rest: &[u8],
    start: usize,
    next: usize,
) -> Result<Place, OutOfMemory>
    requires small { start + length rest.now < 2 ^ 30 }
    requires some { 0 < length rest.now }
    requires unread { (read_fault : ReadFault) × ((section_row start next).read rest.now ≡ Err read_fault) }
    ensures wrong { IfOk result (λ p. (p.section_start ≡ start) × IsWrong p.fault next rest.now p) }
    ensures within { IfOk result (λ p. p.byte ≤ start + length rest.now) }
    ensures decided { IfOk result (λ p. IfSome p.decided (IsDecidedBy start next rest.now)) }
    ensures early { IfOk result (IsOpenWhereItEnds (start + length rest.now)) }
{
    let [id, sized @ ..] = rest else {
        unreachable!()
    };
    let id = *id;
    let Some(section) = SectionKind::of_id(id) else {
        return Ok(id_place(None, start, Fault::UnknownSection(id)));
    };
    if is_misplaced(id, next) {
        return Ok(id_place(Some(section), start, Fault::SectionOrder));
    }
    sized_place(alloc, section, sized, start)
}

/// Whether a section with this id may not be where the next one has at least the order `next`.
fn is_misplaced(id: u8, next: usize) -> bool
    ensures { result ≡ misplaced next (spec_order_of id) }
{
    match order_of(id) {
        Some(order) => order < next,
        None => false,
    }
}

/// A place at the id of a section.
fn id_place(section: Option<SectionKind>, start: usize, fault: Fault) -> Place
    requires { start < 2 ^ 30 }
    ensures { result ≡ place_of_id section start fault }
{
    let start = start as u32;
    Place {
        section,
        section_start: start,
        entry: None,
        byte: start,
        fault,
        decided: Some(start + 1),
    }
}

/// Where and why what follows the id of a section is not read; the id is at `start`.
fn sized_place(
    alloc: Global,
    section: SectionKind,
    sized: &[u8],
    start: usize,
) -> Result<Place, OutOfMemory>
    requires small { start + (1 + length sized.now) < 2 ^ 30 }
    requires unread { (read_fault : ReadFault) × (after_id_at start (id_of section) sized.now ≡ Err read_fault) }
    ensures { IfOk result (IsAfterId start section sized.now) }
{
    let mut cursor = Cursor { rest: sized };
    let size = match read_number(&mut cursor)? {
        Some(size) => size as usize,
        None => return Ok(size_place(section, sized, start)),
    };
    let contents_start = start + 1 + (sized.len() - cursor.rest.len());
    if cursor.rest.len() < size {
        return Ok(cut_place(
            section,
            start,
            start + 1 + sized.len(),
            contents_start + size,
        ));
    }
    let found = contents_fault(alloc, section, &cursor.rest[..size])?;
    Ok(Place {
        section: Some(section),
        section_start: start as u32,
        entry: found.entry,
        byte: (contents_start + found.offset) as u32,
        fault: found.fault,
        decided: Some((contents_start + size) as u32),
    })
}

/// A place at the size of a section, which is no number. A number has five bytes at most.
fn size_place(section: SectionKind, sized: &[u8], start: usize) -> Place
    requires { start + (1 + length sized.now) < 2 ^ 30 }
    ensures { result ≡ place_of_size section sized.now start }
{
    let start = start as u32;
    Place {
        section: Some(section),
        section_start: start,
        entry: None,
        byte: start + 1,
        fault: Fault::SectionSize,
        decided: (sized.len() >= 5).then_some(start + 6),
    }
}

/// A place at the end of the input, before the end of a section.
fn cut_place(section: SectionKind, start: usize, input_end: usize, section_end: usize) -> Place
    requires start_fits { start < 2 ^ 30 }
    requires end_fits { input_end < 2 ^ 30 }
    ensures { result ≡ place_of_cut section start input_end section_end }
{
    Place {
        section: Some(section),
        section_start: start as u32,
        entry: None,
        byte: input_end as u32,
        fault: Fault::SectionEnd(section_end as u64),
        decided: None,
    }
}
