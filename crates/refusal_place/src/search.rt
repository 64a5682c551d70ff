//! The search for the place at which reading ends.

ghost use Rattle.std.specs.Prelude.{◌≡◌, ◌≤◌, ◌<◌, ◌^◌, ◌⊎◌, None, length, IfOk, IfSome};
ghost use Rattle.refusal_place.specs.Found.{place_in_header};
ghost use Rattle.refusal_place.specs.Places.{AreAModule, Decides, IsOpenWhereItEnds, IsPlaceOf};

use crate::header::header_fault;
use crate::place::{Fault, Place};
use crate::sections::{pass_section, section_place};
use entity_map::OutOfMemory;
use form_reader::{HEADER, MAX_MODULE_SIZE};
use std::alloc::Global;

/// Where and why the bytes are refused as a module; `None` where they are read, and where there are
/// 2^30 bytes or more, which are not looked at.
///
/// # Errors
/// `OutOfMemory` where an entry finds no memory.
pub fn locate(alloc: Global, bytes: &[u8]) -> Result<Option<Place>, OutOfMemory>
    ensures module { IfOk result (λ place. place ≡ None → (2 ^ 30 ≤ length bytes.now) ⊎ AreAModule bytes.now) }
    ensures refused { IfOk result (λ place. IfSome place (λ p. (length bytes.now < 2 ^ 30) × (¬ AreAModule bytes.now))) }
    // The section, the entry and the offset are those of the first that is wrong.
    ensures place { IfOk result (λ place. IfSome place (IsPlaceOf bytes.now)) }
    // It is left open whether the input begins a module exactly where it ends too early.
    ensures early { IfOk result (λ place. IfSome place (IsOpenWhereItEnds (length bytes.now))) }
    // No input that begins with so many of the bytes is a module.
    ensures decided { IfOk result (λ place. IfSome place (λ p. IfSome p.decided (Decides bytes.now))) }
{
    if bytes.len() >= MAX_MODULE_SIZE {
        return Ok(None);
    }
    if let Some(offset) = header_fault(bytes) {
        return Ok(Some(header_place(bytes, offset)));
    }
    let mut start = HEADER.len();
    let mut next = 0;
    'sections: while start < bytes.len() {
        match pass_section(alloc, &bytes[start..], start, &mut next)? {
            Some(length) => start += length,
            None => return Ok(Some(section_place(alloc, &bytes[start..], start, next)?)),
        }
    }
    Ok(None)
}

/// A place in the header.
fn header_place(bytes: &[u8], offset: usize) -> Place
    requires within { offset ≤ length bytes.now }
    requires small { length bytes.now < 2 ^ 30 }
    ensures { result ≡ place_in_header bytes.now offset }
{
    let byte = offset as u32;
    Place {
        section: None,
        section_start: 0,
        entry: None,
        byte,
        fault: Fault::Header,
        decided: (offset < bytes.len()).then_some(byte + 1),
    }
}
