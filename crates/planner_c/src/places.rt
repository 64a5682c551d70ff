//! The call from C that says where and why a module is refused.

ghost use Rattle.std.specs.Prelude.{◌≡◌, ◌≢◌, ◌⊎◌, ◌≤◌, ◌^◌, length};
ghost use Rattle.refusal_place.specs.Places.{AreAModule};
ghost use Rattle.planner_c.specs.Places.{HasPlace, IsPlaceStatus, TellsPlace, fault_number, number_or_none};

use entity_map::OutOfMemory;
use refusal_place::{Fault, Place, SectionKind, locate};
use std::alloc::Global;
use translate::{NO_MEMORY, REFUSED, SUCCESS};

/// Where and why a module is malformed or not supported. Offsets count the bytes of the module, from
/// 0 on: `bobbinazure_place`.
#[repr(C)]
#[derive(Clone, Copy)]
pub struct PlaceRecord<'d> {
    /// The id of the section; `u32::MAX` in the header, and where no section has the id.
    pub section: u32,
    /// The offset of the section, which begins with its id; 0 in the header.
    pub section_start: u32,
    /// The entry of the section, from 0 on, where an entry is wrong; else `u32::MAX`.
    pub entry: u32,
    /// Where the wrong entry or part begins; the length of the module where it ends inside its header
    /// or a section.
    pub byte: u32,
    /// How many bytes decide that the module is refused, whatever follows them; with other bytes behind
    /// them the cause may differ. `u32::MAX` where the module ends too early.
    pub decided: u32,
    /// What is wrong: a number from `BOBBINAZURE_FAULT_HEADER` on.
    pub fault: u32,
    /// A sentence for people, in UTF-8, without a zero at the end.
    pub sentence: &'d [u8],
    /// Whether the sentence is in memory of its own, which `bobbinazure_place_free` frees.
    pub made: u32,
}

/// Says where and why the bytes are malformed or not supported: `bobbinazure_locate`.
/// Answers 0 where they are read, and where there are 2^30 or more; 1 where the record has a place;
/// 5 where there is no memory. At 0 and 5 the record is as it was.
#[unsafe(no_mangle)]
pub extern "C" fn bobbinazure_locate<'d>(
    alloc: Global,
    bytes: &'d [u8],
    out: &mut PlaceRecord<'d>,
) -> u32
    ensures statuses { IsPlaceStatus result }
    // The bytes spell a module, or they are too many.
    ensures module { result ≡ 0 → (2 ^ 30 ≤ length bytes.now) ⊎ AreAModule bytes.now }
    // The record represents the first place that is wrong.
    ensures place { result ≡ 1 → HasPlace bytes.now (λ place. TellsPlace place out.new) }
    ensures same { result ≢ 1 → out.new ≡ out.old }
{
    match locate(alloc, bytes) {
        Ok(None) => u32::from(SUCCESS),
        Ok(Some(place)) => tell_place(alloc, &place, out),
        Err(OutOfMemory) => u32::from(NO_MEMORY),
    }
}

/// Puts a place with its sentence into a record. Answers 1, or 5 where memory ended and the record
/// is as it was.
fn tell_place(alloc: Global, place: &Place, out: &mut PlaceRecord<'_>) -> u32
    ensures statuses { (result ≡ 1) ⊎ (result ≡ 5) }
    ensures told { result ≡ 1 → TellsPlace place.now out.new }
    ensures same { result ≡ 5 → out.new ≡ out.old }
{
    let Ok(sentence) = place.to_string(alloc) else {
        return u32::from(NO_MEMORY);
    };
    *out = PlaceRecord {
        section: number_or_none(place.section.map(|section| u32::from(section.id()))),
        section_start: place.section_start,
        entry: number_or_none(place.entry),
        byte: place.byte,
        decided: number_or_none(place.decided),
        fault: fault_number(place.fault),
        sentence: sentence.into_bytes().leak(),
        made: 1,
    };
    u32::from(REFUSED)
}

/// A number, or the greatest one where there is none.
fn number_or_none(number: Option<u32>) -> u32
    ensures { result ≡ number_or_none number }
{
    number.unwrap_or(u32::MAX)
}

/// What is wrong, as a number.
fn fault_number(fault: Fault) -> u32
    ensures { result ≡ fault_number fault }
{
    match fault {
        Fault::Header => 1,
        Fault::UnknownSection(_) => 2,
        Fault::SectionOrder => 3,
        Fault::SectionSize => 4,
        Fault::SectionEnd(_) => 5,
        Fault::Number => 6,
        Fault::Name => 7,
        Fault::Count => 8,
        Fault::Entry => 9,
        Fault::Remainder => 10,
        Fault::Unsupported(_) => 11,
    }
}
