//! The call from C that says what makes a module too large to be planned.

ghost use Rattle.std.specs.Prelude.{◌≡◌, ◌≢◌, ◌⊎◌, ◌↔◌};
ghost use Rattle.planner_c.specs.Calls.{AreRight, IsStatus, options_for};
ghost use Rattle.planner_c.specs.Excess.{FitsAll, HasExcess, TellsExcess, kind_number, kind_index};

use crate::options::{PlanOptions, command_of};
use entity_map::OutOfMemory;
use plan_excess::{Excess, ExcessKind, locate_excess};
use std::alloc::Global;
use translate::{NO_MEMORY, REFUSED, SUCCESS, USAGE};

/// What makes a module too large to be planned, and where it is: `bobbinazure_excess`.
#[repr(C)]
#[derive(Clone, Copy)]
pub struct ExcessRecord<'d> {
    /// What it is: a number from `BOBBINAZURE_EXCESS_INPUT` on.
    pub kind: u32,
    /// The index of the memory, the type or the tag; `u32::MAX` of the input and the context.
    pub index: u32,
    /// The id of the section that has it: of an import, the import section; `u32::MAX` of the input and
    /// the context.
    pub section: u32,
    /// The entry of that section, from 0 on: of a type, its group. 0 of the input and the context.
    pub section_entry: u32,
    /// The offset at which the section's entry begins; 0 of the input and the context.
    pub byte: u32,
    /// A sentence for people, in UTF-8, without a zero at the end.
    pub sentence: &'d [u8],
    /// Whether the sentence is in memory of its own, which `bobbinazure_excess_free` frees.
    pub made: u32,
}

/// Says what makes a module too large to be planned with the options: `bobbinazure_locate_excess`.
/// Answers 0 where it is not too large; 1 where the record has what is; 2 where the options are wrong;
/// 5 where there is no memory. At 0, 2 and 5 the record is as it was.
#[unsafe(no_mangle)]
pub extern "C" fn bobbinazure_locate_excess<'d>(
    alloc: Global,
    bytes: &'d [u8],
    options: &PlanOptions,
    out: &mut ExcessRecord<'d>,
) -> u32
    ensures statuses { IsStatus result }
    // The bytes are not refused as too large, nor for an offset that overflows.
    ensures fits { result ≡ 0 → FitsAll (options_for options.now) bytes.now }
    // The record has what is the first to be too large.
    ensures excess { result ≡ 1 → HasExcess (options_for options.now) bytes.now (λ excess. TellsExcess excess out.new) }
    // Wrong options are reported, exactly.
    ensures usage { (result ≡ 2) ↔ ¬ AreRight options.now }
    ensures same { result ≢ 1 → out.new ≡ out.old }
{
    let Some(command) = command_of(options) else {
        return u32::from(USAGE);
    };
    match locate_excess(alloc, &command, bytes) {
        Ok(None) => u32::from(SUCCESS),
        Ok(Some(excess)) => tell_excess(alloc, &excess, out),
        Err(OutOfMemory) => u32::from(NO_MEMORY),
    }
}

/// Puts what is too large, with its sentence, into a record. Answers 1, or 5 where memory ended and
/// the record is as it was.
fn tell_excess(alloc: Global, excess: &Excess, out: &mut ExcessRecord<'_>) -> u32
    ensures statuses { (result ≡ 1) ⊎ (result ≡ 5) }
    ensures told { result ≡ 1 → TellsExcess excess.now out.new }
    ensures same { result ≡ 5 → out.new ≡ out.old }
{
    let Ok(sentence) = excess.to_string(alloc) else {
        return u32::from(NO_MEMORY);
    };
    let (section, section_entry, byte) = match excess.place {
        Some(place) => (
            u32::from(place.section.id()),
            place.section_entry,
            place.byte,
        ),
        None => (u32::MAX, 0, 0),
    };
    *out = ExcessRecord {
        kind: kind_number(excess.kind),
        index: kind_index(excess.kind),
        section,
        section_entry,
        byte,
        sentence: sentence.into_bytes().leak(),
        made: 1,
    };
    u32::from(REFUSED)
}

/// What is too large, as a number.
fn kind_number(kind: ExcessKind) -> u32
    ensures { result ≡ kind_number kind }
{
    match kind {
        ExcessKind::Input => 1,
        ExcessKind::Image { memory: _ } => 2,
        ExcessKind::Object { type_index: _ } => 3,
        ExcessKind::Exception { tag: _ } => 4,
        ExcessKind::Context => 5,
    }
}

/// The index of what is too large, or the greatest number where it has none.
fn kind_index(kind: ExcessKind) -> u32
    ensures { result ≡ kind_index kind }
{
    match kind {
        ExcessKind::Image { memory } => memory,
        ExcessKind::Object { type_index } => type_index,
        ExcessKind::Exception { tag } => tag,
        ExcessKind::Input | ExcessKind::Context => u32::MAX,
    }
}
