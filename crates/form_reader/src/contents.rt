//! What sections hold, by their ids (core specification, 5.5, sections).

ghost use Rattle.std.specs.Prelude.{◌≡◌, ◌+◌, ◌<◌, ◌^◌, [], ◌∷◌, length, IfOk};
ghost use Rattle.wasm_spec.specs.Grammar.{order_of as spec_order_of, section_id as spec_section_id, next_order as spec_next_order};
ghost use Rattle.wasm_spec.specs.Module as plain;
ghost use Rattle.form_reader.specs.Views.{payload_of};
ghost use Rattle.form_reader.specs.Input.{input_payload_of, input_section_of, HasGroups, AddsGroups};
ghost use Rattle.form_reader.specs.Reading.{Reads, whole};
ghost use Rattle.form_reader.specs.ReadingNumbers.{unsigned_at, sized_at};
ghost use Rattle.form_reader.specs.SectionRows.{section_contents};

use crate::cursor::Cursor;
use crate::customs::CUSTOM;
use crate::error::ReadError;
use crate::group_sink::GroupSink;
use crate::input::InputEntries::{self, Elements, Functions, Globals, Segments, Tags, Types};
use crate::input::InputSection::{self, Input, Read};
use crate::type_indices::{DefinedFunction, DefinedTag};
use crate::{DataSegment, Element, Export, GlobalDef, Import, Payload, TableDef};
use std::alloc::Global;
use wasm_spec::MemoryType;

/// The other ids in the order in which sections occur. Custom sections may occur anywhere.
const ORDER: [u8; 13] = [1, 2, 3, 4, 5, 13, 6, 7, 8, 9, 12, 10, 11];

/// The position of an id in that order.
pub fn order_of(id: u8) -> Option<usize>
    ensures { result ≡ spec_order_of id }
{
    ORDER.iter().position(|other| *other == id)
}

/// The id of a section.
fn section_id(section: &InputSection<'_>) -> u8
    ensures { result ≡ spec_section_id (input_section_of section.now) }
{
    match section {
        InputSection::Input(entries) => entries_id(entries),
        InputSection::Read(payload) => payload_id(payload),
    }
}

/// The id of the section that lists these entries.
fn entries_id(entries: &InputEntries<'_>) -> u8
    ensures { result ≡ spec_section_id (input_payload_of entries.now) }
{
    match entries {
        Types(_) => 1,
        Functions(_) => 3,
        Tags(_) => 13,
        Globals(_) => 6,
        Elements(_) => 9,
        Segments(_) => 11,
    }
}

/// The id of the section that a payload is read from.
fn payload_id(payload: &Payload<'_>) -> u8
    ensures { result ≡ spec_section_id (payload_of payload.now) }
{
    match payload {
        Payload::Types(_) => 1,
        Payload::Imports(_) => 2,
        Payload::Functions(_) => 3,
        Payload::Tables(_) => 4,
        Payload::Memories(_) => 5,
        Payload::Tags(_) => 13,
        Payload::Globals(_) => 6,
        Payload::Exports(_) => 7,
        Payload::Start(_) => 8,
        Payload::Elements(_) => 9,
        Payload::DataCount(_) => 12,
        Payload::Code { .. } => 10,
        Payload::Segments(_) => 11,
        Payload::Custom(_) => CUSTOM,
    }
}

/// The lowest order of a section after this one.
pub fn next_order(next: usize, section: &InputSection<'_>) -> usize
    ensures { result ≡ spec_next_order next (input_section_of section.now) }
{
    match order_of(section_id(section)) {
        Some(order) => order + 1,
        None => next,
    }
}

impl<'d> Cursor<'d> {
    /// A number that fills a section.
    #[tactic(auto, unfolding(crate::specs::ReadingNumbers::sized_at, crate::specs::Reading::whole))]
    fn number(&mut self) -> Result<u32, ReadError>
        ensures { Reads (sized_at (whole (unsigned_at 32))) (λ x. x) self.old.rest.now self.new.rest.now result }
    {
        let mut body = self.sized()?;
        let number = body.u32()?;
        if !body.rest.is_empty() {
            return Err(ReadError::Malformed);
        }
        Ok(number)
    }

    /// What follows the id of a non-custom section that is at the offset `place`. `sink` takes the
    /// groups of a type section.
    #[tactic(auto, unfolding(crate::specs::SectionRows::section_contents))]
    pub fn section_contents<T: GroupSink>(
        &mut self,
        alloc: Global,
        place: usize,
        id: u8,
        sink: &mut T,
    ) -> Result<InputSection<'d>, ReadError>
        requires small { place + length self.now.rest.now < 2 ^ 30 }
        requires taking { HasGroups T.holds sink.old }
        ensures reads { Reads (section_contents place id).read input_section_of self.old.rest.now self.new.rest.now result }
        ensures takes { IfOk result (λ section. AddsGroups T.holds sink.old sink.new (plain.groups (input_section_of section ∷ []))) }
    {
        match id {
            1 => Ok(Input(Types(self.sized_groups(alloc, sink)?))),
            2 => Ok(Read(Payload::Imports(self.section_of::<Import<'d>>(alloc)?))),
            3 => Ok(Input(Functions(self.input_vector::<DefinedFunction>(alloc)?))),
            4 => Ok(Read(Payload::Tables(self.section_of::<TableDef>(alloc)?))),
            5 => Ok(Read(Payload::Memories(self.section_of::<MemoryType>(alloc)?))),
            13 => Ok(Input(Tags(self.input_vector::<DefinedTag>(alloc)?))),
            6 => Ok(Input(Globals(self.input_vector::<GlobalDef>(alloc)?))),
            7 => Ok(Read(Payload::Exports(self.section_of::<Export<'d>>(alloc)?))),
            8 => Ok(Read(Payload::Start(self.number()?))),
            9 => Ok(Input(Elements(self.input_vector::<Element>(alloc)?))),
            12 => Ok(Read(Payload::DataCount(self.number()?))),
            10 => Ok(Read(self.code(alloc, place)?)),
            // Few are listed, so that a long offset is not read again.
            11 if self.counts_few() => {
                Ok(Read(Payload::Segments(self.listed_vector::<DataSegment<'d>>(alloc)?)))
            }
            11 => Ok(Input(Segments(self.input_vector::<DataSegment<'d>>(alloc)?))),
            _ => Err(ReadError::Malformed),
        }
    }
}
