//! Sections, one after another (core specification, 5.5, sections).

ghost use Rattle.std.specs.Prelude.{◌≡◌, ◌+◌, ◌<◌, ◌^◌, [], ◌∷◌, length, nat_eq, false, IfOk};
ghost use Rattle.std.specs.List.{flat_map, starts_with};
ghost use Rattle.wasm_spec.specs.Module as plain;
ghost use Rattle.form_reader.specs.Input.{input_section_of, sections_of_part, HasGroups, AddsGroups};
ghost use Rattle.form_reader.specs.Reading.{Gives, Reads};
ghost use Rattle.form_reader.specs.ReadingSections.{all_sections_at, ReadsSections};
ghost use Rattle.form_reader.specs.SectionRows.{section};

use crate::contents::{next_order, order_of};
use crate::cursor::Cursor;
use crate::error::ReadError;
use crate::group_sink::GroupSink;
use crate::input::{InputPart, InputSection};
use std::alloc::Global;

impl<'d> Cursor<'d> {
    /// A non-custom section at a given offset of the input, where the next one has at least the
    /// order `next`.
    #[tactic(auto, unfolding(crate::specs::SectionRows::section))]
    pub fn section<T: GroupSink>(
        &mut self,
        alloc: Global,
        place: usize,
        next: usize,
        sink: &mut T,
    ) -> Result<InputSection<'d>, ReadError>
        requires small { place + length self.now.rest.now < 2 ^ 30 }
        requires taking { HasGroups T.holds sink.old }
        requires other { starts_with nat_eq self.now.rest.now (0 ∷ []) ≡ false }
        ensures reads { Reads (section place next).read input_section_of self.old.rest.now self.new.rest.now result }
        ensures takes { IfOk result (λ section. AddsGroups T.holds sink.old sink.new (plain.groups (input_section_of section ∷ []))) }
    {
        let id = self.byte()?;
        match order_of(id) {
            Some(order) if next <= order => { self.section_contents(alloc, place + 1, id, sink) }
            _ => Err(ReadError::Malformed),
        }
    }

    /// A run of custom sections, or another section, as `section` reads it; after that the next one
    /// has at least the new order.
    fn part<T: GroupSink>(
        &mut self,
        alloc: Global,
        place: usize,
        next: &mut usize,
        sink: &mut T,
    ) -> Result<InputPart<'d>, ReadError>
        requires small { place + length self.now.rest.now < 2 ^ 30 }
        requires taking { HasGroups T.holds sink.old }
        ensures reads { ReadsSections sections_of_part place next.old next.new self.old.rest.now self.new.rest.now result }
        ensures takes { IfOk result (λ part. AddsGroups T.holds sink.old sink.new (plain.groups (sections_of_part part))) }
    {
        if self.is_at_custom() {
            return Ok(InputPart::Customs(self.customs()?));
        }
        let section = self.section(alloc, place, *next, sink)?;
        *next = next_order(*next, &section);
        Ok(InputPart::Section(section))
    }
}

/// The sections up to the end of the bytes, which begin at a given offset of the input. `sink`
/// takes the groups of types.
pub fn sections<'d, T: GroupSink>(
    alloc: Global,
    start: usize,
    bytes: &'d [u8],
    sink: &mut T,
) -> Result<Vec<InputPart<'d>>, ReadError>
    requires small { start + length bytes.now < 2 ^ 30 }
    requires taking { HasGroups T.holds sink.old }
    ensures reads { Gives (λ x. flat_map sections_of_part x.items) result (all_sections_at start 0 bytes.now) }
    ensures takes { IfOk result (λ parts. AddsGroups T.holds sink.old sink.new (plain.groups (flat_map sections_of_part parts.items))) }
{
    let mut all = Vec::new(alloc);
    let mut cursor = Cursor { rest: bytes };
    let mut place = start;
    let mut next = 0;
    'parts: while !cursor.rest.is_empty() {
        let before = cursor.rest.len();
        let part = cursor.part(alloc, place, &mut next, sink)?;
        place += before - cursor.rest.len();
        all.push(part)?;
    }
    Ok(all)
}
