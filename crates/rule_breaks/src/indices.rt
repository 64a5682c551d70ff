//! The first break of rules L8 and L9, the start function and what segments name.

ghost use Rattle.std.specs.Prelude.{◌≡◌, IfOk, option_to_list};
ghost use Rattle.std.specs.List.{flat_map};
ghost use Rattle.wasm_spec.specs.Module.{starts_of_section};
ghost use Rattle.rule_spec.specs.declared.rules.Rule.{Rule};
ghost use Rattle.rule_spec.specs.Indices.{CanStart};
ghost use Rattle.form_rules.specs.Source.{source_module, sections_in};
ghost use Rattle.form_rules.specs.Views.{lists_of};
ghost use Rattle.rule_breaks.specs.Search.{Finds};
ghost use Rattle.rule_breaks.specs.Breaks.{Locates};

use crate::elements::first_element;
use crate::lists::{Break, ModuleList, at};
use crate::numbers::next_number;
use crate::segments::first_segment;
use entity_map::OutOfMemory;
use form_reader::Payload;
use form_rules::{Lists, Section, Typing, can_start, sections_of};
use rule_spec::Rule;
use std::alloc::{AllocError, Global};

/// The first start function that cannot start.
pub(crate) fn break_of_starts(lists: &Lists<'_, '_>) -> Result<Option<Break>, OutOfMemory>
    ensures { IfOk result (Locates Rule.L8 (lists_of lists.now)) }
{
    match first_start(lists)? {
        Some(entry) => Ok(at(ModuleList::Starts, entry)),
        None => Ok(None),
    }
}

fn first_start(lists: &Lists<'_, '_>) -> Result<Option<u32>, AllocError>
    ensures { IfOk result (Finds (CanStart (lists_of lists.now)) (flat_map starts_of_section (source_module lists.now.source))) }
{
    let mut number = 0;
    for section in sections_of(lists.source) {
        let Some(function) = start_in(section) else {
            continue;
        };
        if !can_start(lists, function) {
            return Ok(Some(number));
        }
        number = next_number(number)?;
    }
    Ok(None)
}

/// The start function that a section names.
pub(crate) fn start_in(section: Section<'_, '_>) -> Option<u32>
    ensures { option_to_list result ≡ flat_map starts_of_section (sections_in section.entry) }
{
    match section {
        Section::Read(Payload::Start(function)) => Some(*function),
        Section::Customs(_) => None,
        _ => None,
    }
}

/// The first segment that names a table, function or memory that does not exist.
pub(crate) fn break_of_segments(
    alloc: Global,
    typing: &Typing<'_, '_, '_>,
) -> Result<Option<Break>, OutOfMemory>
    ensures { IfOk result (Locates Rule.L9 (lists_of typing.now.lists.now)) }
{
    if let Some(entry) = first_element(alloc, typing, Rule::L9)? {
        return Ok(at(ModuleList::Elements, entry));
    }
    match first_segment(alloc, typing, Rule::L9)? {
        Some(entry) => Ok(at(ModuleList::Segments, entry)),
        None => Ok(None),
    }
}
