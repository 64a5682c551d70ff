//! The first break of rule L10, concrete references outside the type section.

ghost use Rattle.std.specs.Prelude.{◌≤◌, length, IfOk};
ghost use Rattle.rule_spec.specs.declared.rules.Rule.{Rule};
ghost use Rattle.form_rules.specs.Views.{lists_of};
ghost use Rattle.rule_breaks.specs.Breaks.{Locates};

use crate::elements::first_element;
use crate::entries::{first_body, first_import, first_table};
use crate::globals::first_referring_global;
use crate::lists::{Break, ModuleList, at};
use crate::segments::first_segment;
use entity_map::OutOfMemory;
use form_rules::Typing;
use rule_spec::Rule;
use std::alloc::Global;

/// The first entry that refers to a type that is not declared: of imports, tables, globals, element
/// segments, bodies and data segments.
pub(crate) fn break_of_references(
    alloc: Global,
    typing: &Typing<'_, '_, '_>,
) -> Result<Option<Break>, OutOfMemory>
    requires imported { typing.now.lists.now.imported_globals ≤ length typing.now.lists.now.spaces.global_types.items }
    ensures { IfOk result (Locates Rule.L10 (lists_of typing.now.lists.now)) }
{
    if let Some(entry) = first_import(typing.lists)? {
        return Ok(at(ModuleList::Imports, entry));
    }
    if let Some(entry) = first_table(alloc, typing, Rule::L10)? {
        return Ok(at(ModuleList::Tables, entry));
    }
    if let Some(entry) = first_referring_global(alloc, typing.lists)? {
        return Ok(at(ModuleList::Globals, entry));
    }
    if let Some(entry) = first_element(alloc, typing, Rule::L10)? {
        return Ok(at(ModuleList::Elements, entry));
    }
    if let Some(entry) = first_body(typing.lists, Rule::L10)? {
        return Ok(at(ModuleList::Bodies, entry));
    }
    match first_segment(alloc, typing, Rule::L10)? {
        Some(entry) => Ok(at(ModuleList::Segments, entry)),
        None => Ok(None),
    }
}
