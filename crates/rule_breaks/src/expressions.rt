//! The first break of rules L5 and L6, initialisers of tables and constant expressions.

ghost use Rattle.std.specs.Prelude.{◌≤◌, length, IfOk};
ghost use Rattle.rule_spec.specs.declared.rules.Rule.{Rule};
ghost use Rattle.form_rules.specs.Views.{lists_of};
ghost use Rattle.form_rules.specs.Outcomes.{HasGlobals};
ghost use Rattle.rule_breaks.specs.Breaks.{Locates};

use crate::elements::first_element;
use crate::entries::first_table;
use crate::globals::first_untyped_global;
use crate::lists::{Break, ModuleList, at};
use crate::segments::first_segment;
use entity_map::OutOfMemory;
use form_rules::Typing;
use rule_spec::Rule;
use std::alloc::Global;

/// The first table whose cells cannot be null and that has no initialiser.
pub(crate) fn break_of_tables(
    alloc: Global,
    typing: &Typing<'_, '_, '_>,
) -> Result<Option<Break>, OutOfMemory>
    requires imported { typing.now.lists.now.imported_globals ≤ length typing.now.lists.now.spaces.global_types.items }
    ensures { IfOk result (Locates Rule.L5 (lists_of typing.now.lists.now)) }
{
    match first_table(alloc, typing, Rule::L5)? {
        Some(entry) => Ok(at(ModuleList::Tables, entry)),
        None => Ok(None),
    }
}

/// The first table, global or segment with an expression of another class than its place requires.
pub(crate) fn break_of_expressions(
    alloc: Global,
    typing: &Typing<'_, '_, '_>,
) -> Result<Option<Break>, OutOfMemory>
    requires counted { HasGlobals (lists_of typing.now.lists.now) }
    ensures { IfOk result (Locates Rule.L6 (lists_of typing.now.lists.now)) }
{
    if let Some(entry) = first_table(alloc, typing, Rule::L6)? {
        return Ok(at(ModuleList::Tables, entry));
    }
    if let Some(entry) = first_untyped_global(alloc, typing)? {
        return Ok(at(ModuleList::Globals, entry));
    }
    if let Some(entry) = first_element(alloc, typing, Rule::L6)? {
        return Ok(at(ModuleList::Elements, entry));
    }
    match first_segment(alloc, typing, Rule::L6)? {
        Some(entry) => Ok(at(ModuleList::Segments, entry)),
        None => Ok(None),
    }
}
