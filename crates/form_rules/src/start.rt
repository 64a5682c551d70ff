//! The start function (core specification, 3.5, start function).

ghost use Rattle.std.specs.Prelude.{◌↔◌, All, IsTrue, IsSomeAnd};
ghost use Rattle.std.specs.List.{flat_map};
ghost use Rattle.wasm_spec.specs.Module.{starts_of_section};
ghost use Rattle.form_reader.specs.Views.{composite_of};
ghost use Rattle.rule_spec.specs.Lists.{kind_at};
ghost use Rattle.rule_spec.specs.Indices.{TakesAndGivesNothing, CanStart};
ghost use Rattle.form_rules.specs.Source.{source_module, sections_in};
ghost use Rattle.form_rules.specs.Views.{lists_of};

use crate::{Lists, Section, sections_of};
use form_reader::{CompositeInnerType, Payload};

/// Whether the start function, where there is one, can start.
pub fn starts_hold(lists: &Lists<'_, '_>) -> bool
    ensures { IsTrue result ↔ All (CanStart (lists_of lists.now)) (flat_map starts_of_section (source_module lists.now.source)) }
{
    for section in sections_of(lists.source) {
        if !section_can_start(lists, section) {
            return false;
        }
    }
    true
}

fn section_can_start(lists: &Lists<'_, '_>, section: Section<'_, '_>) -> bool
    ensures { IsTrue result ↔ All (CanStart (lists_of lists.now)) (flat_map starts_of_section (sections_in section.entry)) }
{
    match section {
        Section::Read(Payload::Start(function)) => can_start(lists, *function),
        Section::Customs(_) => true,
        _ => true,
    }
}

/// Whether the function exists, and its type has no parameters and no results.
pub fn can_start(lists: &Lists<'_, '_>, function: u32) -> bool
    ensures { IsTrue result ↔ CanStart (lists_of lists.now) function }
{
    match lists.spaces.functions.get(function as usize) {
        Some(ty) => is_type_of_start(lists, *ty),
        None => false,
    }
}

/// Whether the declared type that has this index is a function type without parameters and results.
fn is_type_of_start(lists: &Lists<'_, '_>, index: u32) -> bool
    ensures { IsTrue result ↔ IsSomeAnd (kind_at (lists_of lists.now) index) TakesAndGivesNothing }
{
    match lists.kind_at(index) {
        Some(kind) => takes_and_gives_nothing(kind),
        None => false,
    }
}

fn takes_and_gives_nothing(kind: &CompositeInnerType) -> bool
    ensures { IsTrue result ↔ TakesAndGivesNothing (composite_of kind.now) }
{
    match kind {
        CompositeInnerType::Func(function) => {
            function.params.is_empty() && function.results.is_empty()
        }
        _ => false,
    }
}
