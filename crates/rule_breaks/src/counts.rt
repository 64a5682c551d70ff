//! The first break of rule L3, counts of bodies, locals and data segments.

ghost use Rattle.std.specs.Prelude.{◌≡◌, ◌+◌, ◌≤◌, length, IfOk, option_to_list};
ghost use Rattle.std.specs.List.{flat_map};
ghost use Rattle.wasm_spec.specs.Module.{data_counts_of_section};
ghost use Rattle.rule_spec.specs.declared.rules.Rule.{Rule};
ghost use Rattle.form_rules.specs.Source.{source_module, sections_in};
ghost use Rattle.form_rules.specs.Views.{lists_of};
ghost use Rattle.rule_breaks.specs.Search.{Finds};
ghost use Rattle.rule_breaks.specs.Breaks.{FindsBodyCount, Locates};

use crate::entries::first_body;
use crate::lists::{Break, ModuleList, at};
use crate::numbers::{next_number, numbered};
use crate::segments::count_segments;
use entity_map::OutOfMemory;
use form_reader::{FunctionBody, Payload};
use form_rules::{Lists, ModuleSource, Section, count_entries, sections_of};
use rule_spec::Rule;
use std::alloc::{AllocError, Global};

/// The first function without a body or body without a function, the first stated number of data
/// segments that is not their number, or the first body that has too many locals.
pub(crate) fn break_of_counts(
    alloc: Global,
    lists: &Lists<'_, '_>,
) -> Result<Option<Break>, OutOfMemory>
    requires { lists.now.imported_functions ≤ length lists.now.spaces.functions.items }
    ensures { IfOk result (Locates Rule.L3 (lists_of lists.now)) }
{
    if let Some(unmatched) = break_of_body_count(lists)? {
        return Ok(Some(unmatched));
    }
    let count = count_segments(alloc, lists.source)?;
    if let Some(entry) = first_other_count(lists.source, count)? {
        return Ok(at(ModuleList::DataCounts, entry));
    }
    match first_body(lists, Rule::L3)? {
        Some(entry) => Ok(at(ModuleList::Bodies, entry)),
        None => Ok(None),
    }
}

/// The first function without a body, or the first body without a function.
fn break_of_body_count(lists: &Lists<'_, '_>) -> Result<Option<Break>, AllocError>
    requires { lists.now.imported_functions ≤ length lists.now.spaces.functions.items }
    ensures { IfOk result (FindsBodyCount (lists_of lists.now)) }
{
    let defined = lists.spaces.functions.len() - lists.imported_functions;
    let bodies = count_entries::<FunctionBody<'_>>(lists.source);
    if defined < bodies {
        return Ok(Some(Break {
            list: ModuleList::Bodies,
            entry: numbered(defined)?,
        }));
    }
    if bodies < defined {
        return Ok(Some(Break {
            list: ModuleList::Functions,
            entry: numbered(lists.imported_functions + bodies)?,
        }));
    }
    Ok(None)
}

/// The first stated number of data segments that is not this number.
fn first_other_count(source: ModuleSource<'_, '_>, count: u32) -> Result<Option<u32>, AllocError>
    ensures { IfOk result (Finds (λ stated. stated ≡ count) (flat_map data_counts_of_section (source_module source.entry))) }
{
    let mut number = 0;
    for section in sections_of(source) {
        let Some(stated) = stated_in(section) else {
            continue;
        };
        if stated != count {
            return Ok(Some(number));
        }
        number = next_number(number)?;
    }
    Ok(None)
}

/// The number of data segments that a section states.
pub(crate) fn stated_in(section: Section<'_, '_>) -> Option<u32>
    ensures { option_to_list result ≡ flat_map data_counts_of_section (sections_in section.entry) }
{
    match section {
        Section::Read(Payload::DataCount(stated)) => Some(*stated),
        Section::Customs(_) => None,
        _ => None,
    }
}
