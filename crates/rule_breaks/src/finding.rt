//! The entry of a list that has a number.

ghost use Rattle.std.specs.Prelude.{◌≡◌, Some, None, IfOk, MatchBool, slice_get};
ghost use Rattle.std.specs.List.{flat_map};
ghost use Rattle.std.specs.Option.{option_map};
ghost use Rattle.wasm_spec.specs.Module.{starts_of_section, data_counts_of_section};
ghost use Rattle.form_rules.specs.Source.{source_module};
ghost use Rattle.form_rules.specs.Walk.{walk_left, standing};

use crate::counts::stated_in;
use crate::indices::start_in;
use form_reader::InputEntry;
use form_rules::{FormEntry, ModuleSource, Walk, entries_of, sections_of};
use std::alloc::AllocError;

/// The entry that has this number.
pub(crate) fn entry_at<'f, 'd, T: FormEntry<'d>>(
    source: ModuleSource<'f, 'd>,
    entry: u32,
) -> Option<&'f T>
    ensures { option_map (λ x. T.as_data x.now) result ≡ slice_get (flat_map T.of_section (source_module source.entry)) entry }
{
    let mut left = entry;
    for found in entries_of::<T>(source) {
        if left == 0 {
            return Some(found);
        }
        left -= 1;
    }
    None
}

/// Advances past so many entries to the next; returns false where there are no more.
pub(crate) fn advance_to<'d, E: InputEntry<'d, Value = E>>(
    walk: &mut Walk<'_, 'd, E>,
    entry: u32,
) -> Result<bool, AllocError>
    ensures { IfOk result (λ found. MatchBool found
        (slice_get (walk_left E.form E.view E.of_section walk.old) entry ≡ Some (standing E.view walk.new))
        (slice_get (walk_left E.form E.view E.of_section walk.old) entry ≡ None)) }
{
    let mut left = entry;
    while walk.advance()? {
        if left == 0 {
            return Ok(true);
        }
        left -= 1;
    }
    Ok(false)
}

/// The stated number of data segments that has this number among those that are stated.
pub(crate) fn stated_at(source: ModuleSource<'_, '_>, entry: u32) -> Option<u32>
    ensures { result ≡ slice_get (flat_map data_counts_of_section (source_module source.entry)) entry }
{
    let mut left = entry;
    for section in sections_of(source) {
        let Some(stated) = stated_in(section) else {
            continue;
        };
        if left == 0 {
            return Some(stated);
        }
        left -= 1;
    }
    None
}

/// The start function that has this number among those that are listed.
pub(crate) fn start_at(source: ModuleSource<'_, '_>, entry: u32) -> Option<u32>
    ensures { result ≡ slice_get (flat_map starts_of_section (source_module source.entry)) entry }
{
    let mut left = entry;
    for section in sections_of(source) {
        let Some(start) = start_in(section) else {
            continue;
        };
        if left == 0 {
            return Some(start);
        }
        left -= 1;
    }
    None
}
