//! Counts of bodies, locals and data segments (core specification, 5.5, code section and modules).

ghost use Rattle.std.specs.Prelude.{◌≡◌, ◌↔◌, ◌+◌, ◌≤◌, length, sum_by, All, IsTrue};
ghost use Rattle.std.specs.List.{flat_map};
ghost use Rattle.wasm_spec.specs.Module.{bodies_of_section, data_counts_of_section, segments};
ghost use Rattle.form_reader.specs.Views.{body_of};
ghost use Rattle.rule_spec.specs.Rules.{CountsAgree, locals};
ghost use Rattle.form_rules.specs.Source.{source_module, sections_in};
ghost use Rattle.form_rules.specs.Views.{lists_of};

use crate::{Lists, ModuleSource, Section, count_entries, entries_of, sections_of};
use form_reader::{FunctionBody, Payload};
use wasm_spec::ValType;

/// Whether bodies, data segments and locals are as many as is declared or allowed. There are
/// `count` data segments.
pub fn counts_agree(lists: &Lists<'_, '_>, count: usize) -> bool
    requires { count ≡ length (segments (source_module lists.now.source)) }
    ensures { IsTrue result ↔ CountsAgree (lists_of lists.now) }
{
    bodies_hold(lists) && data_counts_hold(lists.source, count) && locals_hold(lists)
}

/// Whether there is a body for each function that is not imported.
pub fn bodies_hold(lists: &Lists<'_, '_>) -> bool
    ensures { IsTrue result
        ↔ (length lists.now.spaces.functions.items
        ≡ lists.now.imported_functions + length (flat_map bodies_of_section (source_module lists.now.source))) }
{
    let functions = lists.spaces.functions.len();
    lists.imported_functions <= functions
        && functions - lists.imported_functions == count_entries::<FunctionBody<'_>>(lists.source)
}

/// Whether each declared number of data segments is their number.
fn data_counts_hold(source: ModuleSource<'_, '_>, count: usize) -> bool
    ensures { IsTrue result ↔ All (λ stated. stated ≡ count) (flat_map data_counts_of_section (source_module source.entry)) }
{
    for section in sections_of(source) {
        if !data_count_holds(section, count) {
            return false;
        }
    }
    true
}

fn data_count_holds(section: Section<'_, '_>, count: usize) -> bool
    ensures { IsTrue result ↔ All (λ stated. stated ≡ count) (flat_map data_counts_of_section (sections_in section.entry)) }
{
    match section {
        Section::Read(Payload::DataCount(stated)) => *stated as usize == count,
        Section::Customs(_) => true,
        _ => true,
    }
}

fn locals_hold(lists: &Lists<'_, '_>) -> bool
    ensures { IsTrue result
        ↔ All (λ b. locals b ≤ 4294967295) (flat_map bodies_of_section (source_module lists.now.source)) }
{
    entries_of::<FunctionBody<'_>>(lists.source).all(body_fits)
}

/// Whether the number of locals of a body has 32 bits.
pub fn body_fits(body: &FunctionBody<'_>) -> bool
    ensures { IsTrue result ↔ (locals (body_of body.now) ≤ 4294967295) }
{
    locals_fit(&body.locals)
}

/// Whether the runs of locals add up to at most 4294967295.
fn locals_fit(runs: &[(u32, ValType)]) -> bool
    ensures { IsTrue result ↔ (sum_by (λ run. run.0) runs.now ≤ 4294967295) }
{
    let mut left = u32::MAX;
    for (count, _) in runs {
        if left < *count {
            return false;
        }
        left -= *count;
    }
    true
}
