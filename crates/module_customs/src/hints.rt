//! The branch hints that a module's sections of hints give.

ghost use Rattle.std.specs.Prelude.{◌≡◌, ◌++◌, ◌∷◌, [], map, unwrap_or, IfOk, OnOk};
ghost use Rattle.std.specs.Option.{option_map};
ghost use Rattle.form_rules.specs.Source.{source_module};
ghost use Rattle.form_rules.specs.Singles.{single_of};
ghost use Rattle.wasm_index.specs.Index.{number_of};
ghost use Rattle.custom_sections.specs.Views.{hint_entry_of};
ghost use Rattle.module_customs.specs.Hints.{HintLists, HasFirst, hint_lists, module_hints, branch_hint_of};
ghost use Rattle.module_customs.specs.Names.{at_number};

use crate::names::contents_named;
use custom_sections::{Hint, read_hints};
use entity_map::{EntityRef, OutOfMemory};
use form_rules::{ModuleSource, Single, singles_of};
use init_plan::BranchHint;
use std::alloc::Global;
use std::collections::BTreeMap;
use wasm_index::FuncIndex;

/// The hints of the last section of hints that has no fault, by their functions (branch hinting,
/// binary format): of several entries of a function the first one counts.
///
/// # Errors
/// `OutOfMemory` where the hints find no memory.
pub fn kept_hints(
    alloc: Global,
    source: ModuleSource<'_, '_>,
) -> Result<BTreeMap<FuncIndex, Vec<BranchHint>>, OutOfMemory>
    ensures { IfOk result (λ kept. HasFirst (module_hints (source_module source.entry)) (at_number number_of kept)) }
{
    by_function(alloc, &last_hints(alloc, source)?)
}

/// The entries of the last section of hints that has no fault, and none without one.
fn last_hints(
    alloc: Global,
    source: ModuleSource<'_, '_>,
) -> Result<Vec<(u32, Vec<Hint>)>, OutOfMemory>
    ensures { IfOk result (λ last. map hint_entry_of last.items ≡ module_hints (source_module source.entry)) }
{
    let mut last = Vec::new(alloc);
    for section in singles_of(source) {
        let entries = hints_in(alloc, section)?;
        last = entries_after(last, entries);
    }
    Ok(last)
}

/// The entries that count after a section: its own, or, where it has none or a fault, those that
/// counted before.
fn entries_after(
    before: Vec<(u32, Vec<Hint>)>,
    section: Option<Vec<(u32, Vec<Hint>)>>,
) -> Vec<(u32, Vec<Hint>)>
    ensures { result ≡ unwrap_or section before }
{
    match section {
        Some(entries) => entries,
        None => before,
    }
}

/// The entries of a section of hints that has no fault.
fn hints_in(
    alloc: Global,
    section: Single<'_, '_>,
) -> Result<Option<Vec<(u32, Vec<Hint>)>>, OutOfMemory>
    ensures { IfOk result (λ o. option_map (λ all. map hint_entry_of all.items) o ≡ hint_lists (single_of section.entry)) }
{
    match contents_named(section, "metadata.code.branch_hint") {
        Some(contents) => Ok(read_hints(alloc, contents)?),
        None => Ok(None),
    }
}

/// Hints by their functions; the first entry of a function counts.
fn by_function(
    alloc: Global,
    entries: &[(u32, Vec<Hint>)],
) -> Result<BTreeMap<FuncIndex, Vec<BranchHint>>, OutOfMemory>
    ensures { IfOk result (λ kept. HasFirst (map hint_entry_of entries.now) (at_number number_of kept)) }
{
    let mut kept = BTreeMap::new(alloc);
    for (function, hints) in entries {
        add_entry(alloc, &mut kept, *function, hints)?;
    }
    Ok(kept)
}

/// Adds the hints of a function that has none yet; the largest number is not a function's index.
fn add_entry(
    alloc: Global,
    kept: &mut BTreeMap<FuncIndex, Vec<BranchHint>>,
    function: u32,
    hints: &[Hint],
) -> Result<(), OutOfMemory>
    ensures { OnOk result ((before : HintLists) → HasFirst before (at_number number_of kept.old)
        → HasFirst (before ++ (function, hints.now) ∷ []) (at_number number_of kept.new)) }
{
    if function == u32::MAX {
        return Ok(());
    }
    let function = FuncIndex::from_u32(function);
    if kept.contains_key(&function) {
        return Ok(());
    }
    kept.insert(function, branch_hints(alloc, hints)?)?;
    Ok(())
}

/// Hints as a translation has them.
fn branch_hints(alloc: Global, hints: &[Hint]) -> Result<Vec<BranchHint>, OutOfMemory>
    ensures { IfOk result (λ all. all.items ≡ map branch_hint_of hints.now) }
{
    let mut all = Vec::with_capacity(alloc, hints.len())?;
    for hint in hints {
        all.push(BranchHint {
            func_offset: hint.func_offset,
            taken: hint.taken,
        })?;
    }
    Ok(all)
}
