//! Names of functions, their branch hints, and passive elements as tables.

ghost use Rattle.std.specs.Prelude.{◌≡◌, ◌++◌, map, IfOk, OnOk};
ghost use Rattle.std.specs.List.{flat_map};
ghost use Rattle.entity_map.specs.Keyed.{keyed};
ghost use Rattle.wasm_index.specs.Index.{number_of, index_of};
ghost use Rattle.init_plan.specs.Views.{hints_of};
ghost use Rattle.plan_tables.specs.Functions.{name_told, hints_row, branch_hint_row, branch_hint_rows, passive_segment_row, passive_elements_row, TellsFunctions};

use crate::numbers::bit;
use crate::record::{FunctionNameRow, FunctionsRecord};
use crate::rows::{BranchHintRow, HintsRow, PassiveElementsRow, PassiveSegmentRow};
use crate::values::ref_row;
use entity_map::{EntityRef, OutOfMemory, SecondaryMap};
use init_plan::{BranchHint, ModuleTranslation};
use std::alloc::Global;
use std::collections::BTreeMap;
use wasm_index::{ElemIndex, FuncIndex, PassiveElemIndex};
use wasm_types::WasmRefType;

// The names of functions, in the module's bytes.
fn function_names_of<'d>(
    alloc: Global,
    names: &BTreeMap<FuncIndex, &'d str>,
) -> Result<Vec<FunctionNameRow<'d>>, OutOfMemory>
    ensures { IfOk result (λ rows. map name_told rows.items ≡ map (λ name. (number_of name.0, name.1.now)) names.now.entries) }
{
    let mut rows = Vec::new(alloc);
    for (function, name) in names.iter() {
        rows.push(FunctionNameRow {
            function: function.as_u32(),
            name: name.as_bytes(),
        })?;
    }
    Ok(rows)
}

// How many hints of branches each function has that has some.
fn hints_rows(
    alloc: Global,
    translation: &ModuleTranslation<'_>,
) -> Result<Vec<HintsRow>, OutOfMemory>
    ensures { IfOk result (λ rows. rows.items
        ≡ flat_map (λ p. hints_row p.0 (hints_of translation.now (number_of p.0))) (keyed index_of translation.now.module.functions)) }
{
    let mut rows = Vec::new(alloc);
    for (function, _) in translation.module.functions.iter() {
        if let Some(hints) = translation.branch_hints(function) {
            rows.push(HintsRow {
                function: function.as_u32(),
                count: hints.len() as u64,
            })?;
        }
    }
    Ok(rows)
}

// Appends the branch hints of a function.
fn push_branch_hints(
    rows: &mut Vec<BranchHintRow>,
    function: FuncIndex,
    hints: &[BranchHint],
) -> Result<(), OutOfMemory>
    ensures { OnOk result (rows.new.items ≡ rows.old.items ++ map (branch_hint_row function) hints.now) }
{
    for hint in hints {
        rows.push(BranchHintRow {
            function: function.as_u32(),
            offset: hint.func_offset,
            taken: u32::from(bit(hint.taken)),
        })?;
    }
    Ok(())
}

// The branch hints of all functions.
fn branch_hints_of(
    alloc: Global,
    translation: &ModuleTranslation<'_>,
) -> Result<Vec<BranchHintRow>, OutOfMemory>
    ensures { IfOk result (λ rows. rows.items
        ≡ flat_map (λ p. branch_hint_rows p.0 (hints_of translation.now (number_of p.0))) (keyed index_of translation.now.module.functions)) }
{
    let mut rows = Vec::new(alloc);
    for (function, _) in translation.module.functions.iter() {
        if let Some(hints) = translation.branch_hints(function) {
            push_branch_hints(&mut rows, function, hints)?;
        }
    }
    Ok(rows)
}

// Which passive segment an element segment of the module is, for each that is passive.
fn passive_segments_of(
    alloc: Global,
    numbers: &SecondaryMap<ElemIndex, Option<PassiveElemIndex>>,
) -> Result<Vec<PassiveSegmentRow>, OutOfMemory>
    ensures { IfOk result (λ rows. rows.items ≡ flat_map (λ p. passive_segment_row p.0 p.1) (keyed index_of numbers.now.items)) }
{
    let mut rows = Vec::new(alloc);
    for (segment, passive) in numbers.iter() {
        if let Some(passive) = passive {
            rows.push(PassiveSegmentRow {
                segment: segment.as_u32(),
                passive: passive.as_u32(),
            })?;
        }
    }
    Ok(rows)
}

// The passive element segments.
fn passive_elements_of(
    alloc: Global,
    elements: &[(WasmRefType, u64)],
) -> Result<Vec<PassiveElementsRow>, OutOfMemory>
    ensures { IfOk result (λ rows. rows.items ≡ map passive_elements_row elements.now) }
{
    let mut rows = Vec::with_capacity(alloc, elements.len())?;
    for segment in elements {
        rows.push(PassiveElementsRow {
            element: ref_row(segment.0),
            count: segment.1,
        })?;
    }
    Ok(rows)
}

/// The tables of names of functions, hints and passive elements.
pub(crate) fn functions_record<'d>(
    alloc: Global,
    translation: &ModuleTranslation<'d>,
) -> Result<FunctionsRecord<'d>, OutOfMemory>
    ensures { IfOk result (TellsFunctions translation.now) }
{
    let elements = passive_elements_of(alloc, translation.module.passive_elements.as_slice())?;
    let names = function_names_of(alloc, &translation.debuginfo.name_section.func_names)?;
    let hints = hints_rows(alloc, translation)?;
    let branch_hints = branch_hints_of(alloc, translation)?;
    let passive_segments = passive_segments_of(alloc, &translation.passive_elem_map)?;
    Ok(FunctionsRecord {
        passive_elements: elements.leak(),
        names: names.leak(),
        hints: hints.leak(),
        branch_hints: branch_hints.leak(),
        passive_segments: passive_segments.leak(),
    })
}
