//! What is kept for a debugger as tables: the names of locals, and the locals of functions.

ghost use Rattle.std.specs.Prelude.{◌≡◌, ◌++◌, length, map, IfOk, OnOk};
ghost use Rattle.std.specs.List.{flat_map};
ghost use Rattle.plan_tables.specs.Debug.{local_name_told, local_name, local_names, metadata_run, TellsDebug};
ghost use Rattle.plan_tables.specs.Spans.{spans_from};

use crate::record::{DebugRecord, LocalNameRow};
use crate::rows::{LocalsRow, Span};
use crate::values::value_row;
use entity_map::{EntityRef, OutOfMemory};
use init_plan::{DebugInfoData, FunctionMetadata};
use std::alloc::Global;
use std::collections::BTreeMap;
use wasm_index::FuncIndex;
use wasm_types::WasmValType;

// Appends the names of a function's locals, in the module's bytes.
fn push_local_names<'d>(
    rows: &mut Vec<LocalNameRow<'d>>,
    function: FuncIndex,
    names: &BTreeMap<u32, &'d str>,
) -> Result<(), OutOfMemory>
    ensures { OnOk result (map local_name_told rows.new.items
        ≡ map local_name_told rows.old.items ++ map (local_name function) names.now.entries) }
{
    for (local, name) in names.iter() {
        rows.push(LocalNameRow {
            function: function.as_u32(),
            local: *local,
            name: name.as_bytes(),
        })?;
    }
    Ok(())
}

// The names of the locals of all functions.
fn local_names_of<'d>(
    alloc: Global,
    names: &BTreeMap<FuncIndex, BTreeMap<u32, &'d str>>,
) -> Result<Vec<LocalNameRow<'d>>, OutOfMemory>
    ensures { IfOk result (λ rows. map local_name_told rows.items ≡ flat_map local_names names.now.entries) }
{
    let mut rows = Vec::new(alloc);
    for (function, locals) in names.iter() {
        push_local_names(&mut rows, *function, locals)?;
    }
    Ok(rows)
}

fn push_runs(rows: &mut Vec<LocalsRow>, runs: &[(u32, WasmValType)]) -> Result<(), OutOfMemory>
    ensures { OnOk result (rows.new.items ≡ rows.old.items ++ map metadata_run runs.now) }
{
    for run in runs {
        rows.push(LocalsRow {
            count: run.0,
            value: value_row(run.1),
        })?;
    }
    Ok(())
}

// The locals of all functions, and which of them each has.
fn metadata_of(
    alloc: Global,
    functions: &[FunctionMetadata],
) -> Result<(Vec<Span>, Vec<LocalsRow>), OutOfMemory>
    ensures parts { IfOk result (λ r. r.0.items ≡ spans_from 0 (map (λ f. length f.locals.items) functions.now)) }
    ensures locals { IfOk result (λ r. r.1.items ≡ flat_map (λ f. map metadata_run f.locals.items) functions.now) }
{
    let mut parts = Vec::with_capacity(alloc, functions.len())?;
    let mut locals = Vec::new(alloc);
    for function in functions {
        parts.push(Span {
            begin: locals.len(),
            len: function.locals.len(),
        })?;
        push_runs(&mut locals, &function.locals)?;
    }
    Ok((parts, locals))
}

/// The tables for a debugger. The parameters of a function are those of its type, which the tables
/// of types have: many functions may share a long list.
pub(crate) fn debug_record<'d>(
    alloc: Global,
    info: &DebugInfoData<'d>,
) -> Result<DebugRecord<'d>, OutOfMemory>
    ensures { IfOk result (TellsDebug info.now) }
{
    let names = local_names_of(alloc, &info.name_section.locals_names)?;
    let (functions, locals) = metadata_of(alloc, &info.wasm_file.funcs)?;
    Ok(DebugRecord {
        imports: info.wasm_file.imported_func_count,
        names: names.leak(),
        functions: functions.leak(),
        locals: locals.leak(),
    })
}
