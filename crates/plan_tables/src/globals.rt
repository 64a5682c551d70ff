//! How globals begin, as tables.

ghost use Rattle.std.specs.Prelude.{◌≡◌, map, IfOk};
ghost use Rattle.wasm_index.specs.Index.{number_of};
ghost use Rattle.plan_tables.specs.Globals.{global_value_row, TellsGlobals};

use crate::operators::operator_row;
use crate::record::GlobalsRecord;
use crate::rows::GlobalValueRow;
use entity_map::{EntityRef, OutOfMemory};
use init_plan::ModuleTranslation;
use plan_lines::constant_of;
use std::alloc::Global;
use wasm_convert::{ConstExpr, GlobalConstValue};
use wasm_index::DefinedGlobalIndex;

fn global_value_row(global: DefinedGlobalIndex, value: GlobalConstValue) -> GlobalValueRow
    ensures { result ≡ global_value_row (global, value) }
{
    GlobalValueRow {
        global: global.as_u32(),
        value: operator_row(&constant_of(value)),
    }
}

// The defined globals that begin as a known value.
fn global_values_of(
    alloc: Global,
    values: &[(DefinedGlobalIndex, GlobalConstValue)],
) -> Result<Vec<GlobalValueRow>, OutOfMemory>
    ensures { IfOk result (λ rows. rows.items ≡ map global_value_row values.now) }
{
    let mut rows = Vec::with_capacity(alloc, values.len())?;
    for value in values {
        rows.push(global_value_row(value.0, value.1))?;
    }
    Ok(rows)
}

// The other defined globals.
fn expressed_globals_of(
    alloc: Global,
    globals: &[(DefinedGlobalIndex, ConstExpr)],
) -> Result<Vec<u32>, OutOfMemory>
    ensures { IfOk result (λ numbers. numbers.items ≡ map (λ g. number_of g.0) globals.now) }
{
    let mut numbers = Vec::with_capacity(alloc, globals.len())?;
    for global in globals {
        numbers.push(global.0.as_u32())?;
    }
    Ok(numbers)
}

/// The tables of how globals begin.
pub(crate) fn globals_record<'d>(
    alloc: Global,
    translation: &ModuleTranslation<'_>,
) -> Result<GlobalsRecord<'d>, OutOfMemory>
    ensures { IfOk result (TellsGlobals translation.now) }
{
    let values = global_values_of(alloc, &translation.module.global_initializers)?;
    let expressed = expressed_globals_of(alloc, &translation.global_initializers)?;
    Ok(GlobalsRecord {
        values: values.leak(),
        expressed: expressed.leak(),
    })
}
