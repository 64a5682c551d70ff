//! A plan becomes tables.

ghost use Rattle.std.specs.Prelude.{OnOk};
ghost use Rattle.plan_text.specs.PlanText.{IsPrintable};
ghost use Rattle.plan_tables.specs.Plan.{Tells};

use crate::bodies::bodies_record;
use crate::context::{context_row, regions_of};
use crate::debug::debug_record;
use crate::facts::{entities_row, facts_row};
use crate::functions::functions_record;
use crate::globals::globals_record;
use crate::interned::interned_record;
use crate::items::fill_items;
use crate::kinds::kinds_record;
use crate::layouts::layouts_record;
use crate::memories::memories_record;
use crate::names::fill_names;
use crate::places::fill_places;
use crate::record::PlanRecord;
use crate::structs::structs_row;
use crate::tables::tables_record;
use crate::types::types_record;
use entity_map::OutOfMemory;
use plan_text::Plan;
use std::alloc::Global;

/// Puts the tables of a plan into a record. The tables are in memory to which this library keeps no
/// reference; bytes that the plan has from the module stay in the module. The plan no longer has
/// the bytes of its runtime data.
///
/// # Errors
/// `OutOfMemory` where a table finds no memory: the record has the tables that were made before
/// then.
pub fn fill_record<'d>(
    alloc: Global,
    plan: &mut Plan<'d>,
    out: &mut PlanRecord<'d>,
) -> Result<(), OutOfMemory>
    requires { IsPrintable plan.old.translation }
    ensures { OnOk result (Tells plan.old out.new) }
{
    let translation = &plan.translation;
    out.refusal = 0;
    out.refusal_detail = 0;
    out.refusal_line = &[];
    out.entities = entities_row(&translation.module);
    out.facts = facts_row(translation, &plan.types, &plan.offsets);
    out.context = context_row(&plan.offsets);
    out.types = types_record(alloc, translation, &plan.types)?;
    out.kinds = kinds_record(alloc, &translation.module)?;
    out.tables = tables_record(alloc, translation)?;
    out.regions = regions_of(alloc, &plan.offsets)?.leak();
    out.functions = functions_record(alloc, translation)?;
    out.globals = globals_record(alloc, translation)?;
    fill_places(alloc, translation, &mut out.places)?;
    fill_names(
        alloc,
        &translation.module,
        &mut out.names,
        &mut out.module_text,
    )?;
    out.layouts = layouts_record(alloc, &plan.layouts)?;
    out.interned = interned_record(alloc, &plan.types)?;
    out.structs = structs_row(&plan.offsets);
    fill_items(alloc, translation, &mut out.items)?;
    out.bodies = bodies_record(alloc, translation)?;
    out.debug = debug_record(alloc, &translation.debuginfo)?;
    out.memories = memories_record(alloc, &mut plan.translation)?;
    Ok(())
}
