//! The constant expressions of a plan as tables.

ghost use Rattle.std.specs.Prelude.{OnOk};
ghost use Rattle.plan_tables.specs.Expressions.{TellsPlaces};

use crate::expressions::expressions_of;
use crate::record::PlacesRecord;
use crate::segments::planned_of;
use entity_map::OutOfMemory;
use init_plan::ModuleTranslation;
use std::alloc::Global;

/// Puts the constant expressions of a translation into a record. Where memory ends it has those
/// that were made.
pub(crate) fn fill_places<'d>(
    alloc: Global,
    translation: &ModuleTranslation<'_>,
    out: &mut PlacesRecord<'d>,
) -> Result<(), OutOfMemory>
    ensures { OnOk result (TellsPlaces translation.now out.new) }
{
    let tables = &translation.table_initialization;
    out.globals = expressions_of(alloc, translation.global_initializers.as_slice())?;
    out.segments = expressions_of(alloc, planned_of(&translation.memory_init))?;
    out.elements = expressions_of(alloc, tables.segments.as_slice())?;
    out.tables = expressions_of(alloc, tables.initial_values.as_slice())?;
    Ok(())
}
