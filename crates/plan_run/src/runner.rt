//! Runs a plan.

ghost use Rattle.std.specs.Prelude.{◌≡◌, ◌↔◌, ◌⊎◌, ◌++◌, ◌≤◌, ◌<◌, ◌^◌, length, map, All, IfOk, OnOk};
ghost use Rattle.std.specs.declared.result.Result.TheVariants.{Err};
ghost use Rattle.plan_run.specs.Finished.{Finished, TablesAreFinished};
ghost use Rattle.plan_run.specs.Evaluation.{globals_of, fields_of, offset_position, EvaluatorIsSound, Grows};
ghost use Rattle.plan_run.specs.Laid.{data_phase, GlobalsAreLaid, MemoriesAreLaid, TablesAreLaid, NamesNodes, PagesAreLent, LendImages};
ghost use Rattle.plan_run.specs.Limits.{IsTooLarge};
ghost use Rattle.plan_run.specs.Lays.{Lays};
ghost use Rattle.plan_run.specs.Memories.{bytes_in, plan_phase};
ghost use Rattle.plan_run.specs.Tables.{cells_in, TablesBelow};
ghost use Rattle.plan_run.specs.Values.{terms_of, imported_value, IsPlain, AreOrdered};
ghost use Rattle.init_plan.specs.Views.{memory_plan_of};
ghost use Rattle.init_plan.specs.Tables.{plan_of_tables};
ghost use Rattle.replay_spec.specs.Tables.{planned_elements_phase};

use crate::elements::write_elements;
use crate::evaluation::Evaluator;
use crate::laid::{Imports, Laid, LayError, Way};
use crate::limits::is_too_large;
use crate::memories::first_memories;
use crate::segments::write_pieces;
use crate::value::Value;
use entity_map::OutOfMemory;
use init_plan::ModuleTranslation;
use module_types::ModuleTypes;
use paged_memory::PagedMemory;
use std::alloc::Global;

impl<'t> Evaluator<'t, '_, '_> {
    /// The memories with the data phase, up to its trap.
    fn lay_memories(
        &mut self,
        way: Way,
        imported: Vec<PagedMemory<'t>>,
    ) -> Result<(Vec<PagedMemory<'t>>, Option<u64>), OutOfMemory>
        requires sound { EvaluatorIsSound self.old }
        requires finished { Finished self.old.translation.now }
        requires small { IsTooLarge self.old.translation.now → ⊥ }
        requires imports { length imported.items ≡ self.old.translation.now.module.num_imported_memories }
        ensures grows { OnOk result (Grows self.old self.new) }
        ensures laid { IfOk result (λ laid. Lays (plan_phase way (offset_position self.old) (bytes_in imported.entry.items) (memory_plan_of self.old.translation.now))
            (length self.old.translation.now.module.memories) (bytes_in laid.0.items) laid.1) }
        ensures lent { IfOk result (λ laid. PagesAreLent self.old.translation.now way
            (plan_phase way (offset_position self.old) (bytes_in imported.entry.items) (memory_plan_of self.old.translation.now)) imported.entry.items laid.0.items) }
        ensures shared { IfOk result (λ laid. LendImages self.old.translation.now way laid.0.items) }
    {
        let mut memories = first_memories(self.alloc, self.translation, way, imported)?;
        let pieces = self.pieces_left(way)?;
        let trap = write_pieces(&mut memories, &pieces)?;
        Ok((memories, trap))
    }

    /// The tables with the element phase, up to its trap.
    fn lay_tables(
        &mut self,
        imported: Vec<Vec<Value>>,
    ) -> Result<(Vec<Vec<Value>>, Option<u64>), OutOfMemory>
        requires sound { EvaluatorIsSound self.old }
        requires finished { TablesAreFinished self.old.translation.now }
        requires imports { length imported.items ≡ self.old.translation.now.module.num_imported_tables }
        requires plain { All (λ table. All IsPlain table.items) imported.items }
        ensures grows { OnOk result (Grows self.old self.new) }
        ensures laid { IfOk result (λ laid. Lays (planned_elements_phase (globals_of self.old) (fields_of self.old)
            (map (λ table. map imported_value table.items) imported.items) (plan_of_tables self.old.translation.now))
            (length self.old.translation.now.module.tables) (cells_in (terms_of self.new.nodes.items) laid.0.items) laid.1) }
        ensures below { IfOk result (λ laid. TablesBelow (length self.new.nodes.items) laid.0.items) }
    {
        let mut tables = self.first_tables(imported)?;
        let pieces = self.pieces_kept()?;
        let trap = write_elements(&mut tables, &pieces);
        Ok((tables, trap))
    }
}

/// Runs a plan whose memories and tables are not too large.
fn lay_all<'t>(
    alloc: Global,
    translation: &'t ModuleTranslation<'_>,
    types: &ModuleTypes,
    way: Way,
    imports: Imports<'t>,
) -> Result<Laid<'t>, OutOfMemory>
    requires finished { Finished translation.now }
    requires small { IsTooLarge translation.now → ⊥ }
    requires globals { length imports.globals.items ≡ translation.now.module.num_imported_globals }
    requires memories { length imports.memories.items ≡ translation.now.module.num_imported_memories }
    requires tables { length imports.tables.items ≡ translation.now.module.num_imported_tables }
    requires plain { All IsPlain imports.globals.items }
    requires plain_cells { All (λ table. All IsPlain table.items) imports.tables.items }
    ensures ordered { IfOk result (λ laid. AreOrdered laid.nodes.items) }
    ensures terms { IfOk result NamesNodes }
    ensures globals_laid { IfOk result (GlobalsAreLaid translation.now types.now imports.entry) }
    ensures memories_laid { IfOk result (MemoriesAreLaid translation.now types.now way imports.entry) }
    ensures tables_laid { IfOk result (TablesAreLaid translation.now types.now imports.entry) }
    ensures lent { IfOk result (λ laid. PagesAreLent translation.now way (data_phase translation.now types.now way imports.entry)
        imports.entry.memories.items laid.memories.items) }
    ensures shared { IfOk result (λ laid. LendImages translation.now way laid.memories.items) }
{
    let mut evaluator = Evaluator::with_globals(alloc, translation, types, imports.globals)?;
    let (memories, memory_trap) = evaluator.lay_memories(way, imports.memories)?;
    let (tables, table_trap) = evaluator.lay_tables(imports.tables)?;
    Ok(Laid {
        globals: evaluator.globals,
        memories,
        tables,
        nodes: evaluator.nodes,
        memory_trap,
        table_trap,
    })
}

/// Runs the plan of a translated module over imports: the globals, then the memories with the data
/// phase and the tables with the element phase, each up to its trap (core specification, 4.7,
/// instantiation). `way` says whether images of memories are borrowed from the translation or
/// written.
///
/// # Errors
/// `TooLarge` exactly where the defined memories pass 268435456 bytes or 1048576 pages together, or
/// the defined tables 4194304 cells, each by its minimum; nothing is allocated before.
/// `OutOfMemory`.
pub fn lay<'t>(
    alloc: Global,
    translation: &'t ModuleTranslation<'_>,
    types: &ModuleTypes,
    way: Way,
    imports: Imports<'t>,
) -> Result<Laid<'t>, LayError>
    requires finished { Finished translation.now }
    requires globals { length imports.globals.items ≡ translation.now.module.num_imported_globals }
    requires memories { length imports.memories.items ≡ translation.now.module.num_imported_memories }
    requires tables { length imports.tables.items ≡ translation.now.module.num_imported_tables }
    requires no_terms { All IsPlain imports.globals.items }
    requires no_terms_in_tables { All (λ table. All IsPlain table.items) imports.tables.items }
    ensures ordered { IfOk result (λ laid. AreOrdered laid.nodes.items) }
    ensures terms { IfOk result NamesNodes }
    ensures globals_laid { IfOk result (GlobalsAreLaid translation.now types.now imports.entry) }
    ensures memories_laid { IfOk result (MemoriesAreLaid translation.now types.now way imports.entry) }
    ensures tables_laid { IfOk result (TablesAreLaid translation.now types.now imports.entry) }
    ensures lent { IfOk result (λ laid. PagesAreLent translation.now way (data_phase translation.now types.now way imports.entry)
        imports.entry.memories.items laid.memories.items) }
    ensures shared { IfOk result (λ laid. LendImages translation.now way laid.memories.items) }
    ensures too_large { (result ≡ Err LayError.TooLarge) ↔ IsTooLarge translation.now }
{
    if is_too_large(translation) {
        return Err(LayError::TooLarge);
    }
    Ok(lay_all(alloc, translation, types, way, imports)?)
}
