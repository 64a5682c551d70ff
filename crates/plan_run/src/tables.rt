//! Tables as they begin.

ghost use Rattle.std.specs.Prelude.{◌≡◌, ◌+◌, ◌++◌, ◌<◌, ◌≤◌, ℕ, List, Some, length, map, replicate, slice_get, All, IfOk, OnOk};
ghost use Rattle.wasm_types.specs.declared.table.Table.{Table as TableType};
ghost use Rattle.replay_spec.specs.Tables.{PlannedTable, reference_of};
ghost use Rattle.replay_spec.specs.Values.{Term};
ghost use Rattle.table_images.specs.Views.{cell_of as image_cell, image_of};
ghost use Rattle.init_plan.specs.Tables.{plan_of_tables, AreCounted};
ghost use Rattle.plan_run.specs.Evaluation.{globals_of, fields_of, EvaluatorIsSound, Grows};
ghost use Rattle.plan_run.specs.Nodes.{AllMean};
ghost use Rattle.plan_run.specs.Tables.{first_cells, image_cells as the_cells, TablesMean};
ghost use Rattle.plan_run.specs.Values.{value_in, values_in, imported_value, IsPlain};

use crate::evaluation::Evaluator;
use crate::value::Value;
use entity_map::{OutOfMemory, ReservedValue};
use std::alloc::Global;
use wasm_index::FuncIndex;
use wasm_module::TableInitialValue;
use wasm_types::Table;

/// A cell of an image.
fn cell(function: FuncIndex) -> Value
    ensures means { (terms : List Term) → value_in terms result ≡ reference_of (image_cell function) }
    ensures plain { IsPlain result }
{
    if function.is_reserved_value() {
        return Value::Null;
    }
    Value::Func(function)
}

/// The cells of an image, and null behind them up to a minimum, which the image does not pass.
fn image_cells(
    alloc: Global,
    image: &[FuncIndex],
    minimum: usize,
) -> Result<Vec<Value>, OutOfMemory>
    requires { length image.now ≤ minimum }
    ensures means { IfOk result (λ cells. (terms : List Term) → values_in terms cells.items ≡ the_cells minimum (image_of image.now)) }
    ensures plain { IfOk result (λ cells. All IsPlain cells.items) }
{
    let mut cells = Vec::with_capacity(alloc, minimum)?;
    for function in image {
        cells.push(cell(*function))?;
    }
    cells.resize(minimum, Value::Null)?;
    Ok(cells)
}

/// So many cells that hold one value.
fn equal_cells(alloc: Global, value: Value, minimum: usize) -> Result<Vec<Value>, OutOfMemory>
    ensures { IfOk result (λ cells. cells.items ≡ replicate minimum value) }
{
    let mut cells = Vec::new(alloc);
    cells.resize(minimum, value)?;
    Ok(cells)
}

/// The minimum size of a table, in cells.
pub(crate) fn minimum_of(tables: &[Table], at: usize) -> u64
    requires { at < length tables.now }
    ensures { (table : TableType) → slice_get tables.now at ≡ Some table → result ≡ table.limits.min }
{
    tables[at].limits.min
}

impl Evaluator<'_, '_, '_> {
    /// A defined table as it begins, by its number among those.
    fn first_table(&mut self, number: usize) -> Result<Vec<Value>, OutOfMemory>
        requires sound { EvaluatorIsSound self.old }
        requires imports { self.old.translation.now.module.num_imported_tables ≤ length self.old.translation.now.module.tables }
        requires counted { AreCounted self.old.translation.now }
        requires images { All (λ table. length table.image ≤ table.minimum) (plan_of_tables self.old.translation.now).tables }
        requires within { self.old.translation.now.module.num_imported_tables + number < length self.old.translation.now.module.tables }
        ensures grows { OnOk result (Grows self.old self.new) }
        ensures means { IfOk result (λ cells. (planned : PlannedTable) → slice_get (plan_of_tables self.old.translation.now).tables number ≡ Some planned
            → AllMean self.new.nodes.items cells.items (first_cells (globals_of self.old) (fields_of self.old) planned)) }
    {
        let translation = self.translation;
        let module = &translation.module;
        let tables = module.tables.as_slice();
        let minimum = minimum_of(tables, module.num_imported_tables + number) as usize;
        match &translation.table_initialization.initial_values.as_slice()[number] {
            TableInitialValue::Null => {
                let image = &module.table_initialization.as_slice()[number];
                let cells = image_cells(self.alloc, image, minimum)?;
                Ok(cells)
            }
            TableInitialValue::Expr(initial) => {
                let value = self.evaluate(initial)?;
                let cells = equal_cells(self.alloc, value, minimum)?;
                Ok(cells)
            }
        }
    }

    /// The imported tables, and behind them the defined ones as they begin.
    pub(crate) fn first_tables(
        &mut self,
        imported: Vec<Vec<Value>>,
    ) -> Result<Vec<Vec<Value>>, OutOfMemory>
        requires sound { EvaluatorIsSound self.old }
        requires plain { All (λ table. All IsPlain table.items) imported.items }
        requires imports { self.old.translation.now.module.num_imported_tables ≤ length self.old.translation.now.module.tables }
        requires counted { AreCounted self.old.translation.now }
        requires images { All (λ table. length table.image ≤ table.minimum) (plan_of_tables self.old.translation.now).tables }
        ensures grows { OnOk result (Grows self.old self.new) }
        ensures means { IfOk result (λ tables. TablesMean self.new.nodes.items tables.items (map (λ table. map imported_value table.items) imported.items
            ++ map (first_cells (globals_of self.old) (fields_of self.old)) (plan_of_tables self.old.translation.now).tables)) }
    {
        let module = &self.translation.module;
        let mut tables = imported;
        for number in 0..module.tables.len() - module.num_imported_tables {
            tables.push(self.first_table(number)?)?;
        }
        Ok(tables)
    }
}
