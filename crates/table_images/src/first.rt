//! Tables before any segment is written.

ghost use Rattle.std.specs.Prelude.{◌≡◌, ◌<◌, ◌≤◌, ◌-◌, length, map, true, IfOk};
ghost use Rattle.wasm_convert.specs.declared.constants.ConstExpr.{ConstExpr};
ghost use Rattle.wasm_module.specs.declared.table_initialization.TableInitialValue.TheVariants.{Expr};
ghost use Rattle.replay_spec.specs.Tables.{kept_initial};
ghost use Rattle.table_images.specs.Steps.{TablesHoldFunctions, IsCell, images_of, first_image as the_first};
ghost use Rattle.replay_spec.specs.Tables.{initial_function};
ghost use Rattle.table_images.specs.Views.{image_of, defined_table_of, defined_tables_of, initial_of};
ghost use Rattle.table_images.specs.Left.{StandStill};

use crate::spot::start_function;
use entity_map::{OutOfMemory, PrimaryMap};
use std::alloc::Global;
use wasm_index::{DefinedTableIndex, FuncIndex};
use wasm_module::TableInitialValue;
use wasm_types::Table;

/// The image of a table before any segment is written.
fn first_image(
    alloc: Global,
    lazy: bool,
    table: &Table,
    value: &TableInitialValue,
) -> Result<Vec<FuncIndex>, OutOfMemory>
    requires { IsCell (initial_function (defined_table_of table.now value.now).initial) }
    ensures { IfOk result (λ image. image_of image.items ≡ the_first lazy (defined_table_of table.now value.now)) }
{
    if lazy {
        if let Some(function) = start_function(table, value) {
            let image = vec![in alloc; function; table.limits.min as usize]?;
            return Ok(image);
        }
    }
    Ok(Vec::new(alloc))
}

/// The images of the defined tables before any segment is written.
pub(crate) fn first_images(
    alloc: Global,
    lazy: bool,
    tables: &[Table],
    values: &[TableInitialValue],
) -> Result<PrimaryMap<DefinedTableIndex, Vec<FuncIndex>>, OutOfMemory>
    requires paired { length tables.now ≡ length values.now }
    requires few { length values.now < u32.MAX - 1 }
    requires functions { TablesHoldFunctions (defined_tables_of tables.now values.now) }
    ensures { IfOk result (λ images. images_of images ≡ map (the_first lazy) (defined_tables_of tables.now values.now)) }
{
    let mut images = PrimaryMap::with_capacity(alloc, values.len())?;
    'tables: for i in 0..values.len() {
        images.push(first_image(alloc, lazy, &tables[i], &values[i])?)?;
    }
    Ok(images)
}

// A table that is imaged from the start keeps no initialiser.
fn drop_if_imaged(table: &Table, value: &mut TableInitialValue)
    ensures kept { initial_of value.new ≡ kept_initial true (defined_table_of table.now value.old) }
    ensures still { (e : ConstExpr) → value.new ≡ Expr e → value.old ≡ Expr e }
{
    if start_function(table, value).is_some() {
        *value = TableInitialValue::Null;
    }
}

/// Tables that are imaged from the start keep no initialiser.
pub(crate) fn drop_imaged(tables: &[Table], values: &mut [TableInitialValue])
    requires { length tables.now ≡ length values.old }
    ensures kept { map initial_of values.new ≡ map (kept_initial true) (defined_tables_of tables.now values.old) }
    ensures count { length values.new ≡ length values.old }
    ensures still { StandStill values.old values.new }
{
    'tables: for i in 0..values.len() {
        drop_if_imaged(&tables[i], &mut values[i]);
    }
}
