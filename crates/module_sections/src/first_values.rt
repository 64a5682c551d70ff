//! The first values of the cells of the defined tables.

ghost use Rattle.std.specs.Prelude.{◌≡◌, ◌<◌, [], length, map, replicate, All, IfOk, IfSome, OnOk};
ghost use Rattle.std.specs.List.{flat_map};
ghost use Rattle.std.specs.Option.{option_map};
ghost use Rattle.wasm_spec.specs.Module.{tables_of_section};
ghost use Rattle.form_reader.specs.Views.{table_of};
ghost use Rattle.form_rules.specs.Source.{source_module};
ghost use Rattle.wasm_convert.specs.Constants.{const_ops_of};
ghost use Rattle.module_sections.specs.Convertible.{IsConvertible};
ghost use Rattle.module_sections.specs.Escapes.{referred_if_any};
ghost use Rattle.module_sections.specs.EscapeLog.{after_escapes};
ghost use Rattle.module_sections.specs.Initialisers as initial;

use crate::escapes::Escaping;
use crate::expressions::convert_expression;
use entity_map::{OutOfMemory, PrimaryMap};
use form_reader::TableDef;
use form_rules::{ModuleSource, entries_of};
use std::alloc::Global;
use wasm_convert::TypeConvert;
use wasm_index::{DefinedTableIndex, FuncIndex};
use wasm_module::TableInitialValue;

/// The first values of the defined tables, in order; functions that they refer to are recorded.
pub(crate) fn first_values(
    alloc: Global,
    env: &dyn TypeConvert,
    source: ModuleSource<'_, '_>,
    escaping: &mut Escaping,
) -> Result<PrimaryMap<DefinedTableIndex, TableInitialValue>, OutOfMemory>
    requires convertible { All (λ t. IfSome t.init (IsConvertible (knows env.now) escaping.old.count))
        (flat_map tables_of_section (source_module source)) }
    requires few { length (flat_map tables_of_section (source_module source)) < u32.MAX }
    ensures values { IfOk result (λ vs. map initial.view_first_value vs
        ≡ initial.first_values (look_up env.now) (flat_map tables_of_section (source_module source.entry))) }
    ensures noted { OnOk result (escaping.new
        ≡ after_escapes escaping.old (flat_map (λ t. referred_if_any t.init) (flat_map tables_of_section (source_module source.entry)))) }
{
    let mut values = PrimaryMap::new(alloc);
    for table in entries_of::<TableDef>(source) {
        values.push(first_value(alloc, env, table, escaping)?)?;
    }
    Ok(values)
}

fn first_value(
    alloc: Global,
    env: &dyn TypeConvert,
    table: &TableDef,
    escaping: &mut Escaping,
) -> Result<TableInitialValue, OutOfMemory>
    requires { IfSome (table_of table.now).init (IsConvertible (knows env.now) escaping.old.count) }
    ensures value { IfOk result (λ v. initial.view_first_value v ≡ option_map (const_ops_of (look_up env.now)) (table_of table.now).init) }
    ensures noted { OnOk result (escaping.new ≡ after_escapes escaping.old (referred_if_any (table_of table.now).init)) }
{
    match &table.init {
        None => Ok(TableInitialValue::Null),
        Some(expression) => {
            let value = convert_expression(alloc, env, expression, escaping)?;
            Ok(TableInitialValue::Expr(value))
        }
    }
}

/// An image without cells for each of `count` tables.
pub(crate) fn no_images(
    alloc: Global,
    count: usize,
) -> Result<PrimaryMap<DefinedTableIndex, Vec<FuncIndex>>, OutOfMemory>
    requires { count < u32.MAX }
    ensures { IfOk result (λ images. map (λ image. image.items) images ≡ replicate count []) }
{
    let mut images = PrimaryMap::with_capacity(alloc, count)?;
    for _ in 0..count {
        images.push(Vec::new(alloc))?;
    }
    Ok(images)
}
