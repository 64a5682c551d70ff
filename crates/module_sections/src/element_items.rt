//! The items of element segments.

ghost use Rattle.std.specs.Prelude.{◌≡◌, ◌<◌, map, All, IfOk, OnOk};
ghost use Rattle.std.specs.List.{flat_map};
ghost use Rattle.form_reader.specs.Views.{expression_of, items_of};
ghost use Rattle.wasm_index.specs.Index.{number_of};
ghost use Rattle.wasm_convert.specs.Constants.{const_ops_of};
ghost use Rattle.replay_spec.specs.Elements.{items_by};
ghost use Rattle.module_sections.specs.Convertible.{IsConvertible};
ghost use Rattle.module_sections.specs.Escapes.{referred, item_functions};
ghost use Rattle.module_sections.specs.EscapeLog.{after_escapes};
ghost use Rattle.module_sections.specs.Initialisers.{type_in, view_items};
ghost use Rattle.module_sections.specs.Segments.{AreItemsConvertible};

use crate::escapes::Escaping;
use crate::expressions::convert_expression;
use entity_map::{EntityRef, OutOfMemory};
use form_reader::ElementItems;
use std::alloc::Global;
use wasm_convert::{ConstExpr, TypeConvert};
use wasm_index::FuncIndex;
use wasm_module::TableSegmentElements;

/// The items of a segment, converted; the functions to which they make references are recorded.
pub(crate) fn convert_items(
    alloc: Global,
    env: &dyn TypeConvert,
    items: &ElementItems,
    escaping: &mut Escaping,
) -> Result<TableSegmentElements, OutOfMemory>
    requires { AreItemsConvertible (knows env.now) escaping.old.count (items_of items.now) }
    ensures converted { IfOk result (λ r. view_items r ≡ items_by (type_in (look_up env.now)) (const_ops_of (look_up env.now)) (items_of items.now)) }
    ensures noted { OnOk result (escaping.new ≡ after_escapes escaping.old (item_functions (items_of items.now))) }
{
    match items {
        ElementItems::Functions(indices) => Ok(TableSegmentElements::Functions(convert_functions(
            alloc, indices, escaping,
        )?)),
        ElementItems::Expressions(ty, list) => Ok(TableSegmentElements::Expressions {
            ty: env.convert_ref_type(*ty),
            exprs: convert_expressions(alloc, env, list, escaping)?,
        }),
    }
}

fn convert_functions(
    alloc: Global,
    indices: &[u32],
    escaping: &mut Escaping,
) -> Result<Vec<FuncIndex>, OutOfMemory>
    requires { All (λ f. (f < escaping.old.count) × (f < u32.MAX)) indices.now }
    ensures converted { IfOk result (λ functions. map number_of functions.items ≡ indices.now) }
    ensures noted { OnOk result (escaping.new ≡ after_escapes escaping.old indices.now) }
{
    let mut functions = Vec::with_capacity(alloc, indices.len())?;
    for index in indices {
        let function = FuncIndex::from_u32(*index);
        escaping.note_escape(function)?;
        functions.push(function)?;
    }
    Ok(functions)
}

fn convert_expressions(
    alloc: Global,
    env: &dyn TypeConvert,
    list: &[form_reader::ConstExpr],
    escaping: &mut Escaping,
) -> Result<Vec<ConstExpr>, OutOfMemory>
    requires { All (IsConvertible (knows env.now) escaping.old.count) (map expression_of list.now) }
    ensures converted { IfOk result (λ es. es.items ≡ map (const_ops_of (look_up env.now)) (map expression_of list.now)) }
    ensures noted { OnOk result (escaping.new ≡ after_escapes escaping.old (flat_map referred (map expression_of list.now))) }
{
    let mut expressions = Vec::with_capacity(alloc, list.len())?;
    for expression in list {
        expressions.push(convert_expression(alloc, env, expression, escaping)?)?;
    }
    Ok(expressions)
}
