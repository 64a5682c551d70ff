//! Constant expressions, converted.

ghost use Rattle.std.specs.Prelude.{◌≡◌, IfOk, OnOk};
ghost use Rattle.wasm_convert.specs.Constants.{const_ops_of};
ghost use Rattle.module_sections.specs.Convertible.{IsConvertible};
ghost use Rattle.module_sections.specs.Escapes.{referred};
ghost use Rattle.module_sections.specs.EscapeLog.{after_escapes};

use crate::escapes::Escaping;
use entity_map::OutOfMemory;
use std::alloc::Global;
use wasm_convert::{ConstExpr, TypeConvert};

/// An expression, converted; the functions to which it makes references are recorded.
#[inline(always)]
pub(crate) fn convert_expression(
    alloc: Global,
    env: &dyn TypeConvert,
    expression: &form_reader::ConstExpr,
    escaping: &mut Escaping,
) -> Result<ConstExpr, OutOfMemory>
    requires { IsConvertible (knows env.now) escaping.old.count expression.now.ops.items }
    ensures converted { IfOk result (λ e. e ≡ const_ops_of (look_up env.now) expression.now.ops.items) }
    ensures noted { OnOk result (escaping.new ≡ after_escapes escaping.old (referred expression.now.ops.items)) }
{
    let (converted, functions) = ConstExpr::from_wasmparser(alloc, env, expression)?;
    escaping.note_escapes(functions.as_slice())?;
    Ok(converted)
}
