//! Offsets of segments.

ghost use Rattle.std.specs.Prelude.{◌≡◌, IfOk};
ghost use Rattle.wasm_convert.specs.Constants.{const_ops_of};
ghost use Rattle.module_sections.specs.Segments.{IsOffset};

use entity_map::OutOfMemory;
use form_rules::one_i32;
use std::alloc::Global;
use wasm_convert::{ConstExpr, TypeConvert};

/// An offset, converted. It is a number, so it makes no reference to a function.
pub(crate) fn convert_offset(
    alloc: Global,
    env: &dyn TypeConvert,
    offset: &form_reader::ConstExpr,
) -> Result<ConstExpr, OutOfMemory>
    requires { IsOffset (knows env.now) offset.now.ops.items }
    ensures { IfOk result (λ e. e ≡ const_ops_of (look_up env.now) offset.now.ops.items) }
{
    // Most offsets are one constant.
    if let Some(value) = one_i32(offset) {
        return Ok(ConstExpr::one_i32(alloc, value));
    }
    let (offset, _functions) = ConstExpr::from_wasmparser(alloc, env, offset)?;
    Ok(offset)
}
