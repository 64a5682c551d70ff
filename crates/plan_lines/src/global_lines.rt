//! The lines of the first values of globals.

ghost use Rattle.std.specs.Prelude.{◌≡◌, ◌++◌, OnOk};
ghost use Rattle.std.specs.List.{flat_map};
ghost use Rattle.plan_lines.specs.GlobalLines.{constant_of, global_line, global_expression_line};

use crate::expressions::{append_expression_line, append_operator};
use crate::numbers::append_between;
use crate::text::Text;
use entity_map::{EntityRef, OutOfMemory};
use wasm_convert::{ConstExpr, ConstOp, GlobalConstValue};
use wasm_index::DefinedGlobalIndex;

/// The operator that gives a value.
pub fn constant_of(value: GlobalConstValue) -> ConstOp
    ensures { result ≡ constant_of value }
{
    match value {
        GlobalConstValue::I32(number) => ConstOp::I32Const(number),
        GlobalConstValue::I64(number) => ConstOp::I64Const(number),
        GlobalConstValue::F32(bits) => ConstOp::F32Const(bits),
        GlobalConstValue::F64(bits) => ConstOp::F64Const(bits),
        GlobalConstValue::V128(bits) => ConstOp::V128Const(bits),
    }
}

/// Appends the line of a global whose value is known.
///
/// # Errors
/// `OutOfMemory`; the text may then end anywhere.
#[tactic(auto, unfolding(crate::specs::GlobalLines::global_line))]
pub fn append_global(
    text: &mut Text,
    index: DefinedGlobalIndex,
    value: GlobalConstValue,
) -> Result<(), OutOfMemory>
    ensures { OnOk result (text.new ≡ text.old ++ global_line index value) }
{
    append_between(text, "global ", index.as_u32().into(), " ")?;
    append_operator(text, constant_of(value))?;
    text.push_byte(b'\n')
}

/// Appends the lines of the globals whose values are known.
///
/// # Errors
/// `OutOfMemory`; the text may then end anywhere.
pub fn append_globals(
    text: &mut Text,
    values: &[(DefinedGlobalIndex, GlobalConstValue)],
) -> Result<(), OutOfMemory>
    ensures { OnOk result (text.new ≡ text.old ++ flat_map (λ g. global_line g.0 g.1) values.now) }
{
    for (index, value) in values {
        append_global(text, *index, *value)?;
    }
    Ok(())
}

/// Appends the line of a global that begins as the value of an expression.
///
/// # Errors
/// `OutOfMemory`; the text may then end anywhere.
#[tactic(auto, unfolding(crate::specs::GlobalLines::global_expression_line))]
pub fn append_global_expression(
    text: &mut Text,
    index: DefinedGlobalIndex,
    expression: &ConstExpr,
) -> Result<(), OutOfMemory>
    ensures { OnOk result (text.new ≡ text.old ++ global_expression_line index expression.now) }
{
    append_expression_line(text, "global-expr", index.as_u32(), expression)
}

/// Appends the lines of the globals that begin as the values of expressions.
///
/// # Errors
/// `OutOfMemory`; the text may then end anywhere.
pub fn append_global_expressions(
    text: &mut Text,
    expressions: &[(DefinedGlobalIndex, ConstExpr)],
) -> Result<(), OutOfMemory>
    ensures { OnOk result (text.new ≡ text.old ++ flat_map (λ g. global_expression_line g.0 g.1) expressions.now) }
{
    for (index, expression) in expressions {
        append_global_expression(text, *index, expression)?;
    }
    Ok(())
}
