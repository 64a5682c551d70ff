//! How many bytes the texts of constant expressions have.

ghost use Rattle.std.specs.Prelude.{◌≤◌, All, length};
ghost use Rattle.plan_lines.specs.Expressions.{operator_text};
ghost use Rattle.plan_laws.specs.Widths.{HasWidth, IsShortExpression};

use crate::type_bytes::heap;
use wasm_convert::{ConstExpr, ConstOp, Operands};

fn operands(operands: Operands)
    ensures { HasWidth operands }
{
    match operands {
        Operands::I32(value) => {
            let _value = value;
        }
        Operands::I64(value) => {
            let _value = value;
        }
        Operands::Index(index) => {
            let _index = index;
        }
        Operands::Heap(ty) => heap(&ty),
        Operands::IndexAndSize { index, size } => {
            let _numbers = (index, size);
        }
        Operands::None | Operands::Bits32(_) | Operands::Bits64(_) | Operands::Bits128(_) => {}
    }
}

fn operator(operator: &ConstOp)
    ensures { length (operator_text operator.now) ≤ 45 }
{
    operands(operator.operands());
}

fn operators(operators: &[ConstOp])
    ensures { All (λ op. length (operator_text op) ≤ 45) operators.now }
{
    for each in operators {
        operator(each);
    }
}

/// An expression, at 47 bytes for each operator.
pub(crate) fn expression(expression: &ConstExpr)
    ensures { IsShortExpression expression.now }
{
    operators(expression.ops());
}
