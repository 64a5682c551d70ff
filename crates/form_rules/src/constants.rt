//! Expressions of one constant, which most offsets are.

ghost use Rattle.std.specs.Prelude.{◌≡◌, ◌∷◌, [], IfSome};
ghost use Rattle.wasm_spec.specs.declared.operators.Operator.TheVariants.{I32Const};
ghost use Rattle.form_reader.specs.Views.{expression_of};

use form_reader::ConstExpr;
use wasm_spec::Operator;

/// The number of an expression of one `i32.const`.
#[inline(always)]
pub fn one_i32(expression: &ConstExpr) -> Option<i32>
    ensures { IfSome result (λ value. expression_of expression.now ≡ I32Const value ∷ []) }
{
    match only(expression.ops.as_slice()) {
        Some(Operator::I32Const { value }) => Some(*value),
        _ => None,
    }
}

/// The only operator, if there is only one.
#[inline(always)]
fn only(ops: &[Operator]) -> Option<&Operator>
    ensures { IfSome result (λ op. ops.now ≡ op.now ∷ []) }
{
    match ops {
        [op] => Some(op),
        _ => None,
    }
}
