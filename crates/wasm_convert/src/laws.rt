//! Laws of conversion.

ghost use Rattle.std.specs.Prelude.{◌≡◌};
ghost use Rattle.wasm_spec.specs.declared.operators.Operator.{Operator};
ghost use Rattle.wasm_convert.specs.Conversion.{LookUp};
ghost use Rattle.wasm_convert.specs.Operators.{const_op_of, operator_of};
ghost use Rattle.replay_spec.specs.Held.{any_null};

/// An operator that is converted and then converted back is the operator as replay views it: the
/// heap type of a null reference becomes `any`.
pub fn back_conversion_law()
    ensures { (look : LookUp) (op : Operator) → operator_of (const_op_of look op) ≡ any_null op }
{}
