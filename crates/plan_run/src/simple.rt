//! Operators that need no node.

ghost use Rattle.std.specs.Prelude.{◌≡◌, ℕ, List, ◌∷◌, [], true, All, IfSome};
ghost use Rattle.std.specs.Option.{option_map};
ghost use Rattle.wasm_convert.specs.Operators.{operator_of, plain_result};
ghost use Rattle.replay_spec.specs.Values as plain;
ghost use Rattle.replay_spec.specs.Values.{Term, action, is_plain, i31_of};
ghost use Rattle.plan_run.specs.declared.kinds.Kind.TheVariants.{Simple};
ghost use Rattle.plan_run.specs.Kinds.{kind_of};
ghost use Rattle.plan_run.specs.Values.{value_in, values_in, NamesBelow};

use crate::value::{Value, from_constant, to_constant};
use entity_map::EntityRef;
use wasm_convert::ConstOp;

/// What a sum, a difference or a product makes of two values; none of another operator or of other
/// values.
fn joined(op: &ConstOp, first: Value, second: Value) -> Option<Value>
    ensures means { (terms : List Term) → option_map (value_in terms) result
        ≡ plain_result op.now (value_in terms first ∷ value_in terms second ∷ []) }
    ensures below { (k : ℕ) → IfSome result (NamesBelow k) }
{
    let first = to_constant(first)?;
    let second = to_constant(second)?;
    let value = op.joined(first, second)?;
    Some(from_constant(value))
}

/// What a constant, a sum, a difference or a product makes of its arguments.
fn plain_value(op: &ConstOp, args: &[Value]) -> Option<Value>
    requires { is_plain (operator_of op.now) ≡ true }
    ensures means { (terms : List Term) (globals : List plain.Value) (fields : ℕ → ℕ) → option_map (value_in terms) result
        ≡ (action globals fields (operator_of op.now)).makes (values_in terms args.now) }
    ensures below { (k : ℕ) → IfSome result (NamesBelow k) }
{
    if let Some(value) = op.constant() {
        return Some(from_constant(value));
    }
    match args {
        [first, second] => joined(op, *first, *second),
        _ => None,
    }
}

/// The low 31 bits of the one argument, where it is an i32 value.
fn one_i31(args: &[Value]) -> Option<u32>
    ensures { (terms : List Term) → i31_of (values_in terms args.now) ≡ option_map (λ n. plain.Ref (plain.I31 n)) result }
{
    match args {
        [Value::I32(n)] => Some(*n % 0x8000_0000),
        _ => None,
    }
}

/// What an operator that needs no node makes of its arguments.
pub(crate) fn simple(globals: &[Value], op: ConstOp, args: &[Value]) -> Option<Value>
    requires { kind_of (operator_of op) ≡ Simple }
    ensures means { (terms : List Term) (fields : ℕ → ℕ) → option_map (value_in terms) result
        ≡ (action (values_in terms globals.now) fields (operator_of op)).makes (values_in terms args.now) }
    ensures below { (k : ℕ) → All (NamesBelow k) globals.now → IfSome result (NamesBelow k) }
{
    match op {
        ConstOp::GlobalGet(index) => globals.get(index.index()).copied(),
        ConstOp::RefNull(_) => Some(Value::Null),
        ConstOp::RefFunc(index) => Some(Value::Func(index)),
        ConstOp::RefI31 => {
            let n = one_i31(args)?;
            Some(Value::I31(n))
        }
        _ => plain_value(&op, args),
    }
}
