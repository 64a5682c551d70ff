//! Values.

ghost use Rattle.std.specs.Prelude.{◌≡◌, ℕ, List, MatchOption};
ghost use Rattle.wasm_convert.specs.Constants.{plain_value_of};
ghost use Rattle.replay_spec.specs.Values.{Term};
ghost use Rattle.plan_run.specs.Values.{value_in, IsPlain, IsReference, NamesBelow};

use wasm_convert::{ConstOp, GlobalConstValue};
use wasm_index::FuncIndex;

/// A value (core specification, 4.2, runtime structure: values).
#[derive(Clone, Copy, Debug, PartialEq, Eq)]
pub enum Value {
    /// An integer of 32 bits, unsigned.
    I32(u32),
    /// An integer of 64 bits, unsigned.
    I64(u64),
    /// The bits of a float of 32 bits.
    F32(u32),
    /// The bits of a float of 64 bits.
    F64(u64),
    /// The bits of a vector.
    V128(u128),
    /// The null reference of every type.
    Null,
    /// A function of the module.
    Func(FuncIndex),
    /// A reference that the host numbers.
    Host(u64),
    /// An integer as a reference; the number is below 2^31.
    I31(u32),
    /// What the node of this number makes.
    Term(u32),
}

/// An object that an operator makes of its arguments, or a converted reference. The nodes that the
/// arguments name have lower numbers.
#[derive(Drop)]
pub struct Node {
    /// What makes it: an operator that allocates, or a conversion.
    pub op: ConstOp,
    /// What the operator took from the stack, in order.
    pub args: Vec<Value>,
}

/// The value of a constant.
pub(crate) fn from_constant(value: GlobalConstValue) -> Value
    ensures means { (terms : List Term) → value_in terms result ≡ plain_value_of value }
    ensures below { (k : ℕ) → NamesBelow k result }
    ensures plain { IsPlain result }
{
    match value {
        GlobalConstValue::I32(n) => Value::I32(n.cast_unsigned()),
        GlobalConstValue::I64(n) => Value::I64(n.cast_unsigned()),
        GlobalConstValue::F32(bits) => Value::F32(bits),
        GlobalConstValue::F64(bits) => Value::F64(bits),
        GlobalConstValue::V128(bits) => Value::V128(bits),
    }
}

/// The constant value that a value is; none of a reference.
pub(crate) fn to_constant(value: Value) -> Option<GlobalConstValue>
    ensures { MatchOption result (IsReference value) (λ v. (terms : List Term) → plain_value_of v ≡ value_in terms value) }
{
    match value {
        Value::I32(n) => Some(GlobalConstValue::I32(n.cast_signed())),
        Value::I64(n) => Some(GlobalConstValue::I64(n.cast_signed())),
        Value::F32(bits) => Some(GlobalConstValue::F32(bits)),
        Value::F64(bits) => Some(GlobalConstValue::F64(bits)),
        Value::V128(bits) => Some(GlobalConstValue::V128(bits)),
        _ => None,
    }
}
