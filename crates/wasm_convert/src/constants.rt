//! Constant expressions and their values.

ghost use Rattle.std.specs.Prelude.{◌≡◌, ◌↔◌, ◌<◌, ◌≤◌, ◌++◌, ◌∷◌, [], length, All, IsTrue, IsOk, IfOk, IfSome, OnOk};
ghost use Rattle.std.specs.Option.{option_map, option_to_list};
ghost use Rattle.wasm_index.specs.Index.{number_of};
ghost use Rattle.wasm_convert.specs.declared.operators.ConstOp.TheVariants.{I32Const};
ghost use Rattle.wasm_convert.specs.Constants.{plain_value_of, expression_of, IsNonzeroI32, const_ops_of, function_in, functions_of};
ghost use Rattle.wasm_spec.specs.declared.operators.Operator.TheVariants as plain;
ghost use Rattle.wasm_convert.specs.Conversion.{LookUp};
ghost use Rattle.wasm_convert.specs.Operators.{KnowsOperator};
ghost use Rattle.replay_spec.specs.Values.{const_value};

use crate::convert::TypeConvert;
use crate::evaluation::Stack;
use crate::operators::ConstOp;
use crate::values::GlobalConstValue;
use entity_map::{EntityRef, OutOfMemory};
use smallvec::SmallVec;
use std::alloc::Global;
use std::marker::Model;
use wasm_index::FuncIndex;
use wasm_spec::Operator;
use wasm_types::{EngineOrModuleTypeIndex, WasmHeapType};

/// A constant expression: its operators, of which there is at least one. Two are stored without an
/// allocation.
#[derive(Drop)]
pub struct ConstExpr {
    ops: SmallVec<ConstOp, 2>,
}

/// A contract views it as the list of the operators.
impl Model for ConstExpr {
    ghost use Rattle.std.specs.Prelude.{List, ◌<◌, length};
    ghost use Rattle.wasm_convert.specs.declared.operators.ConstOp.{ConstOp};

    ghost Value = { List ConstOp };

    ghost view = { λ e. e.ops.items };

    ghost invariant = { λ e. 0 < length e.ops.items };
}

// Appends the function to which the operator makes a reference, if it makes one.
#[inline(always)]
fn push_function(escaped: &mut SmallVec<FuncIndex, 1>, op: &Operator) -> Result<(), OutOfMemory>
    requires { IfSome (function_in op.now) (λ function. number_of function < u32.MAX) }
    ensures { OnOk result (escaped.new.items ≡ escaped.old.items ++ option_to_list (function_in op.now)) }
{
    if let Operator::RefFunc { function_index } = op {
        escaped.push(FuncIndex::from_u32(*function_index))?;
    }
    Ok(())
}

// The value that operators leave alone on an initially empty stack.
fn evaluated(ops: &[ConstOp]) -> Option<GlobalConstValue>
    ensures { option_map plain_value_of result ≡ const_value (expression_of ops.now) }
{
    let mut stack = Stack::new();
    for op in ops {
        stack.apply(*op)?;
    }
    stack.only()
}

impl ConstExpr {
    /// The expression of these operators.
    ///
    /// # Errors
    /// `OutOfMemory`, only for more than two operators.
    pub fn new(alloc: Global, ops: &[ConstOp]) -> Result<Self, OutOfMemory>
        requires { 0 < length ops.now }
        ensures listed { IfOk result (λ e. e ≡ ops.now) }
        ensures without_memory { length ops.now ≤ 2 → IsOk result }
    {
        Ok(ConstExpr {
            ops: SmallVec::from_slice(alloc, ops)?,
        })
    }

    /// The expression of one `i32.const`.
    #[inline(always)]
    pub fn one_i32(alloc: Global, value: i32) -> Self
        ensures is { result ≡ I32Const value ∷ [] }
        ensures converted { (look : LookUp) → result ≡ const_ops_of look (plain.I32Const value ∷ []) }
    {
        // The types that an operator holds.
        let _named: Option<EngineOrModuleTypeIndex> = None;
        let _named: Option<WasmHeapType> = None;
        let mut ops = SmallVec::new(alloc);
        ops.push_reserved(ConstOp::I32Const(value));
        ConstExpr { ops }
    }

    /// The expression that was read, with each operator converted, and the functions to which it
    /// makes references, in order: those escape. Each heap type in the expression must be known,
    /// and each index must be below `u32::MAX`.
    ///
    /// # Errors
    /// `OutOfMemory`, only for more than two operators or more than one function.
    #[inline(always)]
    pub fn from_wasmparser(
        alloc: Global,
        env: &dyn TypeConvert,
        expr: &form_reader::ConstExpr,
    ) -> Result<(Self, SmallVec<FuncIndex, 1>), OutOfMemory>
        requires some { 0 < length expr.now.ops.items }
        requires known { All (KnowsOperator (knows env.now)) expr.now.ops.items }
        ensures converted { IfOk result (λ r. r.0 ≡ const_ops_of (look_up env.now) expr.now.ops.items) }
        ensures escaping { IfOk result (λ r. r.1.items ≡ functions_of expr.now.ops.items) }
    {
        let mut ops = SmallVec::with_capacity(alloc, expr.ops.len())?;
        let mut escaped = SmallVec::new(alloc);
        for op in &expr.ops {
            push_function(&mut escaped, op)?;
            ops.push(ConstOp::from_wasmparser(env, op))?;
        }
        Ok((ConstExpr { ops }, escaped))
    }

    /// The operators, of which there is at least one.
    pub fn ops(&self) -> &[ConstOp]
        ensures listed { result.now ≡ self.now }
        ensures some { 0 < length result.now }
    {
        self.ops.as_slice()
    }

    /// The value of the expression where its operators are constants, sums, differences and
    /// products, at most 16 values are on the stack at any point, and one remains (core
    /// specification, 4.6, instructions). Integers wrap.
    #[inline(always)]
    pub fn const_eval(&self) -> Option<GlobalConstValue>
        ensures { option_map plain_value_of result ≡ const_value (expression_of self.now) }
    {
        match self.ops() {
            // One constant needs no stack.
            [ConstOp::I32Const(value)] => Some(GlobalConstValue::I32(*value)),
            [ConstOp::I64Const(value)] => Some(GlobalConstValue::I64(*value)),
            // Another first operator finds no value.
            [first, ..] if first.constant().is_none() => None,
            ops => evaluated(ops),
        }
    }

    /// Whether the expression is one `i32.const` of a number other than 0.
    pub fn provably_nonzero_i32(&self) -> bool
        ensures { IsTrue result ↔ IsNonzeroI32 self.now }
    {
        match self.ops() {
            [ConstOp::I32Const(value)] => *value != 0,
            _ => false,
        }
    }

    /// An equal expression.
    ///
    /// # Errors
    /// `OutOfMemory`, only for more than two operators.
    pub fn try_clone(&self, alloc: Global) -> Result<Self, OutOfMemory>
        ensures equal { IfOk result (λ e. e ≡ self.now) }
        ensures without_memory { length self.now ≤ 2 → IsOk result }
    {
        Self::new(alloc, self.ops())
    }
}
