//! Values of expressions.

ghost use Rattle.std.specs.Prelude.{◌≡◌, ℕ, List, length, All, IfOk, OnOk};
ghost use Rattle.wasm_convert.specs.Constants.{expression_of};
ghost use Rattle.wasm_convert.specs.Operators.{operator_of};
ghost use Rattle.replay_spec.specs.Elements.{cell_of, value_or_null};
ghost use Rattle.replay_spec.specs.Values.{Term, action, number_of, only_value};
ghost use Rattle.plan_run.specs.Evaluation.{globals_of, fields_of, offset_position, EvaluatorIsSound, Grows};
ghost use Rattle.plan_run.specs.Nodes.{Acts, Means, MeansOption};
ghost use Rattle.plan_run.specs.Values.{value_in, values_in, terms_of, NamesBelow};

use crate::kinds::{Kind, kind_of, taken};
use crate::simple::simple;
use crate::value::{Node, Value};
use entity_map::OutOfMemory;
use init_plan::ModuleTranslation;
use module_types::ModuleTypes;
use std::alloc::Global;
use wasm_convert::{ConstExpr, ConstOp};

/// What evaluates the expressions of a translation, over the values of its globals.
#[derive(Drop)]
pub(crate) struct Evaluator<'t, 'd, 'a> {
    pub(crate) alloc: Global,
    pub(crate) translation: &'t ModuleTranslation<'d>,
    pub(crate) types: &'a ModuleTypes,
    pub(crate) globals: Vec<Value>,
    /// What values of nodes represent, by their numbers.
    pub(crate) nodes: Vec<Node>,
}

/// The value, where there is exactly one; otherwise null.
fn only(values: &[Value]) -> Value
    ensures means { (terms : List Term) → value_in terms result ≡ value_or_null (only_value (values_in terms values.now)) }
    ensures below { (k : ℕ) → All (NamesBelow k) values.now → NamesBelow k result }
{
    match values {
        [value] => *value,
        _ => Value::Null,
    }
}

/// The position that a value names, and 0 where it is no integer.
fn position_in(value: Value) -> u64
    ensures { (terms : List Term) → result ≡ number_of (value_in terms value) }
{
    match value {
        Value::I32(n) => n as u64,
        Value::I64(n) => n,
        _ => 0,
    }
}

impl Evaluator<'_, '_, '_> {
    /// What an operator makes of the values that it takes; none where they are not what it needs.
    fn make(&mut self, op: ConstOp, args: &[Value]) -> Result<Option<Value>, OutOfMemory>
        requires sound { EvaluatorIsSound self.old }
        requires args { All (NamesBelow (length self.old.nodes.items)) args.now }
        ensures grows { OnOk result (Grows self.old self.new) }
        ensures means { IfOk result (λ o. (fields : ℕ → ℕ) → MeansOption self.new.nodes.items o
            ((action (globals_of self.old) fields (operator_of op)).makes (values_in (terms_of self.old.nodes.items) args.now))) }
    {
        match kind_of(op) {
            Kind::Simple => Ok(simple(&self.globals, op, args)),
            Kind::Object => Ok(Some(self.push_node(op, args)?)),
            Kind::Conversion => self.convert(op, args),
        }
    }

    /// Runs one operator: replaces the values that it takes by what it makes. Returns whether it
    /// finds the values that it needs.
    fn step(&mut self, stack: &mut Vec<Value>, op: ConstOp) -> Result<bool, OutOfMemory>
        requires sound { EvaluatorIsSound self.old }
        requires stack { All (NamesBelow (length self.old.nodes.items)) stack.old.items }
        ensures grows { OnOk result (Grows self.old self.new) }
        ensures acts { IfOk result (Acts (action (globals_of self.old) (fields_of self.old) (operator_of op))
            self.old.nodes.items self.new.nodes.items stack.old.items stack.new.items) }
    {
        // Copied here: the borrow checker copies no value that holds an index where it is passed
        // on.
        let asked = op;
        let takes = taken(self.translation, self.types, asked);
        if stack.len() < takes {
            return Ok(false);
        }
        let rest = stack.len() - takes;
        let (_, args) = stack.as_slice().split_at(rest);
        match self.make(op, args)? {
            None => Ok(false),
            Some(value) => {
                stack.truncate(rest);
                stack.push(value)?;
                Ok(true)
            }
        }
    }

    /// The value of an expression, and null where it has none.
    pub(crate) fn evaluate(&mut self, expression: &ConstExpr) -> Result<Value, OutOfMemory>
        requires sound { EvaluatorIsSound self.old }
        ensures grows { OnOk result (Grows self.old self.new) }
        ensures means { IfOk result (λ v. Means self.new.nodes.items v (cell_of (globals_of self.old) (fields_of self.old) (expression_of expression.now))) }
    {
        let mut stack = Vec::new(self.alloc);
        for op in expression.ops() {
            if !self.step(&mut stack, *op)? {
                return Ok(Value::Null);
            }
        }
        Ok(only(stack.as_slice()))
    }

    /// The position that an offset names.
    pub(crate) fn offset_of(&mut self, offset: &ConstExpr) -> Result<u64, OutOfMemory>
        requires sound { EvaluatorIsSound self.old }
        ensures grows { OnOk result (Grows self.old self.new) }
        ensures place { IfOk result (λ place. place ≡ offset_position self.old (expression_of offset.now)) }
    {
        let value = self.evaluate(offset)?;
        Ok(position_in(value))
    }
}
