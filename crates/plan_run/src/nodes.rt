//! Nodes, which hold what operators make.

ghost use Rattle.std.specs.Prelude.{◌≡◌, [], ◌∷◌, length, All, Some, IfOk, OnOk, IfSome, IfNone, IsTrue, ◌↔◌, ◌<◌};
ghost use Rattle.wasm_convert.specs.Operators.{operator_of};
ghost use Rattle.replay_spec.specs.Values as plain;
ghost use Rattle.replay_spec.specs.Values.{converted};
ghost use Rattle.plan_run.specs.declared.kinds.Kind.TheVariants.{Conversion};
ghost use Rattle.plan_run.specs.declared.value.Value.TheVariants.{Term};
ghost use Rattle.plan_run.specs.Evaluation.{EvaluatorIsSound, Grows};
ghost use Rattle.plan_run.specs.Kinds.{kind_of, conversion};
ghost use Rattle.plan_run.specs.Nodes.{Means, MeansOption};
ghost use Rattle.plan_run.specs.Values.{value_in, values_in, terms_of, kept_term, NamesBelow, IsReference, HasReference, AreOrdered};

use crate::evaluation::Evaluator;
use crate::kinds::undoes;
use crate::value::{Node, Value};
use entity_map::OutOfMemory;
use wasm_convert::ConstOp;

/// What a node was made from, where a conversion undoes it.
fn given_back(nodes: &[Node], op: ConstOp, number: u32) -> Option<Value>
    requires ordered { AreOrdered nodes.now }
    requires conversion { kind_of (operator_of op) ≡ Conversion }
    requires within { number < length nodes.now }
    ensures below { IfSome result (NamesBelow number) }
    ensures some { IfSome result (λ v. converted (conversion (operator_of op)) (value_in (terms_of nodes.now) (Term number) ∷ []) ≡ Some (value_in (terms_of nodes.now) v)) }
    ensures none { IfNone result (converted (conversion (operator_of op)) (value_in (terms_of nodes.now) (Term number) ∷ [])
        ≡ Some (plain.Ref (kept_term (operator_of op) (value_in (terms_of nodes.now) (Term number) ∷ [])))) }
{
    let node = &nodes[number as usize];
    if undoes(op, node.op) {
        return node.args.first().copied();
    }
    None
}

/// What a reference is converted to, where that is no new node.
fn known_conversion(nodes: &[Node], op: ConstOp, value: Value) -> Option<Value>
    requires ordered { AreOrdered nodes.now }
    requires conversion { kind_of (operator_of op) ≡ Conversion }
    requires below { NamesBelow (length nodes.now) value }
    ensures below { IfSome result (NamesBelow (length nodes.now)) }
    ensures some { IfSome result (λ v. converted (conversion (operator_of op)) (value_in (terms_of nodes.now) value ∷ []) ≡ Some (value_in (terms_of nodes.now) v)) }
    ensures none { IfNone result (IsReference value → converted (conversion (operator_of op)) (value_in (terms_of nodes.now) value ∷ [])
        ≡ Some (plain.Ref (kept_term (operator_of op) (value_in (terms_of nodes.now) value ∷ [])))) }
{
    match value {
        Value::Null => Some(Value::Null),
        Value::Term(number) => given_back(nodes, op, number),
        Value::Func(_) => None,
        Value::Host(_) => None,
        Value::I31(_) => None,
        Value::I32(_) => None,
        Value::I64(_) => None,
        Value::F32(_) => None,
        Value::F64(_) => None,
        Value::V128(_) => None,
    }
}

fn is_reference(value: Value) -> bool
    ensures { IsTrue result ↔ IsReference value }
{
    match value {
        Value::Null | Value::Func(_) | Value::Host(_) | Value::I31(_) | Value::Term(_) => true,
        Value::I32(_) | Value::I64(_) | Value::F32(_) | Value::F64(_) | Value::V128(_) => false,
    }
}

impl Evaluator<'_, '_, '_> {
    /// A node of an operator and its arguments, as a value.
    pub(crate) fn push_node(&mut self, op: ConstOp, args: &[Value]) -> Result<Value, OutOfMemory>
        requires sound { EvaluatorIsSound self.old }
        requires below { All (NamesBelow (length self.old.nodes.items)) args.now }
        requires converts { HasReference (operator_of op) args.now }
        ensures grows { OnOk result (Grows self.old self.new) }
        ensures means { IfOk result (λ v. Means self.new.nodes.items v (plain.Ref (kept_term (operator_of op) (values_in (terms_of self.old.nodes.items) args.now)))) }
    {
        if u32::MAX as usize <= self.nodes.len() {
            return Err(OutOfMemory);
        }
        let number = self.nodes.len() as u32;
        let args = Vec::from_slice(self.alloc, args)?;
        self.nodes.push(Node { op, args })?;
        Ok(Value::Term(number))
    }

    /// A reference, converted. One that the other conversion made gives back what that was made
    /// from; what is no reference is not converted.
    fn convert_one(&mut self, op: ConstOp, value: Value) -> Result<Option<Value>, OutOfMemory>
        requires sound { EvaluatorIsSound self.old }
        requires conversion { kind_of (operator_of op) ≡ Conversion }
        requires below { NamesBelow (length self.old.nodes.items) value }
        ensures grows { OnOk result (Grows self.old self.new) }
        ensures means { IfOk result (λ o. MeansOption self.new.nodes.items o
            (converted (conversion (operator_of op)) (value_in (terms_of self.old.nodes.items) value ∷ []))) }
    {
        if !is_reference(value) {
            return Ok(None);
        }
        if let Some(known) = known_conversion(&self.nodes, op, value) {
            return Ok(Some(known));
        }
        Ok(Some(self.push_node(op, &[value])?))
    }

    /// The one argument of a conversion, converted.
    pub(crate) fn convert(
        &mut self,
        op: ConstOp,
        args: &[Value],
    ) -> Result<Option<Value>, OutOfMemory>
        requires sound { EvaluatorIsSound self.old }
        requires conversion { kind_of (operator_of op) ≡ Conversion }
        requires below { All (NamesBelow (length self.old.nodes.items)) args.now }
        ensures grows { OnOk result (Grows self.old self.new) }
        ensures means { IfOk result (λ o. MeansOption self.new.nodes.items o
            (converted (conversion (operator_of op)) (values_in (terms_of self.old.nodes.items) args.now))) }
    {
        match args {
            [value] => self.convert_one(op, *value),
            _ => Ok(None),
        }
    }
}
