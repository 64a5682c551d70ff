//! The stack on which constant expressions are evaluated.

ghost use Rattle.std.specs.Prelude.{◌≡◌, [], ◌∷◌, ◌++◌, None, if◌then◌else◌};
ghost use Rattle.std.specs.Option.{option_map};
ghost use Rattle.replay_spec.specs.Values.{action, acted, is_plain, plain_step, within_16, only_value};
ghost use Rattle.wasm_convert.specs.Constants.{plain_value_of};
ghost use Rattle.wasm_convert.specs.Evaluation.{plain_stack};
ghost use Rattle.wasm_convert.specs.Operators.{operator_of};

use crate::operators::ConstOp;
use crate::values::GlobalConstValue;
use arrayvec::ArrayVec;

// How many values may be on the stack at any point.
const MOST_VALUES: usize = 16;

/// The values on the stack, the last on top.
#[derive(Drop)]
pub struct Stack {
    values: ArrayVec<GlobalConstValue, MOST_VALUES>,
}

impl Stack {
    /// The empty stack.
    pub fn new() -> Self
        ensures { plain_stack result ≡ [] }
    {
        Stack {
            values: ArrayVec::new(),
        }
    }

    // Pushes a value, where there is capacity for it.
    fn push(&mut self, value: GlobalConstValue) -> Option<()>
        ensures { option_map (λ done. plain_stack self.new) result ≡ within_16 (plain_stack self.old ++ plain_value_of value ∷ []) }
    {
        self.values.try_push(value).ok()
    }

    // The result of a constant or arithmetic operator on the values on top, which it pops.
    fn made(&mut self, op: &ConstOp) -> Option<GlobalConstValue>
        ensures { option_map (λ v. plain_stack self.new ++ plain_value_of v ∷ []) result
            ≡ (if is_plain (operator_of op.now) then acted (action [] (λ t. 0) (operator_of op.now)) (plain_stack self.old) else None) }
    {
        if let Some(value) = op.constant() {
            return Some(value);
        }
        let second = self.values.pop()?;
        let first = self.values.pop()?;
        op.joined(first, second)
    }

    /// Applies the operator, where it is a constant or arithmetic that finds its values, and the
    /// stack has capacity for the result.
    pub fn apply(&mut self, op: ConstOp) -> Option<()>
        ensures { option_map (λ done. plain_stack self.new) result ≡ plain_step (operator_of op) (plain_stack self.old) }
    {
        let value = self.made(&op)?;
        self.push(value)
    }

    /// The value that is alone on the stack.
    pub fn only(&self) -> Option<GlobalConstValue>
        ensures { option_map plain_value_of result ≡ only_value (plain_stack self.now) }
    {
        match self.values.as_slice() {
            [value] => Some(*value),
            _ => None,
        }
    }
}
