//! Whether an expression has a class.

ghost use Rattle.std.specs.Prelude.{◌≡◌, ◌↔◌, ◌∷◌, [], IsTrue, IfOk};
ghost use Rattle.form_reader.specs.Views.{expression_of};
ghost use Rattle.rule_spec.specs.declared.classes.Class.TheVariants.{I32};
ghost use Rattle.rule_spec.specs.Typing.{HasClass};
ghost use Rattle.form_rules.specs.Views.{lists_of};

use crate::classes::Typing;
use crate::constants::one_i32;
use crate::operators::take_operands;
use form_reader::ConstExpr;
use rule_spec::Class;
use std::alloc::AllocError;
use wasm_spec::GlobalType;

/// Whether the expression leads from the empty stack to one value of the class, where these globals
/// are visible.
///
/// What `stack` holds has no effect: it is a parameter so that all expressions share one list.
pub fn is_typed(
    typing: &Typing<'_, '_, '_>,
    visible: &[GlobalType],
    expression: &ConstExpr,
    class: Class,
    stack: &mut Vec<Class>,
) -> Result<bool, AllocError>
    ensures { IfOk result (λ typed. IsTrue typed ↔ HasClass (lists_of typing.now.lists.now) visible.now (expression_of expression.now) class) }
{
    // Most expressions are one constant.
    if let Some(_value) = one_i32(expression) {
        return Ok(is_i32(class));
    }
    stack.clear();
    for op in &expression.ops {
        match take_operands(typing, visible, op, stack) {
            Some(pushed) => stack.push(pushed)?,
            None => return Ok(false),
        }
    }
    Ok(is_alone(stack, class))
}

fn is_i32(class: Class) -> bool
    ensures { IsTrue result ↔ (class ≡ I32) }
{
    class == Class::I32
}

/// Whether the stack holds one value, of this class.
fn is_alone(stack: &[Class], class: Class) -> bool
    ensures { IsTrue result ↔ (stack.now ≡ class ∷ []) }
{
    match stack {
        [value] => *value == class,
        _ => false,
    }
}
