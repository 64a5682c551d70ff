//! Values that operators pop from the stack, each by its class.

ghost use Rattle.std.specs.Prelude.{◌≡◌, ◌∷◌, [], map, replicate};
ghost use Rattle.wasm_spec.specs.TypeData.{field_of};
ghost use Rattle.rule_spec.specs.Typing.{field_class};
ghost use Rattle.form_rules.specs.Stack.{Popped};

use crate::classes::field_class;
use rule_spec::Class;
use wasm_spec::FieldType;

/// Pops the top value, which must have this class.
pub fn pop(stack: &mut Vec<Class>, class: Class) -> bool
    ensures { Popped (class ∷ []) stack.old.items stack.new.items result }
{
    match stack.pop() {
        Some(top) => top == class,
        None => false,
    }
}

/// Pops two values, the second from the top.
pub fn pop_two(stack: &mut Vec<Class>, first: Class, second: Class) -> bool
    ensures { Popped (first ∷ second ∷ []) stack.old.items stack.new.items result }
{
    pop(stack, second) && pop(stack, first)
}

/// Pops a value for each field, the last from the top.
pub fn pop_fields(stack: &mut Vec<Class>, fields: &[FieldType]) -> bool
    ensures { Popped (map field_class (map field_of fields.now)) stack.old.items stack.new.items result }
{
    let mut left = fields.len();
    while 0 < left {
        left -= 1;
        if !pop(stack, field_class(&fields[left])) {
            return false;
        }
    }
    true
}

/// Pops `count` values of one class. The loop ends with the stack, however large the count is.
pub fn pop_many(stack: &mut Vec<Class>, count: u32, class: Class) -> bool
    ensures { Popped (replicate count class) stack.old.items stack.new.items result }
{
    let mut left = count;
    while 0 < left {
        left -= 1;
        if !pop(stack, class) {
            return false;
        }
    }
    true
}
