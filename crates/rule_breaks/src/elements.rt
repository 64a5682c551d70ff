//! The first element segment that breaks a rule. Element segments may stay in the input.

ghost use Rattle.std.specs.Prelude.{◌↔◌, IsTrue, IfOk};
ghost use Rattle.form_reader.specs.Views.{element_of};
ghost use Rattle.form_rules.specs.Views.{lists_of};
ghost use Rattle.rule_breaks.specs.Search.{Finds};
ghost use Rattle.rule_breaks.specs.Kept.{ElementKeeps};

use crate::numbers::next_number;
use form_reader::Element;
use form_rules::{Typing, element_is_in_range, element_is_typed, element_refers, walk_of};
use rule_spec::{Class, Rule};
use std::alloc::{AllocError, Global};

/// The first element segment that breaks a rule.
pub(crate) fn first_element(
    alloc: Global,
    typing: &Typing<'_, '_, '_>,
    rule: Rule,
) -> Result<Option<u32>, AllocError>
    ensures { IfOk result (Finds (ElementKeeps rule (lists_of typing.now.lists.now)) (lists_of typing.now.lists.now).elements) }
{
    let mut stack = Vec::new(alloc);
    let mut number = 0;
    let mut elements = walk_of::<Element>(alloc, typing.lists.source);
    while elements.advance()? {
        if !element_keeps(typing, rule, elements.entry(), &mut stack)? {
            return Ok(Some(number));
        }
        number = next_number(number)?;
    }
    Ok(None)
}

fn element_keeps(
    typing: &Typing<'_, '_, '_>,
    rule: Rule,
    element: &Element,
    stack: &mut Vec<Class>,
) -> Result<bool, AllocError>
    ensures { IfOk result (λ kept. IsTrue kept ↔ ElementKeeps rule (lists_of typing.now.lists.now) (element_of element.now)) }
{
    match rule {
        Rule::L6 => element_is_typed(typing, element, stack),
        Rule::L9 => Ok(element_is_in_range(typing.lists, element)),
        Rule::L10 => Ok(element_refers(typing.lists.types.count() as usize, element)),
        _ => Ok(true),
    }
}
