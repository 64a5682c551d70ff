//! What the rules require of element segments. One walk checks all rules, since each walk reads a
//! segment again that stays in the input.

ghost use Rattle.std.specs.Prelude.{IfOk};
ghost use Rattle.form_reader.specs.Views.{element_of};
ghost use Rattle.form_rules.specs.Views.{lists_of};
ghost use Rattle.form_rules.specs.Walked.{AreElementsWalked, IsElementAdded};

use crate::indices::{element_is_in_range, names_functions};
use crate::plain::is_plain_element;
use crate::references::element_refers;
use crate::{Typing, element_is_typed, walk_of};
use form_reader::Element;
use rule_spec::Class;
use std::alloc::{AllocError, Global};

/// For each rule about element segments, whether all of them keep it.
#[derive(Clone, Copy)]
pub struct ElementsKeep {
    /// Their expressions have the classes that their places require (L6).
    pub typed: bool,
    /// What they name is in range (L9).
    pub in_range: bool,
    /// Their concrete references name declared types (L10).
    pub refer: bool,
}

/// Walks through the element segments.
pub fn walk_elements(alloc: Global, typing: &Typing<'_, '_, '_>) -> Result<ElementsKeep, AllocError>
    ensures { IfOk result (λ kept. AreElementsWalked (lists_of typing.now.lists.now) kept) }
{
    let mut stack = Vec::new(alloc);
    let mut kept = ElementsKeep {
        typed: true,
        in_range: true,
        refer: true,
    };
    let mut elements = walk_of::<Element>(alloc, typing.lists.source);
    while elements.advance()? {
        kept = with_element(typing, kept, elements.entry(), &mut stack)?;
    }
    Ok(kept)
}

/// The same with one segment more.
fn with_element(
    typing: &Typing<'_, '_, '_>,
    before: ElementsKeep,
    element: &Element,
    stack: &mut Vec<Class>,
) -> Result<ElementsKeep, AllocError>
    ensures { IfOk result (λ kept. IsElementAdded (lists_of typing.now.lists.now) before (element_of element.now) kept) }
{
    let lists = typing.lists;
    if is_plain_element(lists, element) {
        return Ok(ElementsKeep {
            typed: before.typed,
            in_range: before.in_range && names_functions(lists, &element.items),
            refer: before.refer,
        });
    }
    let typed = element_is_typed(typing, element, stack)?;
    Ok(ElementsKeep {
        typed: before.typed && typed,
        in_range: before.in_range && element_is_in_range(lists, element),
        refer: before.refer && element_refers(lists.types.count() as usize, element),
    })
}
