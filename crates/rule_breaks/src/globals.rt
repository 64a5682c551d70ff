//! The first global that breaks a rule. Globals may stay in the input.

ghost use Rattle.std.specs.Prelude.{length, IfOk};
ghost use Rattle.rule_spec.specs.References.{GlobalRefersIn};
ghost use Rattle.form_rules.specs.Views.{lists_of};
ghost use Rattle.form_rules.specs.Outcomes.{HasGlobals};
ghost use Rattle.rule_breaks.specs.Search.{Finds};
ghost use Rattle.rule_breaks.specs.Breaks.{FindsUntyped};

use crate::numbers::next_number;
use form_reader::GlobalDef;
use form_rules::{Lists, Typing, global_is_typed, global_refers, walk_of};
use std::alloc::{AllocError, Global};

/// The first global whose initialiser has another class than its content.
pub(crate) fn first_untyped_global(
    alloc: Global,
    typing: &Typing<'_, '_, '_>,
) -> Result<Option<u32>, AllocError>
    requires counted { HasGlobals (lists_of typing.now.lists.now) }
    ensures { IfOk result (FindsUntyped (lists_of typing.now.lists.now)) }
{
    let mut stack = Vec::new(alloc);
    let mut number = 0;
    let mut index = typing.lists.imported_globals;
    let mut globals = walk_of::<GlobalDef>(alloc, typing.lists.source);
    while globals.advance()? {
        if !global_is_typed(typing, index, globals.entry(), &mut stack)? {
            return Ok(Some(number));
        }
        number = next_number(number)?;
        index += 1;
    }
    Ok(None)
}

/// The first global that refers to a type that is not declared.
pub(crate) fn first_referring_global(
    alloc: Global,
    lists: &Lists<'_, '_>,
) -> Result<Option<u32>, AllocError>
    ensures { IfOk result (Finds (GlobalRefersIn (length (lists_of lists.now).types)) (lists_of lists.now).globals) }
{
    let types = lists.types.count() as usize;
    let mut number = 0;
    let mut globals = walk_of::<GlobalDef>(alloc, lists.source);
    while globals.advance()? {
        if !global_refers(types, globals.entry()) {
            return Ok(Some(number));
        }
        number = next_number(number)?;
    }
    Ok(None)
}
