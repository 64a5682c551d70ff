//! The first break of rule L2, type indices of functions and tags.

ghost use Rattle.std.specs.Prelude.{IfOk};
ghost use Rattle.rule_spec.specs.declared.rules.Rule.{Rule};
ghost use Rattle.rule_spec.specs.TypeRules.{NamesFunctionType};
ghost use Rattle.form_rules.specs.Views.{lists_of};
ghost use Rattle.rule_breaks.specs.Search.{Finds};
ghost use Rattle.rule_breaks.specs.Breaks.{Locates};

use crate::lists::{Break, ModuleList, at};
use crate::numbers::next_number;
use entity_map::OutOfMemory;
use form_rules::{Lists, is_function_at};
use std::alloc::AllocError;

/// The first function or tag that has no declared function type.
pub(crate) fn break_of_types(lists: &Lists<'_, '_>) -> Result<Option<Break>, OutOfMemory>
    ensures { IfOk result (Locates Rule.L2 (lists_of lists.now)) }
{
    if let Some(entry) = first_of_no_function_type(lists, &lists.spaces.functions)? {
        return Ok(at(ModuleList::Functions, entry));
    }
    match first_of_no_function_type(lists, &lists.spaces.tags)? {
        Some(entry) => Ok(at(ModuleList::Tags, entry)),
        None => Ok(None),
    }
}

/// The first index that is not that of a declared function type.
fn first_of_no_function_type(
    lists: &Lists<'_, '_>,
    indices: &[u32],
) -> Result<Option<u32>, AllocError>
    ensures { IfOk result (Finds (NamesFunctionType (lists_of lists.now)) indices.now) }
{
    let mut number = 0;
    let mut left = indices;
    while let Some((first, others)) = left.split_first() {
        if !is_function_at(lists, *first) {
            return Ok(Some(number));
        }
        number = next_number(number)?;
        left = others;
    }
    Ok(None)
}
