//! The first break of rule L4, limits.

ghost use Rattle.std.specs.Prelude.{IfOk};
ghost use Rattle.rule_spec.specs.declared.rules.Rule.{Rule};
ghost use Rattle.rule_spec.specs.Limits.{HasLimits, IsOrdered};
ghost use Rattle.form_rules.specs.Views.{lists_of};
ghost use Rattle.rule_breaks.specs.Search.{Finds};
ghost use Rattle.rule_breaks.specs.Breaks.{Locates};

use crate::lists::{Break, ModuleList, at};
use crate::numbers::next_number;
use entity_map::OutOfMemory;
use form_rules::{Lists, has_limits, is_ordered};
use std::alloc::AllocError;
use wasm_spec::{MemoryType, TableType};

/// The first table or memory whose limits do not hold.
pub(crate) fn break_of_limits(lists: &Lists<'_, '_>) -> Result<Option<Break>, OutOfMemory>
    ensures { IfOk result (Locates Rule.L4 (lists_of lists.now)) }
{
    if let Some(entry) = first_unordered(&lists.spaces.table_types)? {
        return Ok(at(ModuleList::TableTypes, entry));
    }
    match first_without_limits(&lists.spaces.memories)? {
        Some(entry) => Ok(at(ModuleList::Memories, entry)),
        None => Ok(None),
    }
}

/// The first table whose maximum is below the minimum.
fn first_unordered(tables: &[TableType]) -> Result<Option<u32>, AllocError>
    ensures { IfOk result (Finds IsOrdered tables.now) }
{
    let mut number = 0;
    let mut left = tables;
    while let Some((first, others)) = left.split_first() {
        if !is_ordered(first) {
            return Ok(Some(number));
        }
        number = next_number(number)?;
        left = others;
    }
    Ok(None)
}

/// The first memory whose limits or page size do not hold.
fn first_without_limits(memories: &[MemoryType]) -> Result<Option<u32>, AllocError>
    ensures { IfOk result (Finds HasLimits memories.now) }
{
    let mut number = 0;
    let mut left = memories;
    while let Some((first, others)) = left.split_first() {
        if !has_limits(first) {
            return Ok(Some(number));
        }
        number = next_number(number)?;
        left = others;
    }
    Ok(None)
}
