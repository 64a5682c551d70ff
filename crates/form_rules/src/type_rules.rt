//! What names function types (core specification, 3.4, functions and tags).

ghost use Rattle.std.specs.Prelude.{◌↔◌, All, IsTrue, IfOk};
ghost use Rattle.rule_spec.specs.TypeRules.{NamesFunctionType};
ghost use Rattle.rule_spec.specs.Rules.{TypesAreNamed};
ghost use Rattle.form_rules.specs.Views.{lists_of};
ghost use Rattle.form_rules.specs.Known.{AreKnown};

use crate::Lists;
use form_types::is_function;
use std::alloc::{AllocError, Global};

/// Whether each function and each tag has a declared function type.
pub fn types_are_named(alloc: Global, lists: &Lists<'_, '_>) -> Result<bool, AllocError>
    ensures { IfOk result (λ named. IsTrue named ↔ TypesAreNamed (lists_of lists.now)) }
{
    // Many have the same type, which is looked up once.
    let mut known = Vec::from_elem(alloc, false, lists.types.count() as usize)?;
    Ok(
        all_name_function_types(lists, &lists.spaces.functions, &mut known)
            && all_name_function_types(lists, &lists.spaces.tags, &mut known),
    )
}

/// `known` says of each declared type whether it was found to be a function type.
fn all_name_function_types(lists: &Lists<'_, '_>, indices: &[u32], known: &mut [bool]) -> bool
    requires known { AreKnown (lists_of lists.now) known.old }
    ensures known { AreKnown (lists_of lists.now) known.new }
    ensures named { IsTrue result ↔ All (NamesFunctionType (lists_of lists.now)) indices.now }
{
    for index in indices {
        if !names_function_type(lists, *index, known) {
            return false;
        }
    }
    true
}

/// Whether a declared function type has this index.
fn names_function_type(lists: &Lists<'_, '_>, index: u32, known: &mut [bool]) -> bool
    requires known { AreKnown (lists_of lists.now) known.old }
    ensures known { AreKnown (lists_of lists.now) known.new }
    ensures named { IsTrue result ↔ NamesFunctionType (lists_of lists.now) index }
{
    let place = index as usize;
    if let Some(true) = known.get(place) {
        return true;
    }
    let is_function = is_function_at(lists, index);
    if place < known.len() {
        known[place] = is_function;
    }
    is_function
}

/// Whether a declared function type has this index.
pub fn is_function_at(lists: &Lists<'_, '_>, index: u32) -> bool
    ensures { IsTrue result ↔ NamesFunctionType (lists_of lists.now) index }
{
    match lists.kind_at(index) {
        Some(kind) => is_function(kind),
        None => false,
    }
}
