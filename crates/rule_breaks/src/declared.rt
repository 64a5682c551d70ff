//! The first break of rule L1, type indices inside the type section.

ghost use Rattle.std.specs.Prelude.{◌≡◌, ◌↔◌, ◌+◌, ◌++◌, length, map, IsTrue, IfOk, OnOk};
ghost use Rattle.wasm_spec.specs.Module.{groups};
ghost use Rattle.rule_spec.specs.Lists.{declared_from, lists_of_module};
ghost use Rattle.rule_spec.specs.TypeRules.{IsDeclaredWell};
ghost use Rattle.form_reader.specs.Views.{composite_of, sub_type_of};
ghost use Rattle.form_rules.specs.Source.{source_module};
ghost use Rattle.rule_breaks.specs.Search.{Finds};
ghost use Rattle.rule_breaks.specs.TypeFlags.{function_flags, is_function as is_function_type, IsFlagged, ContinuesFlagged, IsWell};

use crate::numbers::{next_number, numbered};
use form_reader::{CompositeInnerType, RecGroup, SubType};
use form_rules::{ModuleSource, walk_of};
use form_types::{is_function, names_below};
use std::alloc::{AllocError, Global};
use wasm_spec::UnpackedIndex;

/// The index of the first declared type that names a type past its group, has a supertype that is
/// not before it, or is a continuation of no function type; none where the module satisfies L1.
///
/// # Errors
/// `AllocError` where a group finds no memory.
pub fn first_bad_type(
    alloc: Global,
    source: ModuleSource<'_, '_>,
) -> Result<Option<u32>, AllocError>
    ensures { let l = lists_of_module (source_module source.entry) in IfOk result (Finds (IsDeclaredWell l) l.types) }
{
    let functions = functions_in(alloc, source)?;
    let flags = functions.as_slice();
    let mut number: u32 = 0;
    let mut groups = walk_of::<RecGroup>(alloc, source);
    while groups.advance()? {
        let types = groups.entry().types.as_slice();
        if let Some(place) = first_bad_member(flags, number, types)? {
            return Ok(Some(numbered(number as usize + place as usize)?));
        }
        number = numbered(number as usize + types.len())?;
    }
    Ok(None)
}

/// The first member of a group that does not keep the rule, where the first member has the index
/// `start`.
fn first_bad_member(
    functions: &[bool],
    start: u32,
    types: &[SubType],
) -> Result<Option<u32>, AllocError>
    ensures { IfOk result (Finds (IsWell functions.now)
        (declared_from (start + length types.now) start (map sub_type_of types.now))) }
{
    let end = start as usize + types.len();
    let mut number: u32 = 0;
    let mut left = types;
    while let Some((first, others)) = left.split_first() {
        if !is_well(functions, end, start as usize + number as usize, first) {
            return Ok(Some(number));
        }
        number = next_number(number)?;
        left = others;
    }
    Ok(None)
}

/// Of each declared type, whether it is a function type.
pub(crate) fn functions_in(
    alloc: Global,
    source: ModuleSource<'_, '_>,
) -> Result<Vec<bool>, AllocError>
    ensures { IfOk result (λ flags. flags.items ≡ function_flags (groups (source_module source.entry))) }
{
    let mut flags = Vec::new(alloc);
    let mut groups = walk_of::<RecGroup>(alloc, source);
    while groups.advance()? {
        add_flags(&mut flags, groups.entry().types.as_slice())?;
    }
    Ok(flags)
}

fn add_flags(flags: &mut Vec<bool>, types: &[SubType]) -> Result<(), AllocError>
    ensures { OnOk result (flags.new.items
        ≡ flags.old.items ++ map (λ t. is_function_type t.composite.inner) (map sub_type_of types.now)) }
{
    for ty in types {
        flags.push(flag_of(ty))?;
    }
    Ok(())
}

fn flag_of(ty: &SubType) -> bool
    ensures { result ≡ is_function_type (composite_of ty.now.composite) }
{
    is_function(&ty.composite)
}

/// Whether a type keeps the rule, where `functions` says which types are function types.
fn is_well(functions: &[bool], end: usize, index: usize, ty: &SubType) -> bool
    ensures { IsTrue result ↔ IsWell functions.now (record { type = sub_type_of ty.now; index = index; group_end = end }) }
{
    names_below(end, index, ty) && continues_function(functions, &ty.composite)
}

fn continues_function(functions: &[bool], kind: &CompositeInnerType) -> bool
    ensures { IsTrue result ↔ ContinuesFlagged functions.now (composite_of kind.now) }
{
    match kind {
        CompositeInnerType::Cont(function) => is_flagged(functions, function),
        CompositeInnerType::Func(_)
        | CompositeInnerType::Array(_)
        | CompositeInnerType::Struct(_) => true,
    }
}

fn is_flagged(functions: &[bool], index: &UnpackedIndex) -> bool
    ensures { IsTrue result ↔ IsFlagged functions.now index.now }
{
    match index {
        UnpackedIndex::Module(index) => match functions.get(*index as usize) {
            Some(is_function) => *is_function,
            None => false,
        },
        UnpackedIndex::RecGroup(_) | UnpackedIndex::Id(_) => false,
    }
}
