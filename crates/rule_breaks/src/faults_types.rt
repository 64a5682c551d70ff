//! What is wrong with a declared type that breaks rule L1.

ghost use Rattle.std.specs.Prelude.{◌≡◌, IfOk, option_to_list, slice_get};
ghost use Rattle.std.specs.Option.{option_map};
ghost use Rattle.rule_spec.specs.Lists.{lists_of_module};
ghost use Rattle.rule_spec.specs.TypeRules.{IsBelow, IsDeclaredWell};
ghost use Rattle.form_reader.specs.Views.{composite_of, sub_type_of};
ghost use Rattle.form_rules.specs.Source.{source_module};
ghost use Rattle.rule_breaks.specs.TypeFlags.{IsFlagged, ContinuesFlagged, IsWell};
ghost use Rattle.rule_breaks.specs.Faults.{At, IsDeclaredFault};
ghost use Rattle.rule_breaks.specs.Past.{FindsPast, IsNoEarlier, IsContinuationFault, IsKindFault, IsMemberFault};

use crate::declared::functions_in;
use crate::fault::{IndexSpace, RuleFault};
use crate::named::{index_past, kind_past};
use form_reader::{CompositeInnerType, RecGroup, SubType};
use form_rules::{ModuleSource, walk_of};
use std::alloc::{AllocError, Global};
use wasm_spec::UnpackedIndex;

/// What is wrong with the declared type that has this index.
pub(crate) fn fault_of_type(
    alloc: Global,
    source: ModuleSource<'_, '_>,
    entry: u32,
) -> Result<RuleFault, AllocError>
    requires { let l = lists_of_module (source_module source) in At l.types entry (λ d. ¬ IsDeclaredWell l d) }
    ensures { let l = lists_of_module (source_module source.entry) in IfOk result (λ fault. At l.types entry (λ d. IsDeclaredFault l d fault)) }
{
    let functions = functions_in(alloc, source)?;
    let mut start: usize = 0;
    let mut groups = walk_of::<RecGroup>(alloc, source);
    while groups.advance()? {
        let types = groups.entry().types.as_slice();
        let place = entry as usize - start;
        if let Some(ty) = member_at(types, place) {
            let end = start + types.len();
            return Ok(member_fault(&functions, end, entry as usize, ty));
        }
        start += types.len();
    }
    unreachable!()
}

fn member_at<'a>(types: &'a [SubType], place: usize) -> Option<&'a SubType>
    ensures { option_map (λ ty. ty.now) result ≡ slice_get types.now place }
{
    types.get(place)
}

/// What is wrong with a type that has this index, in a group that ends there. `functions` says which
/// types are function types.
fn member_fault(functions: &[bool], end: usize, index: usize, ty: &SubType) -> RuleFault
    requires { ¬ IsWell functions.now (record { type = sub_type_of ty.now; index = index; group_end = end }) }
    ensures { IsMemberFault functions.now (record { type = sub_type_of ty.now; index = index; group_end = end }) result }
{
    if let Some(named) = kind_past(end, &ty.composite) {
        return no_earlier_type(end, named);
    }
    if let Some(supertype) = supertype_past(index, ty) {
        return no_earlier_type(index, supertype);
    }
    continuation_fault(functions, &ty.composite)
}

/// The supertype where it is not below a bound.
fn supertype_past(bound: usize, ty: &SubType) -> Option<UnpackedIndex>
    ensures { FindsPast bound (option_to_list ty.now.supertype) result }
{
    match &ty.supertype {
        Some(index) => index_past(bound, index),
        None => None,
    }
}

/// The fault of an index that is not below a bound.
fn no_earlier_type(bound: usize, index: UnpackedIndex) -> RuleFault
    requires { ¬ IsBelow bound index }
    ensures { IsNoEarlier bound index result }
{
    match index {
        UnpackedIndex::Module(index) => RuleFault::NoEarlierType {
            index,
            bound: bound as u64,
        },
        UnpackedIndex::RecGroup(_) | UnpackedIndex::Id(_) => RuleFault::ForeignIndex,
    }
}

/// What a continuation names in place of a function type.
fn continuation_fault(functions: &[bool], kind: &CompositeInnerType) -> RuleFault
    requires { ¬ ContinuesFlagged functions.now (composite_of kind.now) }
    ensures { IsKindFault functions.now (composite_of kind.now) result }
{
    match kind {
        CompositeInnerType::Cont(function) => function_fault(functions, function),
        CompositeInnerType::Func(_)
        | CompositeInnerType::Array(_)
        | CompositeInnerType::Struct(_) => unreachable!(),
    }
}

/// Why an index is not that of a function type.
fn function_fault(functions: &[bool], index: &UnpackedIndex) -> RuleFault
    requires { ¬ IsFlagged functions.now index.now }
    ensures { IsContinuationFault functions.now index.now result }
{
    match index {
        UnpackedIndex::Module(index) => {
            if (*index as usize) < functions.len() {
                return RuleFault::NotAFunctionType(*index);
            }
            RuleFault::NoSuchEntry {
                space: IndexSpace::Types,
                index: *index,
                count: functions.len() as u64,
            }
        }
        UnpackedIndex::RecGroup(_) | UnpackedIndex::Id(_) => RuleFault::ForeignIndex,
    }
}
