//! What continuations name (core specification, 3.2, composite types).

ghost use Rattle.std.specs.Prelude.{◌↔◌, map, All, IsTrue};
ghost use Rattle.form_reader.specs.Views.{composite_of, sub_type_of, group_of};
ghost use Rattle.rule_spec.specs.TypeRules.{IsFunction};
ghost use Rattle.form_types.specs.Distinct.{KeepsGroups};
ghost use Rattle.form_types.specs.Types.{types_by_id, NamesFunction, CompositeContinues, ContinuesFunction};

use crate::distinct::Distinct;
use form_reader::{CompositeInnerType, SubType};
use wasm_spec::UnpackedIndex;

/// Whether a composite type is a function type.
pub fn is_function(kind: &CompositeInnerType) -> bool
    ensures { IsTrue result ↔ IsFunction (composite_of kind.now) }
{
    match kind {
        CompositeInnerType::Func(_) => true,
        CompositeInnerType::Array(_)
        | CompositeInnerType::Struct(_)
        | CompositeInnerType::Cont(_) => false,
    }
}

/// Whether an id is that of a function type.
fn names_function(distinct: &Distinct, index: &UnpackedIndex) -> bool
    requires { KeepsGroups distinct.now (map group_of distinct.now.groups.items) }
    ensures { IsTrue result ↔ NamesFunction (types_by_id (map group_of distinct.now.groups.items)) index.now }
{
    match index {
        UnpackedIndex::Id(id) => {
            (id.0 as usize) < distinct.numbers.len()
                && is_function(&distinct.type_of(*id).composite)
        }
        UnpackedIndex::Module(_) | UnpackedIndex::RecGroup(_) => false,
    }
}

fn continues_function(distinct: &Distinct, kind: &CompositeInnerType) -> bool
    requires { KeepsGroups distinct.now (map group_of distinct.now.groups.items) }
    ensures { IsTrue result ↔ CompositeContinues (types_by_id (map group_of distinct.now.groups.items)) (composite_of kind.now) }
{
    match kind {
        CompositeInnerType::Cont(function) => names_function(distinct, function),
        CompositeInnerType::Func(_)
        | CompositeInnerType::Array(_)
        | CompositeInnerType::Struct(_) => true,
    }
}

fn members_continue(distinct: &Distinct, types: &[SubType]) -> bool
    requires { KeepsGroups distinct.now (map group_of distinct.now.groups.items) }
    ensures { IsTrue result ↔ All (ContinuesFunction (types_by_id (map group_of distinct.now.groups.items))) (map sub_type_of types.now) }
{
    types
        .iter()
        .all(|ty| continues_function(distinct, &ty.composite))
}

/// Whether each continuation names a function type, of types that are named by ids.
pub fn continuations_hold(distinct: &Distinct) -> bool
    requires { KeepsGroups distinct.now (map group_of distinct.now.groups.items) }
    ensures { IsTrue result
        ↔ All (ContinuesFunction (types_by_id (map group_of distinct.now.groups.items))) (types_by_id (map group_of distinct.now.groups.items)) }
{
    distinct
        .groups
        .iter()
        .all(|group| members_continue(distinct, &group.types))
}
