//! How long the lists of types are.

ghost use Rattle.std.specs.Prelude.{◌↔◌, map, All, IsTrue};
ghost use Rattle.wasm_spec.specs.Sizes.{CompositeHasShortLists, HasShortLists};
ghost use Rattle.form_reader.specs.Views.{composite_of, sub_type_of};

use form_reader::{CompositeInnerType, SubType};

/// Lists that are short have fewer entries, 2^30.
const LONG: usize = 1073741824;

fn is_short(composite: &CompositeInnerType) -> bool
    ensures { IsTrue result ↔ CompositeHasShortLists (composite_of composite.now) }
{
    match composite {
        CompositeInnerType::Func(function) => {
            function.params.len() < LONG && function.results.len() < LONG
        }
        CompositeInnerType::Struct(fields) => fields.len() < LONG,
        CompositeInnerType::Array(_) | CompositeInnerType::Cont(_) => true,
    }
}

/// Whether each list of each type has fewer than 2^30 entries.
pub fn members_are_short(types: &[SubType]) -> bool
    ensures { IsTrue result ↔ All HasShortLists (map sub_type_of types.now) }
{
    types.iter().all(|ty| is_short(&ty.composite))
}
