//! The declared types of a module, looked up in the list of its types.

ghost use Rattle.std.specs.Prelude.{◌≡◌, [], length, slice_get};
ghost use Rattle.std.specs.Option.{option_map};
ghost use Rattle.wasm_spec.specs.Module.{groups};
ghost use Rattle.rule_spec.specs.Lists.{declared_groups};
ghost use Rattle.form_reader.specs.Views.{composite_of};
ghost use Rattle.form_types.specs.Numbered.{AreNumbered};
ghost use Rattle.form_rules.specs.Source.{source_module};
ghost use Rattle.form_rules.specs.Unnamed.{unnamed};

use crate::source::ModuleSource;
use form_reader::CompositeInnerType;
use form_types::Types;
use std::marker::Model;

/// The declared types of a module that was read, or none.
#[derive(Drop)]
pub struct DeclaredTypes<'f, 'd> {
    numbered: Option<(&'f Types, ModuleSource<'f, 'd>)>,
}

impl<'f, 'd> Model for DeclaredTypes<'f, 'd> {
    ghost use Rattle.std.specs.Prelude.{List, [], IfSome};
    ghost use Rattle.std.specs.Option.{option_map, unwrap_or};
    ghost use Rattle.wasm_spec.specs.Module.{groups};
    ghost use Rattle.rule_spec.specs.Lists.{Declared, declared_groups};
    ghost use Rattle.form_types.specs.Numbered.{AreNumbered};
    ghost use Rattle.form_rules.specs.Source.{source_module};

    ghost Value = { List Declared };

    ghost view = { λ d. unwrap_or (option_map (λ n. declared_groups 0 (groups (source_module n.1))) d.numbered) [] };

    ghost invariant = { λ d. IfSome d.numbered (λ n. AreNumbered (source_module n.1) n.0.now) };
}

impl<'f, 'd> DeclaredTypes<'f, 'd> {
    /// The types that a module declares, in order. `types` has their ids, as `Types::build` gives
    /// them for the same module.
    pub fn new(types: &'f Types, source: ModuleSource<'f, 'd>) -> DeclaredTypes<'f, 'd>
        requires { AreNumbered (source_module source) types.now }
        ensures { result ≡ declared_groups 0 (groups (source_module source.entry)) }
    {
        DeclaredTypes {
            numbered: Some((types, source)),
        }
    }

    /// No types.
    pub fn none() -> DeclaredTypes<'f, 'd>
        ensures { result ≡ [] }
    {
        DeclaredTypes { numbered: None }
    }

    /// How many types are declared.
    pub fn count(&self) -> u32
        ensures { result ≡ length self.now }
    {
        match self.numbered {
            Some((types, _)) => types.core_type_count_in_module(),
            None => 0,
        }
    }

    /// The kind of the declared type that has this index, in which references may have other names.
    pub fn kind_at(&self, index: u32) -> Option<&'f CompositeInnerType>
        ensures { option_map (λ k. unnamed (composite_of k.now)) result
            ≡ option_map unnamed (option_map (λ d. d.type.composite.inner) (slice_get self.now index)) }
    {
        match self.numbered {
            Some((types, _)) => {
                if index >= types.core_type_count_in_module() {
                    return None;
                }
                let id = types.core_type_at_in_module(index);
                Some(&types[id].composite)
            }
            None => None,
        }
    }
}
