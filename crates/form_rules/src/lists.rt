//! The lists of a module that the rules refer to.

ghost use Rattle.std.specs.Prelude.{◌≡◌, []};
ghost use Rattle.std.specs.Option.{option_map};
ghost use Rattle.form_reader.specs.Views.{composite_of};
ghost use Rattle.rule_spec.specs.Lists.{kind_at};
ghost use Rattle.form_rules.specs.Unnamed.{unnamed};
ghost use Rattle.form_rules.specs.Views.{lists_of};

use crate::declared::DeclaredTypes;
use crate::source::ModuleSource;
use form_reader::CompositeInnerType;
use wasm_spec::{GlobalType, MemoryType, TableType};

/// The index spaces of functions, tables, memories, globals and tags: imports of the kind in order,
/// and then what is defined.
#[derive(Drop)]
pub struct Spaces {
    /// A function by the index of its type.
    pub functions: Vec<u32>,
    pub table_types: Vec<TableType>,
    pub memories: Vec<MemoryType>,
    pub global_types: Vec<GlobalType>,
    /// A tag by the index of its type.
    pub tags: Vec<u32>,
}

/// A module, its types and its index spaces.
#[derive(Drop)]
pub struct Lists<'f, 'd> {
    /// The entries of the sections stay where they are.
    pub source: ModuleSource<'f, 'd>,
    pub types: DeclaredTypes<'f, 'd>,
    pub spaces: Spaces,
    pub imported_functions: usize,
    pub imported_globals: usize,
}

impl<'f, 'd> Lists<'f, 'd> {
    /// The same lists without the types; `source` is the module again, which may be borrowed for
    /// longer than the types are.
    pub fn without_types<'s>(self, source: ModuleSource<'s, 'd>) -> Lists<'s, 'd>
        requires { source ≡ self.source }
        ensures lists { lists_of result ≡ record (lists_of self.entry) { types = [] } }
        ensures of_source { result.source ≡ source.entry }
    {
        Lists {
            source,
            types: DeclaredTypes::none(),
            spaces: self.spaces,
            imported_functions: self.imported_functions,
            imported_globals: self.imported_globals,
        }
    }

    /// The kind of the declared type that has this index, in which references may have other names.
    pub fn kind_at(&self, index: u32) -> Option<&'f CompositeInnerType>
        ensures { option_map (λ k. unnamed (composite_of k.now)) result ≡ option_map unnamed (kind_at (lists_of self.now) index) }
    {
        self.types.kind_at(index)
    }
}
