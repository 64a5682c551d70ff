//! The imports of a module.

ghost use Rattle.std.specs.Prelude.{◌≡◌, All, Some, IfSome, slice_get, option_and_then};
ghost use Rattle.std.specs.Iterator.{YieldsFirstBy, item_count};
ghost use Rattle.std.specs.Option.{option_map};
ghost use Rattle.wasm_module.specs.Imports.{IsResolved, import_of, imports_of, lent_import, entity_at, IsFirstImport};
ghost use Rattle.wasm_module.specs.Record.{record_of};

use crate::initializer::Initializer;
use crate::module::Module;
use std::marker::Model;
use wasm_types::{EntityIndex, EntityType};

/// The imports of a module, in order: the name of the module that each is imported from, its own
/// name, and its type.
#[derive(Drop)]
pub struct Imports<'a> {
    module: &'a Module,
    rest: &'a [Initializer],
}

impl<'a> Model for Imports<'a> {
    ghost use Rattle.std.specs.Prelude.{ℕ, List, All};
    ghost use Rattle.wasm_types.specs.declared.entity.EntityType.{EntityType};
    ghost use Rattle.wasm_module.specs.Imports.{IsResolved, imports_of};
    ghost use Rattle.wasm_module.specs.Record.{record_of};

    ghost Value = { List (List ℕ × List ℕ × EntityType) };

    ghost view = { λ it. imports_of (record_of it.module.now) it.rest.now };

    ghost invariant = { λ it. All (IsResolved (record_of it.module.now)) it.rest.now };
}

impl<'a> Iterator for Imports<'a> {
    type Item = (&'a str, &'a str, EntityType);

    ghost next_gives = { YieldsFirstBy lent_import (λ left. left) };

    ghost remaining = { item_count (λ left. left) };

    fn next(&mut self) -> Option<(&'a str, &'a str, EntityType)> {
        let (first, others) = self.rest.split_first()?;
        self.rest = others;
        Some(self.module.resolved(first))
    }
}

impl Module {
    /// The imports, in order. The names of each must be in the pool, and its entity in the module.
    pub fn imports(&self) -> Imports<'_>
        requires { All (IsResolved (record_of self.now)) (record_of self.now).initializers }
        ensures { result ≡ imports_of (record_of self.now) (record_of self.now).initializers }
    {
        Imports {
            module: self,
            rest: self.initializers.as_slice(),
        }
    }

    /// The import at a position: the name of the module that it is imported from, its own name, and
    /// its type. Its names must be in the pool, and its entity in the module.
    pub fn import(&self, i: usize) -> Option<(&str, &str, EntityType)>
        requires { IfSome (slice_get (record_of self.now).initializers i) (IsResolved (record_of self.now)) }
        ensures { option_map lent_import result
            ≡ option_and_then (import_of (record_of self.now)) (slice_get (record_of self.now).initializers i) }
    {
        let initializer = self.initializers.get(i)?;
        Some(self.resolved(initializer))
    }

    // An import, by the texts of its names and the type of its entity.
    fn resolved(&self, initializer: &Initializer) -> (&str, &str, EntityType)
        requires { IsResolved (record_of self.now) initializer.now }
        ensures { import_of (record_of self.now) initializer.now ≡ Some (lent_import result) }
    {
        let Initializer::Import { name, field, index } = initializer;
        (
            self.strings.get(*name),
            self.strings.get(*field),
            self.type_of(*index),
        )
    }

    /// The entity that the import at a position imports.
    pub fn import_index(&self, i: usize) -> Option<EntityIndex>
        ensures { result ≡ entity_at (record_of self.now) i }
    {
        let Initializer::Import { index, .. } = self.initializers.get(i)?;
        Some(*index)
    }

    /// The position of the first import of an entity. It is none exactly where the entity is not
    /// imported or no import names it. For an imported entity this visits the imports up to that
    /// position.
    pub fn import_position(&self, e: EntityIndex) -> Option<usize>
        ensures { IsFirstImport (record_of self.now) e result }
    {
        if !self.is_imported(e) {
            return None;
        }
        self.initializers.iter().position(|initializer| {
            let Initializer::Import { index, .. } = initializer;
            *index == e
        })
    }
}
