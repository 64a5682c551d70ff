//! The steps that give a module its imports at instantiation.

use entity_map::Atom;
use wasm_types::EntityIndex;

/// A step of instantiation.
#[derive(Drop)]
pub enum Initializer {
    /// An import (core specification, 2.5, imports).
    Import {
        /// The name of the module that it is imported from.
        name: Atom,
        /// Its own name there.
        field: Atom,
        /// The entity that it imports.
        index: EntityIndex,
    },
}
