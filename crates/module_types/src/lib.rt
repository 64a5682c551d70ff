//! The interned types of a module, for the translation: each group once, with the trampolines of
//! its functions.
//!
//! Each growing call follows the definition of the interned list. After an error the builder is
//! poisoned, and later growing calls return `Poisoned`. Two declared types have one interned index
//! exactly where they are equal.
//!
//! ```
//! let mut builder = ModuleTypesBuilder::new(alloc, &validator);
//! let index = builder.intern_type(&types, id)?;
//! let exception = builder.define_exception_type_for_tag(index)?;
//! let list = builder.finish();
//! let ty = list.get(index);
//! ```
//!
//! Interning a group again changes nothing. Trampolines are found by seeded hashes.
//!
//! Read on: `builder`, `interning`, `list`; `type_spec/specs/Interned.antt` has the definition.
#![tactic(auto)]

mod builder;
mod converter;
mod error;
mod group_converter;
mod indices_by_key;
mod interner;
mod interning;
mod iterators;
mod laws;
mod list;
mod mapped;
mod mapped_types;
mod passed;
mod trace;
mod unwrap;

pub use builder::ModuleTypesBuilder;
pub use converter::{TypeLookUp, WasmparserTypeConverter};
pub use error::BuildError;
pub use iterators::{RecGroupElements, RecGroups, TrampolineTypes};
pub use laws::{
    built_groups_law, compared_before_law, compared_groups_law, declared_groups_law, declared_law,
    earlier_law, equal_lists_law, has_trampoline_law, holds_law, next_group_law,
    one_trampoline_law, ranges_law, runs_law, same_type_law, told_by_forms_law, trampolines_law,
    well_named_law,
};
pub use list::{ModuleTypes, TypesMut, WasmTypesIter};
