//! The declared types of a module, interned, for `module_sections` and `module_environ`.
//!
//! `intern_types` gives the interned index of each declared type, `declared_types` what each is
//! named by, and `convert_tags` the tags with their exception types. The builder then holds the
//! defined list of types. Where memory runs out it is poisoned, or it holds the first of them.
//!
//! ```
//! let indices = intern_types(alloc, &types, &mut builder)?;
//! let declared = declared_types(alloc, &builder, &indices)?;
//! let heap = declared.lookup_heap_type(UnpackedIndex::Module(0));
//! let tags = convert_tags(alloc, &[0], &indices, &mut builder)?;
//! ```
//!
//! Each result is one list, with one entry for each declared type or tag.
//!
//! Read on: `types`, `declared`, `tags`; `specs/Types.antt` has the definitions, and `module_types`
//! the builder.
#![tactic(auto)]

mod declared;
mod tags;
mod type_laws;
mod types;

pub use declared::{DeclaredHeapTypes, declared_types, named_heap_type, named_index};
pub use tags::convert_tags;
pub use type_laws::declared_kind_law;
pub use types::intern_types;
