//! Import resolution for hosts: which definition each import of a module gets, or which import
//! fails first and by which rule.
//!
//! A definition matches exactly where the rules of the core specification hold (3.3, external
//! types), with equality in place of subtyping. A refused call leaves the linker unchanged.
//!
//! ```
//! let mut linker = Linker::new(alloc);
//! linker.define_exports(&registry, key, "env", &module)?;
//! let numbers = linker.resolve(alloc, &registry, other, &importer)?;
//! let broken = match_entity(&have, &want); // None where it matches
//! ```
//!
//! Names are in an ordered map, so chosen names do not slow it down. A look-up takes steps that
//! grow with the logarithm of how many definitions there are.
//!
//! Read on: `linker`, `rules`, `error`; `type_registry` has the indices, and `plan_link` links two
//! plans.
#![tactic(auto)]

mod definitions;
mod engine_types;
mod error;
mod exports;
mod imports;
mod laws;
mod lines;
mod linker;
mod names;
mod rules;
mod worked;

pub use error::{ImportRefused, LinkError, Mismatch};
pub use laws::{definition_law, function_law, matching_law, named_types_law};
pub use lines::mismatch_line;
pub use linker::Linker;
pub use rules::match_entity;
pub use worked::{worked_imports, worked_memories};
