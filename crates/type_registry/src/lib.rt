//! Type indices of an engine, for hosts that link modules: equal types of held modules have one
//! index.
//!
//! `register` gives each new group the least free indices, and `release` frees those that no other
//! module has. A refused call leaves the registry unchanged, and no index changes while its module
//! is held.
//!
//! ```
//! let mut registry = TypeRegistry::new(alloc, 1_000_000);
//! let key = registry.register(&types)?;
//! let index = registry.index_of(key, ModuleInternedTypeIndex::new(0));
//! let equal = registry.same(key, i, other, j);
//! registry.release(key)?;
//! ```
//!
//! `release` needs no memory. `docs/MEASURED.md` has the time of a registration.
//!
//! Read on: `registry`, `groups`, `planning`; `import_match` links by these indices.
#![tactic(auto)]

mod error;
mod fresh;
mod groups;
mod hashing;
mod kept;
mod key;
mod known;
mod laws;
mod owners;
mod plan;
mod planning;
mod registry;
mod room;

pub use error::RegistryError;
pub use key::ModuleKey;
pub use laws::{balanced_law, listed_law, order_law, registered_law, same_law, sound_law};
pub use registry::TypeRegistry;
