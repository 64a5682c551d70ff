//! The translation of a module, for the planner: bytes in, a checked record with interned types
//! out.
//!
//! A translation is that of the one module which the bytes spell, and this module satisfies the
//! listed rules. Each error has its cause, and a module that satisfies the rules is translated,
//! unless memory runs out.
//!
//! ```
//! let mut types = ModuleTypesBuilder::new(alloc, &validator);
//! let index = StaticModuleIndex::new(0);
//! let environment = ModuleEnvironment::new(alloc, &tunables, &validator, &mut types, index)?;
//! let translation = environment.translate(alloc, bytes)?;
//! let functions = translation.module.functions.len();
//! ```
//!
//! After an error that is not `OutOfMemory` the builder is unchanged. Bodies and data remain slices
//! of the input.
//!
//! Read on: `translating`, then `module_sections` and `interned_types`, which it calls.
//! docs/ARCHITECTURE.md names the steps, and `init_plan` has the next one.
#![tactic(auto)]

mod code;
mod customs;
mod environment;
mod error;
mod metadata;
mod translating;
mod types;
mod worked;

pub use environment::ModuleEnvironment;
pub use error::EnvironError;
pub use interned_types::declared_kind_law;
pub use module_sections::{
    escaping_functions_law, escaping_numbers_law, import_position_law, worked_entities,
    worked_escapes,
};
pub use types::intern_types;
pub use worked::worked_functions;
