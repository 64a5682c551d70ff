//! The sections of a module as its translation holds them, for `module_environ`.
//!
//! `fill_sections` fills in imports, index spaces, first values of globals and tables, exports, the
//! start function and segments. Each is what its definition makes of the module. Functions that
//! escape are numbered in the order of the first cause.
//!
//! ```
//! let mut translation = ModuleTranslation::new(alloc, StaticModuleIndex::new(0))?;
//! let env = declared_types(alloc, &builder, &indices)?;
//! fill_sections(alloc, false, &env, &lists, names, &indices, &mut translation)?;
//! let exports = translation.module.exports.len();
//! ```
//!
//! Each section is walked once, and data remain slices of the input. The only error is
//! `OutOfMemory`, after which the translation is not used.
//!
//! Read on: `sections`, then the file of each section; `specs/Sections.antt` has the definitions.
#![tactic(auto)]

mod data;
mod element_items;
mod elements;
mod escapes;
mod exports;
mod expressions;
mod first_values;
mod functions;
mod globals;
mod import_laws;
mod imports;
mod laws;
mod offsets;
mod sections;
mod spaces;
mod start;
mod worked;

pub use import_laws::import_position_law;
pub use laws::{escaping_functions_law, escaping_numbers_law};
pub use sections::fill_sections;
pub use worked::{worked_entities, worked_escapes};
