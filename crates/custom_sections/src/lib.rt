//! The contents of name sections and of branch hints, for `module_customs`.
//!
//! `read_names` returns the names before the first fault of the section. `read_hints` returns all
//! hints, or `None` where the contents are no such section. Laws prove that what the grammars spell
//! is read completely, and which names a section with a fault tells.
//!
//! ```
//! let names = read_names(alloc, contents, true)?; // true: also names of locals
//! let module_name = names.module_name;
//! let hints = read_hints(alloc, other)?; // None where a byte is wrong
//! let debug = is_debug_name(".debug_info"); // true
//! ```
//!
//! Names are slices of the input. Lists grow as entries are read, so a large count alone allocates
//! nothing.
//!
//! Read on: `names`, `hints`, `debug`, and `name_parts`, which `name_maps` reads by too;
//! `module_customs` chooses the sections.
#![tactic(auto)]

mod debug;
mod hints;
mod laws;
mod name_parts;
mod names;
mod worked;

pub use debug::is_debug_name;
pub use hints::{Hint, read_hints};
pub use laws::{spelled_hints_are_read, spelled_names_are_read, told_names_are_read};
pub use name_parts::{is_filled, naming, sized_subsection, whole_name};
pub use names::{SectionNames, read_names};
pub use worked::{worked_cut_names, worked_debug_names, worked_hints, worked_names};
