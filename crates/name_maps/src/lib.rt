//! The names of all that a module names, from its name sections.
//!
//! `name_maps` returns the entries of all name maps and indirect name maps, in the order of the
//! bytes: of the module, functions, locals, labels, types, tables, memories, globals, segments,
//! fields and tags. What a section with a fault tells are the entries before the fault.
//!
//! ```
//! for entry in &name_maps(alloc, bytes)? {
//!     if entry.subsection == GLOBALS {
//!         println!(rt; "global {}: {}", entry.index, entry.name)?;
//!     }
//! }
//! ```
//!
//! The bytes need not spell a module: the sections are those that `refusal_place::section_places`
//! lists. Names are slices of the input. The list grows as entries are read, so a large count alone
//! allocates nothing.
//!
//! Read on: `entry` has the record and the numbers of subsections, `name_sections` the call;
//! `custom_sections` reads the names that a plan needs.
#![tactic(auto)]

mod entry;
mod maps;
mod name_sections;
mod subsections;
mod worked;

pub use entry::{
    DATA_SEGMENTS, ELEMENT_SEGMENTS, FIELDS, FUNCTIONS, GLOBALS, LABELS, LOCALS, MEMORIES, MODULE,
    NameEntry, TABLES, TAGS, TYPES,
};
pub use name_sections::name_maps;
pub use worked::worked_name_maps;
