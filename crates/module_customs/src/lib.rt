//! Names, branch hints and signs of debug information of a module, for `module_environ`.
//!
//! `kept_names` and `kept_hints` return what the custom sections give, in the order of the file. A
//! fault in such a section ends its names, or drops its hints. No fault refuses a module.
//!
//! ```
//! let source = ModuleSource::Form(&form);
//! let names = kept_names(alloc, source, true)?; // true: also names of locals
//! let hints = kept_hints(alloc, source)?;
//! let debug = has_debug_section(source);
//! ```
//!
//! Names remain slices of the input. The only error is `OutOfMemory`.
//!
//! Read on: `names`, `hints`, `debug`; `custom_sections` reads the contents of a section.
#![tactic(auto)]

mod debug;
mod hints;
mod names;
mod worked;

pub use debug::has_debug_section;
pub use hints::kept_hints;
pub use names::kept_names;
pub use worked::{worked_hints, worked_kept, worked_names};
