//! A runner of plans, for tests and for hosts without an engine: what globals, memories and tables
//! hold after instantiation.
//!
//! `lay` gives what the replay of `replay_spec` says, with the first trap of each phase. It needs a
//! finished translation and as many imports as the module has; `is_finished` tests the first.
//!
//! ```
//! let laid = lay(alloc, &plan.translation, &plan.types, Way::Map, imports)?;
//! let byte = laid.memories[0].byte(16);
//! let trapped = laid.memory_trap.is_some();
//! let value = &laid.globals[0];
//! ```
//!
//! `Way::Map` shares the pages of images until they are written, and `Way::Copy` writes every byte.
//! Defined memories and tables above the sizes in `limits` are `TooLarge`.
//!
//! Read on: `whole`, `laid`, `limits`; `run_laws` proves that plans of `translate` may be run.
#![tactic(auto)]

mod elements;
mod evaluation;
mod finished;
mod globals;
mod kinds;
mod laid;
mod laws;
mod limits;
mod memories;
mod nodes;
mod runner;
mod segments;
mod simple;
mod tables;
mod value;
mod worked;

pub use finished::is_finished;
pub use laid::{Imports, Laid, LayError, Way};
pub use laws::agreement_law;
pub use limits::{MOST_BYTES, MOST_CELLS, MOST_PAGES};
pub use paged_memory::PagedMemory;
pub use runner::lay;
pub use value::{Node, Value};
pub use worked::lent_image_is_written_over;
