//! Modules of any size from one number, for measurements and tests of the planner.
//!
//! `generate` returns exactly the bytes that `generated_module` defines: `n` types, `n` functions
//! in a table, and `n` data segments. `n` is from 1 to 100,000.
//!
//! ```
//! let bytes = generate(alloc, 1000)?;
//! ```
//!
//! Time and memory grow with the number of bytes. The only error is `OutOfMemory`.
//!
//! Read on: `specs/Generated.antt` defines the module; `command_words` has the words that call
//! this.
#![tactic(auto)]

mod bytes;
mod generator;
mod sections;
mod worked;

pub use generator::generate;
pub use worked::{worked_module, worked_parts};
