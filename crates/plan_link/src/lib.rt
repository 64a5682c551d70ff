//! Links of plans, for `planner_c`: what each import of one module gets from the exports of another,
//! and of whole programs.
//!
//! Each import has its own answer: the number of an export, `Missing`, or the first rule that the
//! export breaks. All imports are `Given` exactly where a linker resolves them, to the same
//! numbers.
//!
//! ```
//! let answers = link_plans(alloc, &exporter, "env", &importer)?;
//! if let Some(ImportAnswer::Mismatch(rule)) = answers.first() {
//!     let line = mismatch_line(*rule); // the first rule that the export breaks
//! }
//! ```
//!
//! A call registers the types of both modules in a registry of its own, and drops it. The only
//! error is `OutOfMemory`.
//!
//! `link_program` links any number of modules in order: the imports of each are answered by the
//! exports of those before it. It also gives the registry's index of each type.
//!
//! Read on: `linking`, `program`, `answer`, `laws`; `import_match` has linkers that live longer.
#![tactic(auto)]

mod answer;
mod answering;
mod laws;
mod linking;
mod program;
mod program_error;
mod program_links;
mod program_types;
mod registering;

pub use answer::ImportAnswer;
pub use import_match::mismatch_line;
pub use laws::{given_law, planned_can_link, translated_can_link};
pub use linking::link_plans;
pub use program::{LinkedModule, ProgramModule, link_program};
pub use program_error::ProgramError;
