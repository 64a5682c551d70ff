//! The planner as two calls, for programs: `translate_module` makes a plan of bytes, and `run` also
//! reads and writes.
//!
//! A plan is that of the one module which the bytes spell, by the options. Each refusal has its
//! cause, and valid bytes have a plan, unless memory runs out. docs/THEOREM.md has the contract of
//! `run` in full.
//!
//! ```
//! let plan = translate_module(alloc, &tunables, Collector::Drc, 8, 4096, 1_048_576, bytes)?;
//! let text = plan_text(alloc, &plan)?;
//! // or all at once, over a source and a sink:
//! let status = run(alloc, &words, &mut source, &mut store, &mut sink).into_status();
//! ```
//!
//! Input of 2^30 bytes or more is `TooLarge`. No clause bounds time or memory; docs/MEASURED.md has
//! measurements.
//!
//! Read on: `translating`, `running`, `status`; `module_environ` and `init_plan` do the work.
#![tactic(auto)]

mod answering;
mod initialising;
mod laws;
mod layouts;
mod running;
mod status;
mod translating;
mod worked;

pub use command_words::{Collector, Command, read_words};
pub use devices::{
    CountSink, Failed, ListSink, ListSource, OutOfMemory, Sink, SliceSource, Source,
};
pub use laws::{causes_law, sizes_law};
pub use module_generator::generate;
pub use plan_text::{Plan, TranslateError, plan_text, refusal_line, summary_text};
pub use running::{Report, run};
pub use status::{NO_MEMORY, READ_FAILED, REFUSED, SUCCESS, USAGE, WRITE_FAILED};
pub use translating::{plan_of, translate_module};
pub use wasm_types::Tunables;
pub use worked::worked_plan;
