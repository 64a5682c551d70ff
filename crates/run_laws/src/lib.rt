//! Laws of running a plan, for readers who rely on `translate` and `plan_run` together.
//!
//! Every plan of `translate_module` may be run, and leaves what the module's initialisers give.
//! Options change the cost of a plan, but never what it leaves. `costs_law` bounds images and
//! segments by the module's bytes and the options.
//!
//! ```
//! translated_is_finished(); // no code: the clauses are the theorem
//! laid_law();
//! options_law();
//! costs_law();
//! ```
//!
//! Nothing here does work at run time: each function is the proof of its clauses.
//!
//! Read on: `laws`; `instance_laws` has the same for instances, `plan_laws` for plans and refusals.
#![tactic(auto)]

mod laws;
mod worked;

pub use laws::{costs_law, fields_law, laid_law, options_law, translated_is_finished};
pub use worked::worked_valid;
