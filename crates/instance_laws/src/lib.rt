//! Laws of instances, for engines that use a plan in place of a module's segments.
//!
//! `instance_law`: to instantiate a plan is to instantiate its module, with the same trap and the
//! same start. Imports may name one object twice. `phase_law`: a phase is what `memory.init` or
//! `table.init` leaves for each segment in turn.
//!
//! ```
//! instance_law(); // no code: the clauses are the theorem
//! phase_law();
//! worked_shared_memory(); // one memory, imported under two names
//! ```
//!
//! Each function is the proof of its clauses, and does nothing when it is run.
//!
//! Read on: `laws`, `worked`; `specs/Running.antt` and `specs/Instances.antt` define instances and
//! traps.
#![tactic(auto)]

mod laws;
mod worked;

pub use laws::{instance_law, phase_law};
pub use worked::{worked_shared_memory, worked_shared_table, worked_traps};
