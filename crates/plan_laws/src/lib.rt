//! Laws of plans and refusals, for readers who rely on reproducible answers of `translate`, and on
//! a bound of their length.
//!
//! Two plans of the same bytes with the same options have one text and are the same. Bytes are
//! refused for one cause, except for the pairs that `MayBothStand` names, where memory does not run
//! out. The text of a plan is at most as long as what the plan lists. That is linear in the bytes
//! of the module, except for the cells of table images.
//!
//! ```
//! determined_law(&plan, &other); // no code: the clauses are the theorem
//! runs_law(&words, &plan, &other);
//! refusals_law();
//! text_law(&plan); // length (text_of_plan plan) ≤ most_text plan
//! text_bound_law(&plan); // lines_of plan ≤ 28 + 7 * length bytes, and so on
//! ```
//!
//! Each function is the proof of its clauses, and changes nothing when it is run.
//!
//! Read on: `laws`, `text_costs`, `text_bounds`; `translate` has the calls, `run_laws` what plans
//! leave.
#![tactic(auto)]

mod entity_bytes;
mod kept;
mod laws;
mod memory_bytes;
mod operator_bytes;
mod table_bytes;
mod text_bounds;
mod text_costs;
mod type_bytes;
mod type_list_bytes;
mod worked;

pub use laws::{determined_law, refusals_law, runs_law};
pub use text_bounds::text_bound_law;
pub use text_costs::text_law;
pub use worked::{worked_text_bounds, worked_text_costs};
