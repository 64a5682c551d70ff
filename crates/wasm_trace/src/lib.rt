//! Visits of the references in types, for code that renumbers or compares types.
//!
//! A trace visits each edge in a fixed order and stops at the first `Err`. Canonical forms are
//! equal exactly where the types are alike except for references that become equal.
//!
//! ```
//! let mut count = 0u32;
//! func.trace(&mut |edge: EngineOrModuleTypeIndex| -> Result<(), ()> {
//!     count = count.wrapping_add(1);
//!     Ok(())
//! })?;
//! ```
//!
//! A visit needs no memory. After an error of `trace_mut`, the edges that were written keep their
//! new values.
//!
//! Read on: `trace` has the trait, `lists` traces of slices; `type_registry` compares types by
//! canonical forms.
#![tactic(auto)]

mod aggregate;
mod composite;
mod cont;
mod entity;
mod field;
mod func;
mod index;
mod laws;
mod lists;
mod trace;
mod value;
mod worked;

pub use laws::{compared_forms_law, run_laws, run_mut_laws, unchanged_law};
pub use lists::{trace_all, trace_all_mut};
pub use trace::TypeTrace;
pub use worked::{worked_canonical_forms, worked_edges};
