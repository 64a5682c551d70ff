//! Types as data, their equality, and the interned list of a module, as definitions with laws: for
//! readers of contracts, and for crates that convert, compare or trace types.
//!
//! The data itself is `wasm_spec/specs/TypeData.antt`. A group is determined by its frame and its
//! edges, which are its references in order; two replacements of references in turn are one.
//! `SameType` is iso-recursive equality, within a list of groups and across lists;
//! `equivalence_law` proves that it is an equivalence. `interned` is the list that a module of
//! these groups and tags has, with trampolines.
//!
//! ```
//! // proved by `edges_law`:
//! // group_edges index' (map_group h f x) ≡ map f (group_edges index x)
//! // proved by `decided_law`:
//! // (same_type ms ns i j ≡ true) ↔ SameType ms ns i j
//! // a clause of `worked_repeated`:
//! // (interned repeated [] false).trampolines ≡ Some 0 ∷ Some 0 ∷ []
//! ```
//!
//! Nothing here runs: each function is the proof of its clauses.
//!
//! Read on: `data_laws`; `specs/Equality.antt`, `specs/Interned.antt`. `form_types` decides
//! equality, and `module_types` makes the list.
#![tactic(auto)]

mod data_laws;
mod laws;
mod worked;
mod worked_data;

pub use data_laws::{alike_law, determined_law, edges_law, map_laws};
pub use laws::{canonical_law, decided_law, equivalence_law};
pub use worked::{
    worked_as_called, worked_equality, worked_exceptions, worked_hollow, worked_repeated,
    worked_taken, worked_trampoline,
};
pub use worked_data::{worked_edges, worked_maps};
