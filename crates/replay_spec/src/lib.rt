//! What instantiation leaves in globals, memories and tables, as definitions with laws, for the
//! contracts of the planner.
//!
//! A phase has the pieces that segments write, in order. `content_of` is what they leave at a
//! position, and `trap_of` is where they trap. The laws prove that planned images and segments
//! leave the same contents, and trap at the same piece.
//!
//! ```
//! // clauses of `worked_values`:
//! // offset_of (op.I32Const (pos 16) ∷ []) ≡ 16
//! // const_value (op.I32Const (pos 10) ∷ op.I32Const (pos 6) ∷ op.I32Sub ∷ []) ≡ Some (I32 4)
//! ```
//!
//! The definitions are over plain records of numbers and lists. Nothing here runs: each function is
//! the proof of its clauses.
//!
//! Read on: `specs/Values.antt`, `specs/Phases.antt`, `specs/Images.antt`, `specs/Tables.antt`;
//! `init_plan` makes the plans.
#![tactic(auto)]

mod global_laws;
mod image_laws;
mod laws;
mod startup_laws;
mod table_laws;
mod worked;
mod worked_images;
mod worked_tables;

pub use global_laws::global_plan_law;
pub use image_laws::{memory_image_laws, memory_plan_exists_laws, memory_plan_laws};
pub use laws::{
    any_null_law, constant_value_law, held_phase_laws, module_value_laws, typed_value_law,
};
pub use startup_laws::startup_law;
pub use table_laws::{table_plan_exists_law, table_plan_law, taken_law};
pub use worked::{
    worked_constants, worked_phases, worked_ranges, worked_references, worked_values,
};
pub use worked_images::{worked_memory_images, worked_memory_plan};
pub use worked_tables::{
    worked_element_phases, worked_globals, worked_startup, worked_table_images,
};
