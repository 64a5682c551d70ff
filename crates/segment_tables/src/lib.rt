//! The segments of a module as tables, and the functions that its bodies may refer to, for
//! `planner_c`.
//!
//! A plan has images and the segments that remain. These tables have each data and element segment
//! as it stands in the module. No rule is checked.
//!
//! ```
//! let segments = module_segments(alloc, bytes)?;
//! for row in segments.element_segments {
//!     let functions = row.functions; // a part of segments.functions
//! }
//! let may_name = segments.references; // of `ref.func` in a body
//! ```
//!
//! Rows and operators are those of `plan_tables`, but a type is named by the type section. Tables
//! are copies in memory that the caller frees; the bytes of data segments stay in the module.
//!
//! Read on: `segment_rows` has the record, `tables` the calls; `specs/References.antt` what bodies
//! may name.
#![tactic(auto)]

mod data_segments;
mod elements;
mod expressions;
mod operators;
mod references;
mod segment_rows;
mod tables;
mod worked;

pub use segment_rows::{DataSegmentRow, ElementSegmentRow, SegmentsRecord};
pub use tables::{module_segments, segment_tables};
pub use worked::{worked_references, worked_rows, worked_tables};
