//! Images of tables for `init_plan`: which element segments become first cells, and which are kept.
//!
//! `plan_tables` returns images and leaves segments exactly as `IsTablePlan` of `replay_spec` says.
//! The longest prefix of segments that the rule allows goes into images, and no other segment
//! changes.
//!
//! ```
//! // true: images are wanted; 0: no table is imported
//! let images = plan_tables(alloc, true, 0, &tables, &mut initialization)?;
//! let cells = images.get(DefinedTableIndex::new(0));
//! ```
//!
//! An image has at most 1,048,576 cells of four bytes, whatever the table's size. So a table of a
//! few bytes in a module can cost 4 MiB.
//!
//! Read on: `plan`, `spot`, `cells`; `replay_spec/specs/Tables.antt` has the rule.
#![tactic(auto)]

mod cells;
mod first;
mod lay;
mod plan;
mod spot;

pub use plan::plan_tables;
