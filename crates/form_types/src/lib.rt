//! Numbers for the types of a module, for the crates that check and intern them: equal types have
//! one id.
//!
//! Two declared types have one `CoreTypeId` exactly where they are equal by group and position. Ids
//! count distinct types from 0 on, in the order in which they first occur.
//!
//! ```
//! let types = Types::build(alloc, &Validator::new(7), &form)?;
//! let id = types.core_type_at_in_module(0);
//! let group = types.rec_group_id_of(id);
//! let members = types.members(group);
//! ```
//!
//! `Types::build` needs a module that satisfies the listed rules. Groups are found in a hash map,
//! whose seed depends on the bytes of the type section.
//!
//! Read on: `numbering`, `canonical`, `finishing`; `type_spec` defines equality, and `module_types`
//! interns the types.
#![tactic(auto)]

mod below;
mod canonical;
mod codes;
mod continuations;
mod copied;
mod distinct;
mod earlier_types;
mod elements;
mod finding;
mod list_lengths;
mod members;
mod named;
mod numbering;
mod type_list;
mod types;
mod validator;

pub use below::{heap_is_below, names_below, value_is_below};
pub use continuations::is_function;
pub use copied::numbering_of_form;
pub use elements::{CoreTypeIds, RecGroupId};
pub use numbering::Numbering;
pub use types::Types;
pub use validator::{Validator, ValidatorId};
