//! The entry of a module that is the first to break a listed rule, for messages about modules that
//! were refused.
//!
//! `check` of `form_rules` names the rule; `locate_break` names the list and the entry. It returns
//! `None` exactly where the module satisfies the rule. Otherwise no list of the rule before this
//! one has an entry that breaks it, and no entry of this list before this one does.
//!
//! ```
//! if let Err(CheckError::Invalid(rule)) = check(alloc, &form) {
//!     let place = locate_break(alloc, &form, rule)?;
//!     // such as `Break { list: ModuleList::Memories, entry: 1 }`
//! }
//! ```
//!
//! `fault_of_break` says what is wrong with that entry, with the numbers that were found. It prints as
//! a sentence, as `the maximum 1 is below the minimum 2`.
//!
//! `locate_broken_rule` takes bytes, and says where in them the entry begins, and what is wrong with
//! it: `section_entry` is the entry of a section that has the entry of the list, and `byte` its
//! offset. Of an index space, the imports come first, so an entry of it is one of the import
//! section, or of the section that defines the others. A type is in a recursion group, which is the
//! entry of the type section.
//!
//! ```
//! if let Some(broken) = locate_broken_rule(alloc, bytes)? {
//!     println!(rt; "byte {}: {broken}", broken.byte)?;
//!     // byte 19: memory section, entry 0: the maximum 1 is below the minimum 2
//! }
//! ```
//!
//! `list_entry_place` says the same of any entry of a list, whether a rule is broken or not.
//!
//! Types are numbered and lists gathered again, and the lists of one rule searched once. Modules
//! that are accepted are not searched.
//!
//! Read on: `forms`, `breaks`, then the file of each rule, such as `limits`; `specs/Breaks.antt`
//! says which entry is the first, `specs/SectionEntries.antt` which entry of a section has it, and
//! `specs/Faults.antt` what is wrong with it.
#![tactic(auto)]

mod breaks;
mod counts;
mod declared;
mod elements;
mod entries;
mod exports;
mod expressions;
mod fault;
mod fault_examples;
mod fault_text;
mod faults;
mod faults_entries;
mod faults_segments;
mod faults_spaces;
mod faults_types;
mod finding;
mod forms;
mod globals;
mod indices;
mod limits;
mod list_places;
mod lists;
mod named;
mod numbers;
mod references;
mod refused;
mod section_entries;
mod segments;
mod types;
mod worked;

pub use breaks::first_break;
pub use declared::first_bad_type;
pub use fault::{ExpressionPlace, IndexSpace, RuleFault};
pub use fault_examples::worked_faults;
pub use faults::{fault_of_break, rule_fault};
pub use forms::locate_break;
pub use list_places::{EntryPlace, list_entry_place};
pub use lists::{Break, ModuleList};
pub use refused::{BrokenRule, locate_broken_rule};
pub use worked::{worked_breaks, worked_section_entries};
