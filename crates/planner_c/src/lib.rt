//! The planner for C: calls that fill records with a plan, its text, both, the links of two modules
//! or of a program, or why a module is refused and where.
//!
//! Each call returns 0, 1, 2 or 5, and each status has its cause. A record is filled as by
//! `plan_tables`, and a text is that of the program.
//!
//! ```text
//! bobbinazure_options options = bobbinazure_options_init();
//! bobbinazure_plan plan = bobbinazure_plan_init();
//! uint32_t status = bobbinazure_make_plan(bytes, len, &options, &plan); // 0: a plan
//! bobbinazure_plan_free(&plan);
//! ```
//!
//! The caller keeps the module's bytes while it uses a record, and frees the record once.
//! `bobbinazure_make_plan_and_text` plans only once.
//!
//! Read on: `planning`, `linking`, `program_linking`, `options`; `embed/include/bobbinazure.h` is the
//! header, and `embed/README.md` its manual.
#![tactic(auto)]

mod excess;
mod linking;
mod links;
mod memory_calls;
mod names;
mod options;
mod places;
mod planning;
mod program_linking;
mod program_plans;
mod program_tables;
mod programs;
mod refusals;
mod rules;
mod sections;
mod segments;
mod text;
mod version;

pub use excess::{ExcessRecord, bobbinazure_locate_excess};
pub use linking::bobbinazure_link;
pub use links::{ImportAnswerRecord, LinkRecord};
pub use memory_calls::{
    bobbinazure_can_elide_bounds_check, bobbinazure_memory_allows_growth_to,
    bobbinazure_memory_may_move,
};
pub use names::{NameEntryRow, NameMapsRecord, bobbinazure_names};
pub use options::PlanOptions;
pub use places::{PlaceRecord, bobbinazure_locate};
pub use planning::{bobbinazure_make_plan, bobbinazure_make_plan_and_text, bobbinazure_make_text};
pub use program_linking::bobbinazure_link_program;
pub use programs::{LinkedModuleRecord, NamedModule, ProgramAnswerRecord, ProgramRecord};
pub use rules::{BrokenRuleRecord, bobbinazure_locate_rule};
pub use sections::{SectionRow, SectionsRecord, bobbinazure_sections};
pub use segments::bobbinazure_segments;
pub use text::TextRecord;
pub use version::bobbinazure_version;
