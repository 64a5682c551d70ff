//! A plan or a refusal as a value and as text, for the program, for C and for every crate above the
//! translation.
//!
//! A `Plan` has the translation, the interned types, the layouts of their objects, and the layout
//! of the context. A `TranslateError` says why bytes have no plan, with the broken rule or the
//! unsupported part. Each text is its definition, byte by byte; a plan that `translate_module`
//! returns may be printed.
//!
//! ```
//! let functions = plan.translation.module.functions.len();
//! let size = plan.offsets.size_of_vmctx();
//! let text = plan_text(alloc, &plan)?;
//! let line = refusal_line(&TranslateError::Invalid(Rule::L4)); // "refused invalid L4\n"
//! let summary = summary_text(alloc, 1000, length, &plan)?; // of `generate 1000`
//! ```
//!
//! A plan borrows the module's bytes. The line of a refusal is static and needs no memory. A text
//! takes memory for its bytes, and docs/MEASURED.md has sizes.
//!
//! Read on: `plan`, `error`, then `lines`, `summary`, `refusal`; docs/FORMAT.md explains the text
//! for readers. `translate` makes a plan, `plan_tables` puts it into tables.
#![tactic(auto)]

mod error;
mod lines;
mod plan;
mod refusal;
mod summary;
mod worked;

pub use error::TranslateError;
pub use lines::plan_text;
pub use plan::Plan;
pub use refusal::refusal_line;
pub use summary::summary_text;
pub use worked::worked_refusals;
