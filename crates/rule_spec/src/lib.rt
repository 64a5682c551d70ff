//! The ten listed rules of validation as definitions, for readers of contracts and for the crates
//! that check them.
//!
//! `Satisfies` says for each `Rule` what a module must have; `Keeps` says that it has all ten.
//! `HasClass` is the coarse typing of constant expressions, in which a reference is one `Class`.
//!
//! ```
//! let rule = Rule::L4; // limits
//! let class = Class::Ref;
//! // clauses of `worked_rules` and `worked_kept_rules`:
//! // ¬ Satisfies rule.L4 (lists_of_module maximum_below_minimum)
//! // Satisfies rule.L4 (lists_of_module maximum_above_minimum)
//! ```
//!
//! Nothing here checks a module: `form_rules` does, and names the first rule that is broken.
//!
//! Read on: `specs/Rules.antt`, then `specs/Lists.antt` and `specs/Typing.antt`.
#![tactic(auto)]

mod classes;
mod rules;
mod worked;

pub use classes::Class;
pub use rules::Rule;
pub use worked::{
    worked_expressions, worked_kept_rules, worked_module, worked_rules, worked_signatures,
};
