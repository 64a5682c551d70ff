//! Tests of `type_registry`, `import_match` and `plan_link`, alone and together.
//!
//! `registrations` lists registrations and releases of what `modules` and `lists` have. `rules` has
//! the rules of matching, and `definitions` what a linker defines and refuses. `two_modules` has a
//! program of two modules, `plans` two plans that are linked, `programs` three.
//!
//! `segments` and `excesses` test `segment_tables` and `plan_excess`.
#![tactic(auto)]

#[cfg(test)]
mod definitions;
#[cfg(test)]
mod excesses;
#[cfg(test)]
mod lists;
#[cfg(test)]
mod modules;
#[cfg(test)]
mod plans;
#[cfg(test)]
mod programs;
#[cfg(test)]
mod registrations;
#[cfg(test)]
mod rows;
#[cfg(test)]
mod rules;
#[cfg(test)]
mod segments;
#[cfg(test)]
mod translated;
#[cfg(test)]
mod two_modules;
