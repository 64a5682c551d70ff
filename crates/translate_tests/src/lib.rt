//! Tests of planner calls that no case of `plan_cases` makes: refused allocations, failing devices,
//! words, many types, and types that differ late.
//!
//! `memory_refused` has runs in which an allocation fails. `numbers` calls `Types::build` of
//! `form_types` through `wasm_form`, over the modules of `bytes`.
#![tactic(auto)]

#[cfg(test)]
mod bytes;
#[cfg(test)]
mod devices_in_memory;
#[cfg(test)]
mod many_types;
#[cfg(test)]
mod memories;
#[cfg(test)]
mod memory_refused;
#[cfg(test)]
mod numbers;
#[cfg(test)]
mod refusals;
#[cfg(test)]
mod words;
