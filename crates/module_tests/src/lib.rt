//! Tests of single calls, also in ways that the planner does not call them.
//!
//! `maps` and `memories` test `entity_map` and `paged_memory`. `types`, `visits` and `conversions`
//! test `wasm_types`, `wasm_trace` and `wasm_convert`; `records`, `groups` and `builders` test
//! `wasm_module` and `module_types`; `images` tests `memory_images`; `objects`, `structs` and
//! `contexts` test `gc_layout`, `vm_structs` and `vm_offsets`; `names` tests `name_maps`.
//! `read_forms`, `broken_rules` and `refused_places` test `wasm_form`, `rule_breaks` and
//! `refusal_place`.
#![tactic(auto)]

#[cfg(test)]
mod broken_rules;
#[cfg(test)]
mod builders;
#[cfg(test)]
mod contexts;
#[cfg(test)]
mod conversions;
#[cfg(test)]
mod groups;
#[cfg(test)]
mod images;
#[cfg(test)]
mod maps;
#[cfg(test)]
mod memories;
#[cfg(test)]
mod names;
#[cfg(test)]
mod objects;
#[cfg(test)]
mod read_forms;
#[cfg(test)]
mod records;
#[cfg(test)]
mod refused_places;
#[cfg(test)]
mod structs;
#[cfg(test)]
mod types;
#[cfg(test)]
mod visits;
