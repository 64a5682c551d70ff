//! The plan of a module's initialisers, for the planner: images of memories and tables, and the
//! segments that startup writes.
//!
//! Each finalize call follows its rule, and segments outside images keep their order. The plan
//! agrees with the module: replayed over any imports, it leaves what the module's segments leave,
//! and traps where they trap.
//!
//! ```
//! translation.finalize_memory_init(alloc, &tunables, 4096, 1_048_576, &mut types)?;
//! translation.finalize_table_init(alloc, &tunables, &mut types)?;
//! let startup = &translation.module.startup;
//! let align = translation.data_align; // None without images of memories
//! ```
//!
//! The calls may be made in either order. After an error the translation may only be dropped.
//! Before them `too_large_at` names the memory with whose image the runtime data are too large.
//!
//! Read on: `translation` has the fields, `memory_startup`, `table_init` and `too_large` the calls;
//! `run_laws` proves what a plan can cost.
#![tactic(auto)]

mod debug_info;
mod error;
mod image_data;
mod laws;
mod memory_init;
mod memory_startup;
mod private_parts;
mod runtime_data;
mod startup;
mod table_init;
mod too_large;
mod translation;

pub use debug_info::{BranchHint, DebugInfoData, FunctionMetadata, NameSection, WasmFileInfo};
pub use error::PlanError;
pub use laws::{agreement_law, held_agreement_laws};
pub use memory_images::{Written, written_ranges};
pub use memory_startup::are_images;
pub use translation::{
    FunctionBodyData, MemoryInit, MemorySegmentOffset, ModuleTranslation, RuntimeBytes,
};
pub use wasm_module::{MemoryInitialization, MemoryInitializer, Module};
