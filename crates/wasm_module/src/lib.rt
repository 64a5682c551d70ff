//! The record of a translated module, for the translation that fills it and for compilers that read
//! it.
//!
//! A contract views the record as one plain value. Index conversions between an index space and its
//! defined part are exact, and imports are first in each space.
//!
//! ```
//! let mut module = Module::new(alloc, StaticModuleIndex::new(0))?;
//! let function = module.push_function(signature)?;
//! let imported = module.is_imported_function(function); // false
//! let defined = module.defined_func_index(function); // the first defined function
//! ```
//!
//! Conversions of indices take constant time, except `owned_memory_index`, which counts the
//! memories before. `import_position` visits the imports up to the one it finds.
//!
//! Read on: `module` has the fields; `module_environ` fills them, `init_plan` plans the initial
//! content of memories and tables.
#![tactic(auto)]

mod defined;
mod entities;
mod function;
mod imports;
mod indices;
mod initializer;
mod laws;
mod memory_initialization;
mod module;
mod startup;
mod table_initialization;
mod trace;
mod worked;

pub use defined::DefinedFuncIndices;
pub use function::{FuncRefIndex, FuncRefSpace, FunctionType};
pub use imports::Imports;
pub use initializer::Initializer;
pub use laws::defined_index_laws;
pub use memory_initialization::{MemoryInitialization, MemoryInitializer};
pub use module::Module;
pub use startup::ModuleStartup;
pub use table_initialization::{
    TableInitialValue, TableInitialization, TableSegment, TableSegmentElements,
};
pub use worked::{worked_edges, worked_imports, worked_owned_memories, worked_spaces};
