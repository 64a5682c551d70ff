//! Where the fields of each struct begin, at a size of pointers.

mod contexts;
mod definitions;
mod imports;

pub use contexts::{VMContext, VMStoreContext};
pub use definitions::{
    VMFuncRef, VMGlobalDefinition, VMMemoryDefinition, VMTableDefinition, VMTagDefinition,
};
pub use imports::{VMFunctionImport, VMGlobalImport, VMMemoryImport, VMTableImport, VMTagImport};
