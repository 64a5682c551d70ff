//! The layout of an instance's context, for compilers and runtimes: the offset of each entry, in
//! bytes.
//!
//! Entries are those of one table, in its order. They do not overlap, they end within the context,
//! and the regions add up to its size. `OffsetOverflow` is returned exactly where the size passes
//! 32 bits.
//!
//! ```
//! let offsets = VMOffsets::new(8u8, &translation.module)?;
//! let first = offsets.imported_functions().at(FuncIndex::new(0));
//! let memories = offsets.memories().begin();
//! let size = offsets.size_of_vmctx();
//! ```
//!
//! `new` computes all entries once. Later calls take constant time and no memory.
//!
//! Read on: `table`, `accessors`, `regions`; `specs/Context.antt` defines the table.
#![tactic(auto)]

mod accessors;
mod arrays;
mod counts;
mod fields;
mod laws;
mod module;
mod offsets;
mod overflow;
mod part;
mod pointer;
mod regions;
mod row;
mod table;
mod worked;

pub use arrays::{ArrayOffsets, VmctxArrayIndex};
pub use fields::VMOffsetsFields;
pub use laws::{entry_laws, region_laws};
pub use offsets::VMOffsets;
pub use overflow::OffsetOverflow;
pub use pointer::GetPtrSize;
pub use regions::RegionSizes;
pub use vm_structs::{
    NUM_COMPONENT_CONTEXT_SLOTS, VM_ARRAY_CALL_HOST_FUNC_MAGIC, VM_LAZY_THREAD_FORCED,
    VMCONTEXT_MAGIC,
};
pub use worked::{worked_empty_module, worked_programs, worked_table};
