//! Layouts of the runtime structs that compiled code reads, for compilers and runtimes.
//!
//! Each offset, size and alignment is that of one table in `specs/`, for pointers of 4 and of 8
//! bytes. The table follows from the fields, by the usual rules of alignment.
//!
//! ```
//! let definition = 8u8.vm_memory_definition();
//! let length = definition.current_length(); // 8
//! let size = definition.size(); // 16
//! let magic = VMCONTEXT_MAGIC; // the bytes `core`
//! ```
//!
//! All calls are arithmetic on the pointer size, with no memory.
//!
//! Read on: `pointer` has the trait, `offsets` the structs; `vm_offsets` has the context of an
//! instance.
#![tactic(auto)]

mod constants;
pub mod offsets;
mod pointer;
mod worked;

pub use constants::{
    NUM_COMPONENT_CONTEXT_SLOTS, VM_ARRAY_CALL_HOST_FUNC_MAGIC, VM_LAZY_THREAD_FORCED,
    VMCONTEXT_MAGIC,
};
pub use pointer::{HostPtr, PtrSize};
pub use worked::{worked_constants, worked_fields, worked_sizes};
