//! Layouts of structs, arrays and exceptions for two garbage collectors, for compilers and
//! runtimes.
//!
//! Offsets and sizes are exact, and refused exactly where they pass 32 bits. Fields do not overlap,
//! and a subtype has the fields of its supertype at the same offsets.
//!
//! ```
//! let layouts = DrcTypeLayouts;
//! let pair = layouts.struct_layout(alloc, &ty)?;
//! let first = pair.fields[0].offset;
//! let array = layouts.array_layout(&elements);
//! let size = array.size_for_len(10); // None past 32 bits
//! ```
//!
//! The collectors differ in their headers: 24 bytes for `drc`, 8 for `null`. A layout takes one
//! pass over the fields, and memory for their list.
//!
//! Read on: `collector`, `fields`, `array`, `kind`; `plan` makes the layouts of a complete module.
#![tactic(auto)]

mod array;
mod collector;
pub mod drc;
mod error;
mod fields;
mod header;
mod kind;
mod laws;
mod layout;
pub mod null;
mod object;
mod sizes;
mod worked;

pub use array::GcArrayLayout;
pub use collector::GcTypeLayouts;
pub use drc::DrcTypeLayouts;
pub use error::LayoutError;
pub use fields::{GcStructLayout, GcStructLayoutField};
pub use header::{
    DRC_HEADER_IN_OVER_APPROX_LIST_BIT, DRC_HEADER_MARK_BIT,
    DRC_MIN_OVER_APPROX_STACK_ROOTS_GC_THRESHOLD, I31_DISCRIMINANT, POISON, VM_GC_HEADER_ALIGN,
    VM_GC_HEADER_KIND_OFFSET, VM_GC_HEADER_SIZE, VM_GC_HEADER_TYPE_INDEX_OFFSET,
};
pub use kind::{VM_GC_KIND_SIZE, VMGcKind};
pub use laws::{
    alignments_are_greatest, fields_never_overlap, kinds_are_a_tree, offsets_are_least_multiples,
    prefixes_agree,
};
pub use layout::Layout;
pub use null::NullTypeLayouts;
pub use object::GcLayout;
pub use sizes::byte_size_of_wasm_ty_in_gc_heap;
pub use worked::{worked_arrays, worked_exceptions, worked_fields};
