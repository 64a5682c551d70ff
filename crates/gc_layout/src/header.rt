//! Constants of the collector's heap that the compiler shares with the runtime. Sizes, alignments
//! and offsets are in bytes.

/// What heap memory without an object is filled with, where that is tested.
pub const POISON: u8 = 0x0F;

/// The bit of an object's header that marks it as on the precise list of stack roots.
pub const DRC_HEADER_MARK_BIT: u32 = 1;

/// The bit of an object's header that marks it as on the approximate list of stack roots.
pub const DRC_HEADER_IN_OVER_APPROX_LIST_BIT: u32 = 2;

/// How long the approximate list of stack roots is before reading it may force a collection.
pub const DRC_MIN_OVER_APPROX_STACK_ROOTS_GC_THRESHOLD: i64 = 1024;

/// The bit of a reference that is set in an `i31ref`, and in no other.
pub const I31_DISCRIMINANT: u32 = 1;

/// The size of the header that all collectors share.
pub const VM_GC_HEADER_SIZE: u32 = 8;

/// The least alignment of that header.
pub const VM_GC_HEADER_ALIGN: u32 = 8;

/// The offset in the header of the object's kind.
pub const VM_GC_HEADER_KIND_OFFSET: u32 = 0;

/// The offset in the header of the index of the object's type.
pub const VM_GC_HEADER_TYPE_INDEX_OFFSET: u32 = 4;

/// The size of an array's length, and of each of the two indices that name an exception's tag.
pub(crate) const INDEX_SIZE: u32 = 4;

const _: () = prove!(POISON == 15);

const _: () = prove!(DRC_HEADER_MARK_BIT == 1);

const _: () = prove!(DRC_HEADER_IN_OVER_APPROX_LIST_BIT == 2);

const _: () = prove!(DRC_MIN_OVER_APPROX_STACK_ROOTS_GC_THRESHOLD == 1024);

const _: () = prove!(I31_DISCRIMINANT == 1);

const _: () = prove!(VM_GC_HEADER_SIZE == 8);

const _: () = prove!(VM_GC_HEADER_ALIGN == 8);

const _: () = prove!(VM_GC_HEADER_KIND_OFFSET == 0);

const _: () = prove!(VM_GC_HEADER_TYPE_INDEX_OFFSET == 4);
