//! The collector that counts references, and defers a part of the counting. Sizes, alignments and
//! offsets are in bytes.

ghost use Rattle.std.proofs.Common.{lit<};

use crate::collector::GcTypeLayouts;
use crate::header::INDEX_SIZE;
pub use crate::header::{
    DRC_HEADER_IN_OVER_APPROX_LIST_BIT as HEADER_IN_OVER_APPROX_LIST_BIT,
    DRC_HEADER_MARK_BIT as HEADER_MARK_BIT,
    DRC_MIN_OVER_APPROX_STACK_ROOTS_GC_THRESHOLD as MIN_OVER_APPROX_STACK_ROOTS_GC_THRESHOLD,
};

/// The size of the header of an object.
pub const HEADER_SIZE: u32 = 24;

/// The alignment of the header.
pub const HEADER_ALIGN: u32 = 8;

/// The offset of the length of an array.
pub const ARRAY_LENGTH_OFFSET: u32 = HEADER_SIZE;

/// The offset in an exception of the index of the instance that defines its tag.
pub const EXCEPTION_TAG_INSTANCE_OFFSET: u32 = HEADER_SIZE;

/// The offset in an exception of the index of its tag in that instance.
pub const EXCEPTION_TAG_DEFINED_OFFSET: u32 = HEADER_SIZE + INDEX_SIZE;

const _: () = prove!(HEADER_SIZE == 24);

const _: () = prove!(HEADER_ALIGN == 8);

const _: () = prove!(ARRAY_LENGTH_OFFSET == 24);

const _: () = prove!(EXCEPTION_TAG_INSTANCE_OFFSET == 24);

const _: () = prove!(EXCEPTION_TAG_DEFINED_OFFSET == 28);

/// The layouts of this collector.
#[derive(Default, Drop)]
pub struct DrcTypeLayouts;

impl GcTypeLayouts for DrcTypeLayouts {
    ghost header_size = { 24 };

    ghost small = { lit< tt };

    fn array_length_field_offset(&self) -> u32 {
        ARRAY_LENGTH_OFFSET
    }

    fn exception_tag_instance_offset(&self) -> u32 {
        EXCEPTION_TAG_INSTANCE_OFFSET
    }

    fn exception_tag_defined_offset(&self) -> u32 {
        EXCEPTION_TAG_DEFINED_OFFSET
    }
}
