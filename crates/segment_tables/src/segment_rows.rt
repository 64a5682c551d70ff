//! The record of a module's segments, with C's layout.
//!
//! `embed/generate` makes the structs of C and Rust from this file, as from the rows of
//! `plan_tables`.

use plan_tables::{ExpressionsRecord, Span, ValueRow};

/// A data segment of a module: `bobbinazure_data_segment`.
#[repr(C)]
#[derive(Clone, Copy)]
pub struct DataSegmentRow<'d> {
    /// What it is, from `BOBBINAZURE_PASSIVE_SEGMENT` on: 0 passive, 1 active.
    pub kind: u32,
    /// The memory that an active one writes, by its index; 0 of a passive one.
    pub memory: u32,
    /// Which of `expressions` gives the offset of an active one, in bytes; 0 of a passive one.
    pub offset: usize,
    /// Its bytes, in the bytes of the module. They are never freed.
    pub bytes: &'d [u8],
}

/// An element segment of a module: `bobbinazure_element_segment`.
#[repr(C)]
#[derive(Clone, Copy)]
pub struct ElementSegmentRow {
    /// What it is, from `BOBBINAZURE_PASSIVE_SEGMENT` on: 0 passive, 1 active, 2 declarative.
    pub kind: u32,
    /// The table that an active one writes, by its index; 0 of another one.
    pub table: u32,
    /// Which of `expressions` gives the offset of an active one, in cells; 0 of another one.
    pub offset: usize,
    /// The type of each item, a reference; of function indices `funcref`, as in a plan. A type of the
    /// module is named by the type section: `list` is `BOBBINAZURE_OF_SECTION`, and `heap` is
    /// `BOBBINAZURE_HEAP_DECLARED`.
    pub element: ValueRow,
    /// Whether its items are written as constant expressions; else as function indices, and then none
    /// is null: the segment fits a table of `(ref func)` too.
    pub expressed: u32,
    /// The items that are functions, a part of `functions`.
    pub functions: Span,
    /// The items that are constant expressions, a part of `expressions.parts`.
    pub expressions: Span,
}

/// The segments of a module, and what `ref.func` in its bodies may name: `bobbinazure_segment_list`.
#[repr(C)]
#[derive(Clone, Copy)]
pub struct SegmentsRecord<'d> {
    /// The data segments, in order.
    pub data_segments: &'d [DataSegmentRow<'d>],
    /// The element segments, in order.
    pub element_segments: &'d [ElementSegmentRow],
    /// The items of element segments that are functions, by their indices, end to end.
    pub functions: &'d [u32],
    /// The offset and the items of each element segment, and then the offsets of the data segments.
    /// A type of the module is named by the type section, as in `element`.
    pub expressions: ExpressionsRecord<'d>,
    /// The functions that `ref.func` in a body may name, ascending: those that occur in the module
    /// outside of its bodies and its start function.
    pub references: &'d [u32],
}
