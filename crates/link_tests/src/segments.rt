//! The tables of `segment_tables`, of a module with segments of each kind, with ample memory.

use form_reader::ReadError;
use plan_tables::{OperatorRow, Span, ValueRow};
use segment_tables::{ElementSegmentRow, module_segments};
use std::test::Fail;

/// Five functions; a table and a memory; a global that begins as a reference to function 3; an
/// export of function 4; function 2 starts. Then four element segments and two data segments.
const MODULE: [u8; 113] = [
    0x00, 0x61, 0x73, 0x6D, 0x01, 0x00, 0x00, 0x00, // the header
    0x01, 0x04, 0x01, 0x60, 0x00, 0x00, // the type of each function
    0x03, 0x06, 0x05, 0x00, 0x00, 0x00, 0x00, 0x00, // functions
    0x04, 0x04, 0x01, 0x70, 0x00, 0x0A, // a table
    0x05, 0x03, 0x01, 0x00, 0x01, // a memory
    0x06, 0x06, 0x01, 0x70, 0x00, 0xD2, 0x03, 0x0B, // a global
    0x07, 0x05, 0x01, 0x01, 0x66, 0x00, 0x04, // an export
    0x08, 0x01, 0x02, // start
    0x09, 0x1D, 0x04, // element segments
    0x00, 0x41, 0x01, 0x0B, 0x01, 0x00, // active, function 0
    0x01, 0x00, 0x02, 0x01, 0x00, // passive, functions 1 and 0
    0x07, 0x63, 0x00, 0x01, 0xD0, 0x00, 0x0B, // declarative, a null reference of type 0
    0x06, 0x00, 0x41, 0x02, 0x0B, 0x70, 0x01, 0xD2, 0x01, 0x0B, // active, a reference to function 1
    0x0A, 0x10, 0x05, 0x02, 0x00, 0x0B, 0x02, 0x00, 0x0B, 0x02, 0x00, 0x0B, 0x02, 0x00, 0x0B, 0x02,
    0x00, 0x0B, // bodies
    0x0B, 0x0B, 0x02, // data segments
    0x00, 0x41, 0x08, 0x0B, 0x02, 0x61, 0x62, // active
    0x01, 0x01, 0x63, // passive
];

/// The type `funcref`.
const FUNCREF: ValueRow = ValueRow {
    kind: 5,
    nullable: 1,
    heap: 2,
    list: 0,
    index: 0,
};

fn is_span(span: Span, begin: usize, len: usize) -> bool {
    span.begin == begin && span.len == len
}

fn is_value(value: ValueRow, other: ValueRow) -> bool {
    value.kind == other.kind
        && value.nullable == other.nullable
        && value.heap == other.heap
        && value.list == other.list
        && value.index == other.index
}

/// Whether an operator has no more than a code, a heap type with its list, an index and low bits.
fn is_operator(row: OperatorRow, code: u8, heap: u8, list: u8, index: u32, low: u64) -> bool {
    row.code == code
        && row.heap == heap
        && row.list == list
        && row.index == index
        && row.low == low
        && row.high == 0
}

fn is_element(row: ElementSegmentRow, kind: u32, offset: usize) -> bool {
    row.kind == kind && row.table == 0 && row.offset == offset
}

#[test]
fn element_segments_are_told(rt: HostRuntime) -> Result<(), Fail> {
    let told = module_segments(rt.alloc(), &MODULE)?;
    let rows = told.element_segments;
    assert!(rt; rows.len() == 4);
    assert!(rt; is_element(rows[0], 1, 0) && is_element(rows[1], 0, 0));
    assert!(rt; is_element(rows[2], 2, 0) && is_element(rows[3], 1, 2));
    let declared = ValueRow {
        kind: 5,
        nullable: 1,
        heap: 19,
        list: 4,
        index: 0,
    };
    assert!(rt; is_value(rows[0].element, FUNCREF) && is_value(rows[1].element, FUNCREF));
    assert!(rt; is_value(rows[2].element, declared) && is_value(rows[3].element, FUNCREF));
    assert!(rt; is_span(rows[0].functions, 0, 1) && is_span(rows[0].expressions, 1, 0));
    assert!(rt; is_span(rows[1].functions, 1, 2) && is_span(rows[1].expressions, 1, 0));
    assert!(rt; is_span(rows[2].functions, 3, 0) && is_span(rows[2].expressions, 1, 1));
    assert!(rt; is_span(rows[3].functions, 3, 0) && is_span(rows[3].expressions, 3, 1));
    assert!(rt; rows[0].expressed == 0 && rows[1].expressed == 0);
    assert!(rt; rows[2].expressed == 1 && rows[3].expressed == 1);
    assert!(rt; told.functions == [0, 1, 0].as_slice());
    Ok(())
}

#[test]
fn expressions_and_data_segments_are_told(rt: HostRuntime) -> Result<(), Fail> {
    let told = module_segments(rt.alloc(), &MODULE)?;
    let parts = told.expressions.parts;
    let operators = told.expressions.operators;
    assert!(rt; parts.len() == 5 && operators.len() == 5);
    assert!(rt; is_span(parts[0], 0, 1) && is_span(parts[4], 4, 1));
    assert!(rt; is_operator(operators[0], 0, 0, 0, 0, 1)); // i32.const 1
    assert!(rt; is_operator(operators[1], 7, 19, 4, 0, 0)); // ref.null 0
    assert!(rt; is_operator(operators[2], 0, 0, 0, 0, 2)); // i32.const 2
    assert!(rt; is_operator(operators[3], 8, 0, 0, 1, 0)); // ref.func 1
    assert!(rt; is_operator(operators[4], 0, 0, 0, 0, 8)); // i32.const 8
    let rows = told.data_segments;
    assert!(rt; rows.len() == 2);
    assert!(rt; rows[0].kind == 1 && rows[0].memory == 0 && rows[0].offset == 4);
    assert!(rt; rows[0].bytes == b"ab".as_slice());
    assert!(rt; rows[1].kind == 0 && rows[1].memory == 0 && rows[1].offset == 0);
    assert!(rt; rows[1].bytes == b"c".as_slice());
    Ok(())
}

#[test]
fn references_leave_the_start_function_out(rt: HostRuntime) -> Result<(), Fail> {
    let told = module_segments(rt.alloc(), &MODULE)?;
    assert!(rt; told.references == [0, 1, 3, 4].as_slice());
    Ok(())
}

#[test]
fn bytes_that_are_no_module_are_refused(rt: HostRuntime) -> Result<(), Fail> {
    let alloc = rt.alloc();
    assert!(rt; module_segments(alloc, &MODULE[..4]).err() == Some(ReadError::Malformed));
    assert!(rt; module_segments(alloc, &MODULE[..8])?.references.is_empty());
    Ok(())
}
