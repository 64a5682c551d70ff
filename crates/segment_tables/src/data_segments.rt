//! Data segments as rows.

ghost use Rattle.std.specs.Prelude.{◌≡◌, ◌++◌, List, [], ◌∷◌, length, map, IfOk, OnOk};
ghost use Rattle.std.specs.List.{flat_map};
ghost use Rattle.wasm_spec.specs.Module as plain;
ghost use Rattle.wasm_spec.specs.Module.{Expression, segments_of_section};
ghost use Rattle.form_reader.specs.Views.{data_kind_of, segment_of, payload_of};
ghost use Rattle.segment_tables.specs.Expressions.{HasExpressions};
ghost use Rattle.segment_tables.specs.DataSegments.{data_kind_number, memory_number, data_offsets, data_offset_number, HasSegments};

use crate::expressions::{ExpressionRows, push_expression};
use crate::segment_rows::DataSegmentRow;
use entity_map::OutOfMemory;
use form_reader::{DataKind, DataSegment, Payload};
use std::alloc::Global;

fn kind_number(kind: &DataKind) -> u32
    ensures { result ≡ data_kind_number (data_kind_of kind.now) }
{
    match kind {
        DataKind::Passive => 0,
        DataKind::Active { .. } => 1,
    }
}

fn memory_number(kind: &DataKind) -> u32
    ensures { result ≡ memory_number (data_kind_of kind.now) }
{
    match kind {
        DataKind::Passive => 0,
        DataKind::Active { memory_index, .. } => *memory_index,
    }
}

/// Appends the offset of an active segment, and gives its number.
fn push_offset(rows: &mut ExpressionRows, kind: &DataKind) -> Result<usize, OutOfMemory>
    ensures pushed { OnOk result ((es : List Expression) → HasExpressions es rows.old → HasExpressions (es ++ data_offsets (data_kind_of kind.now)) rows.new) }
    ensures number { IfOk result (λ number. (es : List Expression) → HasExpressions es rows.old → number ≡ data_offset_number (length es) (data_kind_of kind.now)) }
{
    match kind {
        DataKind::Active { offset, .. } => {
            let number = rows.parts.len();
            push_expression(rows, offset)?;
            Ok(number)
        }
        DataKind::Passive => Ok(0),
    }
}

/// Appends a data segment.
fn push_segment<'d>(
    out: &mut Vec<DataSegmentRow<'d>>,
    rows: &mut ExpressionRows,
    segment: &DataSegment<'d>,
) -> Result<(), OutOfMemory>
    ensures { OnOk result ((es : List Expression) (ss : List plain.Segment) → HasSegments es ss out.old.items rows.old
        → HasSegments es (ss ++ segment_of segment.now ∷ []) out.new.items rows.new) }
{
    let offset = push_offset(rows, &segment.kind)?;
    out.push(DataSegmentRow {
        kind: kind_number(&segment.kind),
        memory: memory_number(&segment.kind),
        offset,
        bytes: segment.bytes,
    })?;
    Ok(())
}

/// Appends data segments.
fn push_segments<'d>(
    out: &mut Vec<DataSegmentRow<'d>>,
    rows: &mut ExpressionRows,
    segments: &[DataSegment<'d>],
) -> Result<(), OutOfMemory>
    ensures { OnOk result ((es : List Expression) (ss : List plain.Segment) → HasSegments es ss out.old.items rows.old
        → HasSegments es (ss ++ map segment_of segments.now) out.new.items rows.new) }
{
    for segment in segments {
        push_segment(out, rows, segment)?;
    }
    Ok(())
}

fn segments_in<'f, 'd>(payload: &'f Payload<'d>) -> &'f [DataSegment<'d>]
    ensures { map segment_of result.now ≡ segments_of_section (payload_of payload.now) }
{
    match payload {
        Payload::Segments(segments) => segments.as_slice(),
        _ => &[],
    }
}

/// The data segments of a module; their offsets follow other expressions.
pub(crate) fn data_rows<'d>(
    alloc: Global,
    rows: &mut ExpressionRows,
    payloads: &[Payload<'d>],
) -> Result<Vec<DataSegmentRow<'d>>, OutOfMemory>
    ensures { IfOk result (λ out. (es : List Expression) → HasExpressions es rows.old
        → HasSegments es (flat_map segments_of_section (map payload_of payloads.now)) out.items rows.new) }
{
    let mut out = Vec::new(alloc);
    for payload in payloads {
        push_segments(&mut out, rows, segments_in(payload))?;
    }
    Ok(out)
}
