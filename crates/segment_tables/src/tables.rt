//! The segments of a module.

ghost use Rattle.std.specs.Prelude.{IfOk, IfErr};
ghost use Rattle.wasm_spec.specs.Module.{Module};
ghost use Rattle.form_reader.specs.Views.{module_of};
ghost use Rattle.module_environ.specs.Readable.{IsReadable};
ghost use Rattle.segment_tables.specs.Tables.{TellsSegments, TellsSegmentsOf};
ghost use Rattle.segment_tables.specs.Causes.{HasReadCause, SucceedsOrNoMemory};

use crate::data_segments::data_rows;
use crate::elements::element_rows;
use crate::expressions::{expressions_record, no_expressions};
use crate::references::references_of;
use crate::segment_rows::SegmentsRecord;
use entity_map::OutOfMemory;
use form_reader::{Form, ReadError, read_module};
use std::alloc::Global;

/// The segments of a module, and the functions that `ref.func` in its bodies may name (core
/// specification, 2.5 and 3.4.10).
///
/// # Errors
/// `OutOfMemory`.
pub fn segment_tables<'d>(alloc: Global, form: &Form<'d>) -> Result<SegmentsRecord<'d>, OutOfMemory>
    ensures { IfOk result (TellsSegments (module_of form.now)) }
{
    let payloads = form.payloads.as_slice();
    let mut expressions = no_expressions(alloc);
    let elements = element_rows(alloc, &mut expressions, payloads)?;
    let segments = data_rows(alloc, &mut expressions, payloads)?;
    let references = references_of(alloc, payloads)?;
    Ok(SegmentsRecord {
        data_segments: segments.leak(),
        element_segments: elements.rows.leak(),
        functions: elements.functions.leak(),
        expressions: expressions_record(expressions),
        references: references.leak(),
    })
}

/// The segments of the module that the bytes spell, as by `segment_tables`. No rule is checked.
///
/// # Errors
/// Those of `form_reader::read_module`.
pub fn module_segments<'d>(alloc: Global, bytes: &'d [u8]) -> Result<SegmentsRecord<'d>, ReadError>
    ensures told { IfOk result (TellsSegmentsOf bytes.now) }
    ensures cause { IfErr result (HasReadCause bytes.now) }
    // Bytes that can be read are not refused.
    ensures complete { (m : Module) → IsReadable bytes.now m → SucceedsOrNoMemory result }
{
    let form = read_module(alloc, bytes)?;
    match segment_tables(alloc, &form) {
        Ok(segments) => Ok(segments),
        Err(_) => Err(ReadError::OutOfMemory),
    }
}
