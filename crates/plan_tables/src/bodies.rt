//! Bodies of functions, with their locals, as tables.

ghost use Rattle.std.specs.Prelude.{◌≡◌, ◌++◌, drop, length, map, IfOk, OnOk};
ghost use Rattle.std.specs.List.{flat_map};
ghost use Rattle.form_reader.specs.ReadingNumbers.{counted_bytes_at};
ghost use Rattle.plan_tables.specs.Bodies.{read_heap_number, read_index_list, read_index_number, read_ref_row, read_row, locals_row, sized_bodies, counted_or_none, body_told, body_rows, TellsBodies};

use crate::numbers::bit;
use crate::record::{BodiesRecord, BodyRow};
use crate::rows::{LocalsRow, Span, ValueRow};
use crate::values::plain_row;
use entity_map::OutOfMemory;
use form_reader::{Cursor, ReadError};
use init_plan::ModuleTranslation;
use std::alloc::Global;
use wasm_spec::{AbstractHeapType, HeapType, RefType, UnpackedIndex, ValType};

/// The number of a heap type as it was read, in the order of the converted ones; 19 where it names a
/// type.
pub fn read_heap_number(ty: &HeapType) -> u8
    ensures { result ≡ read_heap_number ty.now }
{
    match ty {
        HeapType::Concrete(_) => 19,
        HeapType::Abstract(AbstractHeapType::Extern) => 0,
        HeapType::Abstract(AbstractHeapType::NoExtern) => 1,
        HeapType::Abstract(AbstractHeapType::Func) => 2,
        HeapType::Abstract(AbstractHeapType::NoFunc) => 4,
        HeapType::Abstract(AbstractHeapType::Exn) => 5,
        HeapType::Abstract(AbstractHeapType::NoExn) => 7,
        HeapType::Abstract(AbstractHeapType::Cont) => 8,
        HeapType::Abstract(AbstractHeapType::NoCont) => 10,
        HeapType::Abstract(AbstractHeapType::Any) => 11,
        HeapType::Abstract(AbstractHeapType::Eq) => 12,
        HeapType::Abstract(AbstractHeapType::I31) => 13,
        HeapType::Abstract(AbstractHeapType::Array) => 14,
        HeapType::Abstract(AbstractHeapType::Struct) => 16,
        HeapType::Abstract(AbstractHeapType::None) => 18,
    }
}

/// Which list the type that a heap type names is of: 0 none, 3 its group, 4 the type section, 5 a
/// list of types by ids.
pub fn read_index_list(ty: &HeapType) -> u8
    ensures { result ≡ read_index_list ty.now }
{
    match ty {
        HeapType::Abstract(_) => 0,
        HeapType::Concrete(UnpackedIndex::RecGroup(_)) => 3,
        HeapType::Concrete(UnpackedIndex::Module(_)) => 4,
        HeapType::Concrete(UnpackedIndex::Id(_)) => 5,
    }
}

/// The index of the type that a heap type names; 0 where it names none.
pub fn read_index_number(ty: &HeapType) -> u32
    ensures { result ≡ read_index_number ty.now }
{
    match ty {
        HeapType::Abstract(_) => 0,
        HeapType::Concrete(UnpackedIndex::RecGroup(index) | UnpackedIndex::Module(index)) => *index,
        HeapType::Concrete(UnpackedIndex::Id(id)) => id.0,
    }
}

/// A reference type as it was read.
pub fn read_ref_row(ty: RefType) -> ValueRow
    ensures { result ≡ read_ref_row ty }
{
    ValueRow {
        kind: 5,
        nullable: bit(ty.nullable),
        heap: read_heap_number(&ty.heap),
        list: read_index_list(&ty.heap),
        index: read_index_number(&ty.heap),
    }
}

// A value type as it was read.
fn read_row(ty: ValType) -> ValueRow
    ensures { result ≡ read_row ty }
{
    match ty {
        ValType::I32 => plain_row(0),
        ValType::I64 => plain_row(1),
        ValType::F32 => plain_row(2),
        ValType::F64 => plain_row(3),
        ValType::V128 => plain_row(4),
        ValType::Ref(ty) => read_ref_row(ty),
    }
}

fn push_locals(rows: &mut Vec<LocalsRow>, locals: &[(u32, ValType)]) -> Result<(), OutOfMemory>
    ensures { OnOk result (rows.new.items ≡ rows.old.items ++ map locals_row locals.now) }
{
    for run in locals {
        rows.push(LocalsRow {
            count: run.0,
            value: read_row(run.1),
        })?;
    }
    Ok(())
}

// The bodies of the module, each behind its size: what follows their number in the code section.
fn sized_bodies<'d>(bytes: &'d [u8], place: u64) -> Result<Cursor<'d>, OutOfMemory>
    ensures { IfOk result (λ cursor. cursor.rest.now ≡ sized_bodies bytes.now place) }
{
    let mut cursor = Cursor {
        rest: behind(bytes, place),
    };
    match cursor.u32() {
        Ok(_) => Ok(cursor),
        Err(ReadError::OutOfMemory) => Err(OutOfMemory),
        Err(_) => Ok(Cursor { rest: &[] }),
    }
}

// The bytes from a place on.
fn behind(bytes: &[u8], place: u64) -> &[u8]
    ensures { result.now ≡ drop place bytes.now }
{
    if place < bytes.len() as u64 {
        &bytes[place as usize..]
    } else {
        &[]
    }
}

// The bytes of the next body, which stand behind its size; none where no body is left.
fn next_body<'d>(cursor: &mut Cursor<'d>) -> Result<&'d [u8], OutOfMemory>
    ensures { IfOk result (λ body. (body.now, cursor.new.rest.now) ≡ counted_or_none (counted_bytes_at cursor.old.rest.now)) }
{
    match cursor.counted_bytes() {
        Ok(body) => Ok(body),
        Err(ReadError::OutOfMemory) => Err(OutOfMemory),
        Err(_) => {
            cursor.rest = &[];
            Ok(&[])
        }
    }
}

/// The bodies of the defined functions.
pub(crate) fn bodies_record<'d>(
    alloc: Global,
    translation: &ModuleTranslation<'d>,
) -> Result<BodiesRecord<'d>, OutOfMemory>
    ensures { IfOk result (TellsBodies translation.now) }
{
    let bodies = translation.function_body_inputs.as_slice();
    let place = translation.debuginfo.wasm_file.code_section_offset;
    let mut cursor = sized_bodies(translation.wasm, place)?;
    let mut rows = Vec::with_capacity(alloc, bodies.len())?;
    let mut locals = Vec::new(alloc);
    for input in bodies {
        let body = &input.body;
        rows.push(BodyRow {
            bytes: next_body(&mut cursor)?,
            code: body.rest,
            locals: Span {
                begin: locals.len(),
                len: body.locals.len(),
            },
        })?;
        push_locals(&mut locals, &body.locals)?;
    }
    Ok(BodiesRecord {
        rows: rows.leak(),
        locals: locals.leak(),
    })
}
