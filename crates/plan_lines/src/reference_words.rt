//! The text of a reference type, word by word, into capacity that is reserved for the longest.

ghost use Rattle.std.specs.Prelude.{◌≡◌, ◌+◌, ◌≤◌, ◌++◌, length, OnOk, codes, decimal};
ghost use Rattle.wasm_types.specs.Texts.{index_text, heap_text, ref_text};
ghost use Rattle.plan_lines.specs.Room.{Puts};

use crate::digits::{MOST_NUMBER, put_number};
use crate::room::{make_room, put, put_byte};
use crate::text::Text;
use entity_map::{EntityRef, OutOfMemory};
use wasm_types::{EngineOrModuleTypeIndex, WasmHeapType, WasmRefType};

// The most bytes before the number of an index: those of "(recgroup ".
const MOST_LIST: usize = 10;

// The most bytes before the index of a heap type: those of "struct ".
const MOST_KIND: usize = 7;

// The most bytes before the heap type of a reference: those of "(ref null ".
const MOST_HEAD: usize = 10;

// The most bytes of an index with the list that it indexes.
const MOST_INDEX: usize = MOST_LIST + MOST_NUMBER + 1;

// The most bytes of a heap type.
const MOST_HEAP: usize = MOST_KIND + MOST_INDEX;

/// The most bytes of a reference type.
pub(crate) const MOST_REFERENCE: usize = MOST_HEAD + MOST_HEAP + 1;

// Writes a number behind the name of the list that it indexes, and closes the parenthesis.
#[inline(always)]
fn put_listed(room: &mut [u8], used: usize, list: &[u8], number: u32) -> usize
    requires { (length list.now ≤ MOST_LIST) × (used + MOST_INDEX ≤ length room.old) }
    ensures { Puts MOST_INDEX (list.now ++ decimal number ++ codes ")") room.old used room.new result }
{
    let first = put(room, used, list);
    let end = put_number(room, first, number.into());
    put_byte(room, end, b')')
}

// Writes an index, and the list that it indexes.
fn put_index(room: &mut [u8], used: usize, index: EngineOrModuleTypeIndex) -> usize
    requires { used + MOST_INDEX ≤ length room.old }
    ensures { Puts MOST_INDEX (index_text index) room.old used room.new result }
{
    match index {
        EngineOrModuleTypeIndex::Engine(index) => put_listed(room, used, b"(engine ", index.bits()),
        EngineOrModuleTypeIndex::Module(index) => put_listed(
            room,
            used,
            b"(module ",
            index.as_u32(),
        ),
        EngineOrModuleTypeIndex::RecGroup(index) => put_listed(
            room,
            used,
            b"(recgroup ",
            index.as_u32(),
        ),
    }
}

// Writes the kind of a concrete heap type, with the space behind it, and the index.
#[inline(always)]
fn put_concrete(room: &mut [u8], used: usize, kind: &[u8], index: EngineOrModuleTypeIndex) -> usize
    requires { (length kind.now ≤ MOST_KIND) × (used + MOST_HEAP ≤ length room.old) }
    ensures { Puts MOST_HEAP (kind.now ++ index_text index) room.old used room.new result }
{
    let first = put(room, used, kind);
    put_index(room, first, index)
}

// Writes a heap type.
fn put_heap(room: &mut [u8], used: usize, ty: &WasmHeapType) -> usize
    requires { used + MOST_HEAP ≤ length room.old }
    ensures { Puts MOST_HEAP (heap_text ty.now) room.old used room.new result }
{
    match ty {
        WasmHeapType::Extern => put(room, used, b"extern"),
        WasmHeapType::NoExtern => put(room, used, b"noextern"),
        WasmHeapType::Func => put(room, used, b"func"),
        WasmHeapType::ConcreteFunc(index) => put_concrete(room, used, b"func ", *index),
        WasmHeapType::NoFunc => put(room, used, b"nofunc"),
        WasmHeapType::Exn => put(room, used, b"exn"),
        WasmHeapType::ConcreteExn(index) => put_concrete(room, used, b"exn ", *index),
        WasmHeapType::NoExn => put(room, used, b"noexn"),
        WasmHeapType::Cont => put(room, used, b"cont"),
        WasmHeapType::ConcreteCont(index) => put_concrete(room, used, b"cont ", *index),
        WasmHeapType::NoCont => put(room, used, b"nocont"),
        WasmHeapType::Any => put(room, used, b"any"),
        WasmHeapType::Eq => put(room, used, b"eq"),
        WasmHeapType::I31 => put(room, used, b"i31"),
        WasmHeapType::Array => put(room, used, b"array"),
        WasmHeapType::ConcreteArray(index) => put_concrete(room, used, b"array ", *index),
        WasmHeapType::Struct => put(room, used, b"struct"),
        WasmHeapType::ConcreteStruct(index) => put_concrete(room, used, b"struct ", *index),
        WasmHeapType::None => put(room, used, b"none"),
    }
}

// Writes a reference in parentheses, of which the head is the first and whether it may be null.
#[inline(always)]
fn put_long_reference(room: &mut [u8], used: usize, head: &[u8], ty: &WasmHeapType) -> usize
    requires { (length head.now ≤ MOST_HEAD) × (used + MOST_REFERENCE ≤ length room.old) }
    ensures { Puts MOST_REFERENCE (head.now ++ heap_text ty.now ++ codes ")") room.old used room.new result }
{
    let first = put(room, used, head);
    let end = put_heap(room, first, ty);
    put_byte(room, end, b')')
}

// Writes a reference type.
pub(crate) fn put_reference(room: &mut [u8], used: usize, ty: &WasmRefType) -> usize
    requires { used + MOST_REFERENCE ≤ length room.old }
    ensures { Puts MOST_REFERENCE (ref_text ty.now) room.old used room.new result }
{
    let heap_type = &ty.heap_type;
    match (ty.nullable, heap_type) {
        (true, WasmHeapType::Func) => put(room, used, b"funcref"),
        (true, WasmHeapType::Extern) => put(room, used, b"externref"),
        (true, _) => put_long_reference(room, used, b"(ref null ", heap_type),
        (false, _) => put_long_reference(room, used, b"(ref ", heap_type),
    }
}

// Appends an index, and the list that it indexes.
pub(crate) fn append_index(
    text: &mut Text,
    index: EngineOrModuleTypeIndex,
) -> Result<(), OutOfMemory>
    ensures { OnOk result (text.new ≡ text.old ++ index_text index) }
{
    make_room(&mut text.room, text.used, MOST_INDEX)?;
    text.used = put_index(&mut text.room, text.used, index);
    Ok(())
}

// Appends a reference type.
pub(crate) fn append_reference(text: &mut Text, ty: &WasmRefType) -> Result<(), OutOfMemory>
    ensures { OnOk result (text.new ≡ text.old ++ ref_text ty.now) }
{
    make_room(&mut text.room, text.used, MOST_REFERENCE)?;
    text.used = put_reference(&mut text.room, text.used, ty);
    Ok(())
}

// Appends a heap type.
pub(crate) fn append_heap(text: &mut Text, ty: &WasmHeapType) -> Result<(), OutOfMemory>
    ensures { OnOk result (text.new ≡ text.old ++ heap_text ty.now) }
{
    make_room(&mut text.room, text.used, MOST_HEAP)?;
    text.used = put_heap(&mut text.room, text.used, ty);
    Ok(())
}
