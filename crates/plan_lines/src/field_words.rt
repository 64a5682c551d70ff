//! The text of fields, and of the types that consist of them.

ghost use Rattle.std.specs.Prelude.{◌≡◌, ◌+◌, ◌≤◌, ◌++◌, length, OnOk, codes};
ghost use Rattle.wasm_types.specs.Texts.{spaced, storage_text, field_text, array_text, struct_text, exn_text};
ghost use Rattle.plan_lines.specs.Room.{Puts};

use crate::reference_words::append_index;
use crate::room::{make_room, put, put_byte};
use crate::text::Text;
use crate::value_words::{MOST_VALUE, put_value};
use entity_map::OutOfMemory;
use wasm_types::{WasmArrayType, WasmExnType, WasmFieldType, WasmStorageType, WasmStructType};

// The most bytes of a space and a field: those of " (mut", the storage type and a parenthesis.
const MOST_FIELD: usize = 5 + MOST_VALUE + 1;

// Writes a space and a storage type.
#[inline(always)]
fn put_storage(room: &mut [u8], used: usize, ty: &WasmStorageType) -> usize
    requires { used + MOST_VALUE ≤ length room.old }
    ensures { Puts MOST_VALUE (codes " " ++ storage_text ty.now) room.old used room.new result }
{
    match ty {
        WasmStorageType::I8 => put(room, used, b" i8"),
        WasmStorageType::I16 => put(room, used, b" i16"),
        WasmStorageType::Val(ty) => put_value(room, used, ty),
    }
}

// Writes a space and a field.
fn put_field(room: &mut [u8], used: usize, field: &WasmFieldType) -> usize
    requires { used + MOST_FIELD ≤ length room.old }
    ensures { Puts MOST_FIELD (codes " " ++ field_text field.now) room.old used room.new result }
{
    if !field.mutable {
        return put_storage(room, used, &field.element_type);
    }
    let first = put(room, used, b" (mut");
    let end = put_storage(room, first, &field.element_type);
    put_byte(room, end, b')')
}

// Appends a space and a field.
fn append_field(text: &mut Text, field: &WasmFieldType) -> Result<(), OutOfMemory>
    ensures { OnOk result (text.new ≡ text.old ++ codes " " ++ field_text field.now) }
{
    make_room(&mut text.room, text.used, MOST_FIELD)?;
    text.used = put_field(&mut text.room, text.used, field);
    Ok(())
}

fn append_fields(text: &mut Text, fields: &[WasmFieldType]) -> Result<(), OutOfMemory>
    ensures { OnOk result (text.new ≡ text.old ++ spaced field_text fields.now) }
{
    for field in fields {
        append_field(text, field)?;
    }
    Ok(())
}

// Appends an array type.
pub(crate) fn append_array(text: &mut Text, ty: &WasmArrayType) -> Result<(), OutOfMemory>
    ensures { OnOk result (text.new ≡ text.old ++ array_text ty.now) }
{
    text.push_str("(array")?;
    append_field(text, &ty.0)?;
    text.push_byte(b')')
}

// Appends a struct type.
pub(crate) fn append_struct(text: &mut Text, ty: &WasmStructType) -> Result<(), OutOfMemory>
    ensures { OnOk result (text.new ≡ text.old ++ struct_text ty.now) }
{
    text.push_str("(struct")?;
    append_fields(text, ty.fields.as_slice())?;
    text.push_byte(b')')
}

// Appends an exception type.
pub(crate) fn append_exn(text: &mut Text, ty: &WasmExnType) -> Result<(), OutOfMemory>
    ensures { OnOk result (text.new ≡ text.old ++ exn_text ty.now) }
{
    text.push_str("(exn (")?;
    append_index(text, ty.func_ty)?;
    text.push_byte(b')')?;
    append_fields(text, ty.fields.as_slice())?;
    text.push_byte(b')')
}
