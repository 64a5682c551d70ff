//! The text of value types, a space before each: those of numbers and vectors are words of at most
//! eight bytes.

ghost use Rattle.std.specs.Prelude.{◌≡◌, ◌+◌, ◌*◌, ◌≤◌, ◌++◌, length, take, OnOk, IfOk, IfSome, IfNone, IsSome, codes};
ghost use Rattle.wasm_types.specs.Texts.{val_text, spaced};
ghost use Rattle.wasm_types.specs.Views.{ref_in};
ghost use Rattle.plan_lines.specs.Room.{Puts};

use crate::reference_words::{MOST_REFERENCE, put_reference};
use crate::room::{make_room, put_byte, put_part};
use crate::text::Text;
use entity_map::OutOfMemory;
use wasm_types::WasmValType;

/// The most bytes of a space and a value type.
pub(crate) const MOST_VALUE: usize = 1 + MOST_REFERENCE;

// A space and the word of a type of numbers or vectors, and how many of the bytes that is.
#[inline(always)]
fn short_word(ty: &WasmValType) -> Option<(&'static [u8; 8], usize)>
    ensures word { IfSome result (λ word. (word.1 ≤ 8) × (take word.1 word.0.now ≡ codes " " ++ val_text ty.now)) }
    ensures none { IfNone result (IsSome (ref_in ty.now)) }
{
    match ty {
        WasmValType::I32 => Some((b" i32    ", 4)),
        WasmValType::I64 => Some((b" i64    ", 4)),
        WasmValType::F32 => Some((b" f32    ", 4)),
        WasmValType::F64 => Some((b" f64    ", 4)),
        WasmValType::V128 => Some((b" v128   ", 5)),
        WasmValType::Ref(_) => None,
    }
}

// Writes value types before the first reference, a space before each. Returns the position behind
// them, and their number.
fn put_values(room: &mut [u8], used: usize, types: &[WasmValType]) -> (usize, usize)
    requires { used + 8 * length types.now ≤ length room.old }
    ensures written { take result.0 room.new ≡ take used room.old ++ spaced val_text (take result.1 types.now) }
    ensures end { (used ≤ result.0) × (result.0 ≤ length room.new) × (result.1 ≤ length types.now) }
{
    let mut end = used;
    for (count, ty) in types.iter().enumerate() {
        let Some((word, len)) = short_word(ty) else {
            return (end, count);
        };
        end = put_part(room, end, word, len);
    }
    (end, types.len())
}

fn append_short(text: &mut Text, types: &[WasmValType]) -> Result<usize, OutOfMemory>
    ensures { IfOk result (λ count. (count ≤ length types.now) × (text.new ≡ text.old ++ spaced val_text (take count types.now))) }
{
    make_room(&mut text.room, text.used, types.len() * 8)?;
    let (end, count) = put_values(&mut text.room, text.used, types);
    text.used = end;
    Ok(count)
}

fn append_each(text: &mut Text, types: &[WasmValType]) -> Result<(), OutOfMemory>
    ensures { OnOk result (text.new ≡ text.old ++ spaced val_text types.now) }
{
    for ty in types {
        append_value(text, ty)?;
    }
    Ok(())
}

// Appends value types, those before the first reference at once.
pub(crate) fn append_values(text: &mut Text, types: &[WasmValType]) -> Result<(), OutOfMemory>
    ensures { OnOk result (text.new ≡ text.old ++ spaced val_text types.now) }
{
    let count = append_short(text, types)?;
    append_each(text, &types[count..])
}

// Writes a space and a value type.
pub(crate) fn put_value(room: &mut [u8], used: usize, ty: &WasmValType) -> usize
    requires { used + MOST_VALUE ≤ length room.old }
    ensures { Puts MOST_VALUE (codes " " ++ val_text ty.now) room.old used room.new result }
{
    match short_word(ty) {
        Some((word, len)) => put_part(room, used, word, len),
        None => {
            let first = put_byte(room, used, b' ');
            put_reference(room, first, &ty.unwrap_ref_type())
        }
    }
}

// Appends a space and a value type.
fn append_value(text: &mut Text, ty: &WasmValType) -> Result<(), OutOfMemory>
    ensures { OnOk result (text.new ≡ text.old ++ codes " " ++ val_text ty.now) }
{
    make_room(&mut text.room, text.used, MOST_VALUE)?;
    text.used = put_value(&mut text.room, text.used, ty);
    Ok(())
}
