//! The text of an interned type, word by word.

ghost use Rattle.std.specs.Prelude.{◌≡◌, ◌++◌, OnOk, codes};
ghost use Rattle.wasm_types.specs.Texts.{index_text, group_text, func_text, cont_text, inner_text, composite_text, sub_text};

use crate::field_words::{append_array, append_exn, append_struct};
use crate::reference_words::append_index;
use crate::room::{make_room, put};
use crate::text::Text;
use crate::value_words::append_values;
use entity_map::OutOfMemory;
use wasm_types::{
    EngineOrModuleTypeIndex, WasmCompositeInnerType, WasmCompositeType, WasmContType, WasmFuncType,
    WasmSubType, WasmValType,
};

/// Appends a type as it is displayed.
pub(crate) fn append_subtype(text: &mut Text, ty: &WasmSubType) -> Result<(), OutOfMemory>
    ensures { OnOk result (text.new ≡ text.old ++ sub_text ty.now) }
{
    let composite_type = &ty.composite_type;
    match (ty.is_final, ty.supertype) {
        (true, None) => append_composite(text, composite_type),
        (true, Some(supertype)) => append_under(text, "(sub final ", supertype, composite_type),
        (false, None) => append_open(text, composite_type),
        (false, Some(supertype)) => append_under(text, "(sub ", supertype, composite_type),
    }
}

// Appends a type that has no supertype, and that others may name as theirs.
fn append_open(text: &mut Text, ty: &WasmCompositeType) -> Result<(), OutOfMemory>
    ensures { OnOk result (text.new ≡ text.old ++ codes "(sub " ++ composite_text ty.now ++ codes ")") }
{
    text.push_str("(sub ")?;
    append_composite(text, ty)?;
    text.push_byte(b')')
}

// Appends a type that has a supertype.
fn append_under(
    text: &mut Text,
    head: &str,
    supertype: EngineOrModuleTypeIndex,
    ty: &WasmCompositeType,
) -> Result<(), OutOfMemory>
    ensures { OnOk result (text.new ≡ text.old ++ head.now ++ index_text supertype ++ codes " " ++ composite_text ty.now ++ codes ")") }
{
    text.push_str(head)?;
    append_index(text, supertype)?;
    text.push_byte(b' ')?;
    append_composite(text, ty)?;
    text.push_byte(b')')
}

fn append_composite(text: &mut Text, ty: &WasmCompositeType) -> Result<(), OutOfMemory>
    ensures { OnOk result (text.new ≡ text.old ++ composite_text ty.now) }
{
    if !ty.shared {
        return append_inner(text, &ty.inner);
    }
    text.push_str("(shared ")?;
    append_inner(text, &ty.inner)?;
    text.push_byte(b')')
}

fn append_inner(text: &mut Text, ty: &WasmCompositeInnerType) -> Result<(), OutOfMemory>
    ensures { OnOk result (text.new ≡ text.old ++ inner_text ty.now) }
{
    match ty {
        WasmCompositeInnerType::Array(ty) => append_array(text, ty),
        WasmCompositeInnerType::Func(ty) => append_function(text, ty),
        WasmCompositeInnerType::Struct(ty) => append_struct(text, ty),
        WasmCompositeInnerType::Cont(ty) => append_cont(text, ty),
        WasmCompositeInnerType::Exn(ty) => append_exn(text, ty),
    }
}

fn append_cont(text: &mut Text, ty: &WasmContType) -> Result<(), OutOfMemory>
    ensures { OnOk result (text.new ≡ text.old ++ cont_text ty.now) }
{
    text.push_str("(cont ")?;
    append_index(text, ty.index())?;
    text.push_byte(b')')
}

fn append_function(text: &mut Text, ty: &WasmFuncType) -> Result<(), OutOfMemory>
    ensures { OnOk result (text.new ≡ text.old ++ func_text ty.now) }
{
    text.push_str("(func")?;
    append_group(text, "param", ty.params())?;
    append_group(text, "result", ty.results())?;
    text.push_byte(b')')
}

#[inline(always)]
fn append_head(text: &mut Text, head: &str) -> Result<(), OutOfMemory>
    ensures { OnOk result (text.new ≡ text.old ++ codes " (" ++ head.now) }
{
    make_room(&mut text.room, text.used, head.len() + 2)?;
    let first = put(&mut text.room, text.used, b" (");
    text.used = put(&mut text.room, first, head.as_bytes());
    Ok(())
}

// Appends a group of value types under a head, which is left out where it is empty.
#[inline(always)]
fn append_group(text: &mut Text, head: &str, types: &[WasmValType]) -> Result<(), OutOfMemory>
    ensures { OnOk result (text.new ≡ text.old ++ group_text head.now types.now) }
{
    if types.is_empty() {
        return Ok(());
    }
    append_head(text, head)?;
    append_values(text, types)?;
    text.push_byte(b')')
}
