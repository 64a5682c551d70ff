//! Constant expressions, inside a line.

ghost use Rattle.std.specs.Prelude.{◌≡◌, ◌++◌, ◌≤◌, OnOk, codes, decimal};
ghost use Rattle.std.specs.Fmt.{signed_decimal};
ghost use Rattle.wasm_types.specs.Texts.{heap_text};
ghost use Rattle.plan_lines.specs.Expressions.{hexadecimal, operands_text, operator_text, expression_text};
ghost use Rattle.plan_lines.specs.Numbers.{named_number};

use crate::digits::{MOST_SPACED, put_signed, put_spaced};
use crate::numbers::{append_named, append_number};
use crate::reference_words::append_heap;
use crate::room::{make_room, put, put_byte};
use crate::text::Text;
use entity_map::OutOfMemory;
use wasm_convert::{ConstExpr, ConstOp, Operands};
use wasm_types::WasmHeapType;

// Appends a name, a space and a number.
#[inline(always)]
fn append_operand(text: &mut Text, name: &str, number: u32) -> Result<(), OutOfMemory>
    ensures { OnOk result (text.new ≡ text.old ++ name.now ++ codes " " ++ decimal number) }
{
    make_room(&mut text.room, text.used, name.len() + MOST_SPACED)?;
    let end = put(&mut text.room, text.used, name.as_bytes());
    text.used = put_spaced(&mut text.room, end, number.into());
    Ok(())
}

// Appends a name, a space and a number with its sign.
#[inline(always)]
fn append_signed(text: &mut Text, name: &str, number: i64) -> Result<(), OutOfMemory>
    ensures { OnOk result (text.new ≡ text.old ++ name.now ++ codes " " ++ signed_decimal number) }
{
    make_room(&mut text.room, text.used, name.len() + 1 + MOST_SPACED)?;
    let end = put(&mut text.room, text.used, name.as_bytes());
    let first = put_byte(&mut text.room, end, b' ');
    text.used = put_signed(&mut text.room, first, number);
    Ok(())
}

fn append_bits(text: &mut Text, name: &str, bits: u128, digits: usize) -> Result<(), OutOfMemory>
    requires { digits ≤ 32 }
    ensures { OnOk result (text.new ≡ text.old ++ name.now ++ codes " 0x" ++ hexadecimal digits bits) }
{
    text.push_str(name)?;
    text.push_str(" 0x")?;
    text.push_hexadecimal(bits, digits)
}

fn append_heap_type(
    text: &mut Text,
    name: &str,
    heap_type: &WasmHeapType,
) -> Result<(), OutOfMemory>
    ensures { OnOk result (text.new ≡ text.old ++ (name.now ++ (codes " " ++ heap_text heap_type.now))) }
{
    make_room(&mut text.room, text.used, name.len() + 1)?;
    let end = put(&mut text.room, text.used, name.as_bytes());
    text.used = put_byte(&mut text.room, end, b' ');
    append_heap(text, heap_type)
}

fn append_operands(text: &mut Text, name: &str, first: u32, second: u32) -> Result<(), OutOfMemory>
    ensures { OnOk result (text.new ≡ text.old ++ (name.now ++ (codes " " ++ decimal first ++ codes " " ++ decimal second))) }
{
    append_operand(text, name, first)?;
    append_number(text, second)
}

// Appends a name and what follows it.
#[inline(always)]
fn append_followed(text: &mut Text, name: &str, operands: Operands) -> Result<(), OutOfMemory>
    ensures { OnOk result (text.new ≡ text.old ++ (name.now ++ operands_text operands)) }
{
    match operands {
        Operands::None => text.push_str(name),
        Operands::I32(value) => append_signed(text, name, value.into()),
        Operands::I64(value) => append_signed(text, name, value),
        Operands::Bits32(bits) => append_bits(text, name, u128::from(bits), 8),
        Operands::Bits64(bits) => append_bits(text, name, u128::from(bits), 16),
        Operands::Bits128(bits) => append_bits(text, name, bits, 32),
        Operands::Index(index) => append_operand(text, name, index),
        Operands::Heap(heap_type) => append_heap_type(text, name, &heap_type),
        Operands::IndexAndSize { index, size } => append_operands(text, name, index, size),
    }
}

// Appends an operator that is only borrowed, so that a long expression is not copied.
#[inline(always)]
fn append_lent(text: &mut Text, operator: &ConstOp) -> Result<(), OutOfMemory>
    ensures { OnOk result (text.new ≡ text.old ++ operator_text operator.now) }
{
    append_followed(text, operator.name(), operator.operands())
}

/// Appends an operator with its operands.
///
/// # Errors
/// `OutOfMemory`; the text may then end anywhere.
pub fn append_operator(text: &mut Text, operator: ConstOp) -> Result<(), OutOfMemory>
    ensures { OnOk result (text.new ≡ text.old ++ operator_text operator) }
{
    append_lent(text, &operator)
}

// Appends what joins two operators.
#[inline(always)]
fn append_joint(text: &mut Text) -> Result<(), OutOfMemory>
    ensures { OnOk result (text.new ≡ text.old ++ codes "; ") }
{
    make_room(&mut text.room, text.used, 2)?;
    let end = put_byte(&mut text.room, text.used, b';');
    text.used = put_byte(&mut text.room, end, b' ');
    Ok(())
}

/// Appends operators, joined by a semicolon and a space.
///
/// # Errors
/// `OutOfMemory`; the text may then end anywhere.
#[inline(always)]
#[tactic(auto, unfolding(crate::specs::Expressions::expression_text))]
pub fn append_expression(text: &mut Text, expression: &ConstExpr) -> Result<(), OutOfMemory>
    ensures { OnOk result (text.new ≡ text.old ++ expression_text expression.now) }
{
    let Some((first, others)) = expression.ops().split_first() else {
        return Ok(());
    };
    append_lent(text, first)?;
    for operator in others {
        append_joint(text)?;
        append_lent(text, operator)?;
    }
    Ok(())
}

// Appends a line: words, a number, and an expression.
#[inline(always)]
pub(crate) fn append_expression_line(
    text: &mut Text,
    words: &str,
    number: u32,
    expression: &ConstExpr,
) -> Result<(), OutOfMemory>
    ensures { OnOk result (text.new ≡ text.old ++ (named_number words.now number ++ codes " " ++ expression_text expression.now ++ codes "\n")) }
{
    append_named(text, words, number)?;
    text.push_byte(b' ')?;
    append_expression(text, expression)?;
    text.push_byte(b'\n')
}
