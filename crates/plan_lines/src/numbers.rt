//! Lines of numbers.

ghost use Rattle.std.specs.Prelude.{◌≡◌, ◌≤◌, ◌+◌, ◌*◌, ◌∷◌, [], ◌++◌, length, OnOk, IfSome, codes, decimal};
ghost use Rattle.wasm_types.specs.Texts.{spaced};
ghost use Rattle.plan_lines.specs.Numbers.{numbers_line, counts_line, named_number};

use crate::digits::{MOST_NUMBER, MOST_SPACED, put_number, put_numbers, put_spaced};
use crate::room::{make_room, put, put_byte};
use crate::text::Text;
use entity_map::OutOfMemory;

// The most bytes of a line of a word and numbers.
#[inline(always)]
fn most_bytes(word: &str, numbers: &[u64]) -> Option<usize>
    ensures { IfSome result (λ n. n ≡ MOST_SPACED * length numbers.now + (length word.now + 1)) }
{
    numbers
        .len()
        .checked_mul(MOST_SPACED)?
        .checked_add(word.len() + 1)
}

/// Appends a line: a word, and numbers.
///
/// # Errors
/// `OutOfMemory`; the text may then end anywhere.
#[inline(always)]
#[tactic(auto, unfolding(crate::specs::Numbers::numbers_line))]
pub fn append_numbers(text: &mut Text, word: &str, numbers: &[u64]) -> Result<(), OutOfMemory>
    ensures { OnOk result (text.new ≡ text.old ++ numbers_line word.now numbers.now) }
{
    let Some(most) = most_bytes(word, numbers) else {
        return Err(OutOfMemory);
    };
    make_room(&mut text.room, text.used, most)?;
    let first = put(&mut text.room, text.used, word.as_bytes());
    let end = put_numbers(&mut text.room, first, numbers);
    text.used = put_byte(&mut text.room, end, b'\n');
    Ok(())
}

// Appends a space and a number.
#[inline(always)]
pub(crate) fn append_number(text: &mut Text, number: u32) -> Result<(), OutOfMemory>
    ensures { OnOk result (text.new ≡ text.old ++ (codes " " ++ decimal number)) }
{
    make_room(&mut text.room, text.used, MOST_SPACED)?;
    text.used = put_spaced(&mut text.room, text.used, number.into());
    Ok(())
}

// Appends words, a space and a number.
#[inline(always)]
#[tactic(auto, unfolding(crate::specs::Numbers::named_number))]
pub(crate) fn append_named(text: &mut Text, words: &str, number: u32) -> Result<(), OutOfMemory>
    ensures { OnOk result (text.new ≡ text.old ++ named_number words.now number) }
{
    make_room(&mut text.room, text.used, words.len() + MOST_SPACED)?;
    let end = put(&mut text.room, text.used, words.as_bytes());
    text.used = put_spaced(&mut text.room, end, number.into());
    Ok(())
}

// Appends a number between words.
#[inline(always)]
pub(crate) fn append_between(
    text: &mut Text,
    before: &str,
    number: u64,
    after: &str,
) -> Result<(), OutOfMemory>
    requires { length before.now + length after.now ≤ 100 }
    ensures { OnOk result (text.new ≡ text.old ++ before.now ++ decimal number ++ after.now) }
{
    make_room(
        &mut text.room,
        text.used,
        before.len() + MOST_NUMBER + after.len(),
    )?;
    let first = put(&mut text.room, text.used, before.as_bytes());
    let end = put_number(&mut text.room, first, number);
    text.used = put(&mut text.room, end, after.as_bytes());
    Ok(())
}

/// Appends how many entities are imported, and how many are defined.
///
/// # Errors
/// `OutOfMemory`; the text may then end anywhere.
pub fn append_counts(
    text: &mut Text,
    word: &str,
    imported: usize,
    all: usize,
) -> Result<(), OutOfMemory>
    requires { imported ≤ all }
    ensures { OnOk result (text.new ≡ text.old ++ counts_line word.now imported all) }
{
    append_numbers(text, word, &[imported as u64, (all - imported) as u64])
}
