//! Constant expressions that are passed over (core specification, 5.4, expressions): their operators
//! are not kept.

ghost use Rattle.std.specs.Prelude.{◌≡◌, Ok, IfSome};
ghost use Rattle.form_reader.specs.Reading.{Gives, rest_at};
ghost use Rattle.form_reader.specs.ReadingNumbers.{unsigned_at, signed_at};
ghost use Rattle.form_reader.specs.ExpressionRows.{operator_after};
ghost use Rattle.form_reader.specs.ExpressionLaws.{expression_at};

use crate::bytes::first_byte;
use crate::cursor::Cursor;
use crate::error::ReadError;
use crate::operators::{END, I32_CONST};
use wasm_spec::Operator;

/// The bytes after an unsigned number of 32 bits.
#[inline(always)]
#[tactic(auto, unfolding(crate::specs::Reading::rest_at))]
fn past_u32(bytes: &[u8]) -> Option<&[u8]>
    ensures { IfSome result (λ rest. rest_at (unsigned_at 32) bytes.now ≡ Ok rest.now) }
{
    let mut ahead = Cursor { rest: bytes };
    match ahead.u32() {
        Ok(_) => Some(ahead.rest),
        Err(_) => None,
    }
}

/// The bytes after a signed number of 32 bits.
#[inline(always)]
#[tactic(auto, unfolding(crate::specs::Reading::rest_at))]
fn past_s32(bytes: &[u8]) -> Option<&[u8]>
    ensures { IfSome result (λ rest. rest_at (signed_at 32) bytes.now ≡ Ok rest.now) }
{
    let mut ahead = Cursor { rest: bytes };
    match ahead.s32() {
        Ok(_) => Some(ahead.rest),
        Err(_) => None,
    }
}

/// The bytes after a frequent operator, of which the first byte was read.
#[inline(always)]
fn past_operator(first: u8, bytes: &[u8]) -> Option<&[u8]>
    ensures { IfSome result (λ rest. rest_at (operator_after first).read bytes.now ≡ Ok rest.now) }
{
    match first {
        0x23 | 0xD2 => past_u32(bytes),
        I32_CONST => past_s32(bytes),
        0x6A => Some(bytes),
        0xFB => past_object(bytes),
        _ => None,
    }
}

/// The bytes after `struct.new` or `struct.new_default`, of which the first byte was read.
#[inline(always)]
fn past_object(bytes: &[u8]) -> Option<&[u8]>
    ensures { IfSome result (λ rest. rest_at (operator_after 0xFB).read bytes.now ≡ Ok rest.now) }
{
    match first_byte(bytes) {
        Some((number, rest)) if number < 2 => past_u32(rest),
        _ => None,
    }
}

/// The bytes after an expression, if each of its operators is a frequent one.
fn past_expression(bytes: &[u8]) -> Option<&[u8]>
    ensures { IfSome result (λ rest. rest_at expression_at bytes.now ≡ Ok rest.now) }
{
    // Each operator takes a byte at least.
    let most = bytes.len();
    let mut rest = bytes;
    'operators: for _ in 0..most {
        let (first, after) = first_byte(rest)?;
        if first == END {
            return Some(after);
        }
        rest = past_operator(first, after)?;
    }
    None
}

impl<'d> Cursor<'d> {
    /// Moves past an expression. It may overwrite `ops`, which are no longer needed.
    #[tactic(auto, unfolding(crate::specs::Reading::rest_at))]
    pub fn pass_expression(&mut self, ops: &mut Vec<Operator>) -> Result<(), ReadError>
        ensures { Gives (λ u. self.new.rest.now) result (rest_at expression_at self.old.rest.now) }
    {
        match past_expression(self.rest) {
            Some(rest) => {
                self.rest = rest;
                Ok(())
            }
            None => self.expression_into(ops),
        }
    }
}
