//! Offsets of segments (core specification, 5.4, expressions): most are one constant.

ghost use Rattle.std.specs.Prelude.{◌≡◌, ℕ, List, [], ◌∷◌, Ok, IfSome, IfOk, OnOk};
ghost use Rattle.wasm_spec.specs.declared.operators.Operator.TheVariants.{I32Const};
ghost use Rattle.form_reader.specs.Reading.{Reads};
ghost use Rattle.form_reader.specs.ReadingNumbers.{unsigned_at, signed_at};
ghost use Rattle.form_reader.specs.ExpressionLaws.{expression_at};

use crate::bytes::first_byte;
use crate::cursor::Cursor;
use crate::error::ReadError;
use crate::operators::{END, I32_CONST};
use std::alloc::{AllocError, Global};
use wasm_spec::Operator;

/// A signed number before an end mark, and the bytes after the mark, if these come next.
#[inline(always)]
fn ended_s32(bytes: &[u8]) -> Option<(i32, &[u8])>
    ensures { IfSome result (λ x. signed_at 32 bytes.now ≡ Ok (x.0, 0x0B ∷ x.1.now)) }
{
    let mut ahead = Cursor { rest: bytes };
    match ahead.s32() {
        Ok(value) => match first_byte(ahead.rest) {
            Some((byte, rest)) if byte == END => Some((value, rest)),
            _ => None,
        },
        Err(_) => None,
    }
}

/// The number of an expression of one `i32.const`, and the bytes after the expression, if it comes
/// next.
#[inline(always)]
fn one_constant(bytes: &[u8]) -> Option<(i32, &[u8])>
    ensures { IfSome result (λ x. expression_at bytes.now ≡ Ok (I32Const x.0 ∷ [], x.1.now)) }
{
    match first_byte(bytes) {
        Some((byte, rest)) if byte == I32_CONST => ended_s32(rest),
        _ => None,
    }
}

/// The number of an `i32.const` after flag 0, if it is a whole offset, and the bytes after it.
#[inline(always)]
pub fn flagged_constant(bytes: &[u8]) -> Option<(i32, &[u8])>
    ensures { IfSome result (λ x. (after_flag : List ℕ) × (unsigned_at 32 bytes.now ≡ Ok (0, after_flag))
        × (expression_at after_flag ≡ Ok (I32Const x.0 ∷ [], x.1.now))) }
{
    match first_byte(bytes) {
        Some((flag, rest)) if flag == 0 => one_constant(rest),
        _ => None,
    }
}

/// A list of one operator.
#[inline(always)]
pub fn one_operator(alloc: Global, operator: Operator) -> Result<Vec<Operator>, AllocError>
    ensures { IfOk result (λ ops. ops.items ≡ operator ∷ []) }
{
    let mut ops = Vec::with_capacity(alloc, 1)?;
    ops.push_reserved(operator);
    Ok(ops)
}

/// Overwrites a list, whose contents are no longer needed, with one operator.
#[inline(always)]
pub fn write_only(ops: &mut Vec<Operator>, operator: Operator) -> Result<(), AllocError>
    ensures { OnOk result (ops.new.items ≡ operator ∷ []) }
{
    if let [only] = ops.as_mut_slice() {
        *only = operator;
        return Ok(());
    }
    ops.clear();
    ops.reserve_exact(1)?;
    ops.push_reserved(operator);
    Ok(())
}

impl<'d> Cursor<'d> {
    /// As `expression_into`.
    #[inline(always)]
    pub fn offset_into(&mut self, ops: &mut Vec<Operator>) -> Result<(), ReadError>
        ensures { Reads expression_at (λ u. ops.new.items) self.old.rest.now self.new.rest.now result }
    {
        match one_constant(self.rest) {
            Some((value, rest)) => {
                self.rest = rest;
                write_only(ops, Operator::I32Const { value })?;
                Ok(())
            }
            None => self.expression_into(ops),
        }
    }
}
