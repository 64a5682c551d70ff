//! Lists of value types, most of which are number types (core specification, 5.3, value types).

ghost use Rattle.std.specs.Prelude.{◌≡◌, ◌≤◌, ◌-◌, ◌++◌, ℕ, IfOk, IfSome, Ok, vec_len};
ghost use Rattle.form_reader.specs.Reading.{Reads, and_then, elements_at};
ghost use Rattle.form_reader.specs.ReadingNumbers.{vector_at};
ghost use Rattle.form_reader.specs.TypeRows.{value_type};

use crate::bytes::first_byte;
use crate::cursor::Cursor;
use crate::error::ReadError;
use crate::value_types::number_type;
use crate::vectors::MOST_ROOM;
use std::alloc::{AllocError, Global};
use wasm_spec::ValType;

/// The number type that comes next, if one does, and the bytes after it.
#[inline(always)]
#[tactic(auto, unfolding(crate::specs::TypeRows::value_type, crate::specs::TypeRows::value_after))]
fn next_number(bytes: &[u8]) -> Option<(ValType, &[u8])>
    ensures { IfSome result (λ x. value_type.read bytes.now ≡ Ok (x.0, x.1.now)) }
{
    let (byte, rest) = first_byte(bytes)?;
    let number = number_type(byte)?;
    Some((number, rest))
}

/// The number types at the front of the bytes, at most `most`, in a list with capacity for so many,
/// and the bytes after them.
#[inline(always)]
fn number_run(alloc: Global, bytes: &[u8], most: usize) -> Result<(Vec<ValType>, &[u8]), AllocError>
    ensures few { IfOk result (λ x. vec_len x.0 ≤ most) }
    ensures run { IfOk result (λ x. (n : ℕ) → most ≤ n → and_then (elements_at value_type.read (n - vec_len x.0) x.1.now) (λ y. Ok (x.0.items ++ y.0, y.1)) ≡ elements_at value_type.read n bytes.now) }
{
    let mut all = Vec::with_capacity(alloc, most)?;
    let mut rest = bytes;
    'run: for _ in 0..most {
        let Some((number, after)) = next_number(rest) else {
            return Ok((all, rest));
        };
        all.push_reserved(number);
        rest = after;
    }
    Ok((all, rest))
}

impl<'d> Cursor<'d> {
    /// As `vector`. The number types at the front are read in a run.
    #[tactic(auto, unfolding(crate::specs::ReadingNumbers::vector_at))]
    pub fn value_types(&mut self, alloc: Global) -> Result<Vec<ValType>, ReadError>
        ensures { Reads (vector_at value_type.read) (λ v. v.items) self.old.rest.now self.new.rest.now result }
    {
        let count = self.u32()?;
        let most = (count as usize).min(self.rest.len()).min(MOST_ROOM);
        let (mut all, rest) = number_run(alloc, self.rest, most)?;
        self.rest = rest;
        let left = count as usize - all.len();
        'others: for _ in 0..left {
            let one = self.value_type()?;
            all.push(one)?;
        }
        Ok(all)
    }
}
