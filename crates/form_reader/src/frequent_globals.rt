//! Global types (core specification, 5.3, global types), with a separate path for frequent ones.

ghost use Rattle.std.specs.Prelude.{◌≡◌, Ok, IfSome};
ghost use Rattle.form_reader.specs.Reading.{Gives, Reads, rest_at};
ghost use Rattle.form_reader.specs.TypeRows.{heap_type, value_type, mutability, global_type};

use crate::bytes::first_byte;
use crate::cursor::Cursor;
use crate::error::ReadError;
use crate::value_types::{NOT_NULLABLE, NULLABLE, number_type};
use wasm_spec::{GlobalType, HeapType, RefType, UnpackedIndex, ValType};

/// A type index of one byte, and the bytes after it.
#[inline(always)]
fn short_index(bytes: &[u8]) -> Option<(HeapType, &[u8])>
    ensures { IfSome result (λ x. heap_type.read bytes.now ≡ Ok (x.0, x.1.now)) }
{
    match first_byte(bytes) {
        Some((first, rest)) if first < 64 => {
            let index = UnpackedIndex::Module(u32::from(first));
            Some((HeapType::Concrete(index), rest))
        }
        _ => None,
    }
}

/// A frequent value type, and the bytes after it.
#[inline(always)]
fn frequent_value_type(bytes: &[u8]) -> Option<(ValType, &[u8])>
    ensures { IfSome result (λ x. value_type.read bytes.now ≡ Ok (x.0, x.1.now)) }
{
    let (first, rest) = first_byte(bytes)?;
    if let Some(number) = number_type(first) {
        return Some((number, rest));
    }
    if first == NULLABLE || first == NOT_NULLABLE {
        let (heap, after) = short_index(rest)?;
        let nullable = first == NULLABLE;
        return Some((ValType::Ref(RefType { nullable, heap }), after));
    }
    None
}

/// Whether a global may change, and the bytes after that.
#[inline(always)]
fn short_mutability(bytes: &[u8]) -> Option<(bool, &[u8])>
    ensures { IfSome result (λ x. mutability.read bytes.now ≡ Ok (x.0, x.1.now)) }
{
    match first_byte(bytes) {
        Some((flag, rest)) if flag < 2 => Some((flag == 1, rest)),
        _ => None,
    }
}

/// A frequent global type, and the bytes after it.
#[inline(always)]
#[tactic(auto, unfolding(crate::specs::TypeRows::global_type))]
fn frequent_global_type(bytes: &[u8]) -> Option<(GlobalType, &[u8])>
    ensures { IfSome result (λ x. global_type.read bytes.now ≡ Ok (x.0, x.1.now)) }
{
    let (content_type, rest) = frequent_value_type(bytes)?;
    let (mutable, after) = short_mutability(rest)?;
    Some((
        GlobalType {
            content_type,
            mutable,
        },
        after,
    ))
}

impl<'d> Cursor<'d> {
    /// A global type.
    #[inline(always)]
    pub fn global_type(&mut self) -> Result<GlobalType, ReadError>
        ensures { Reads global_type.read (λ x. x) self.old.rest.now self.new.rest.now result }
    {
        match frequent_global_type(self.rest) {
            Some((ty, rest)) => {
                self.rest = rest;
                Ok(ty)
            }
            None => self.any_global_type(),
        }
    }

    /// Moves past a global type.
    #[inline(always)]
    #[tactic(auto, unfolding(crate::specs::Reading::rest_at))]
    pub fn pass_global_type(&mut self) -> Result<(), ReadError>
        ensures { Gives (λ u. self.new.rest.now) result (rest_at global_type.read self.old.rest.now) }
    {
        self.global_type()?;
        Ok(())
    }
}
