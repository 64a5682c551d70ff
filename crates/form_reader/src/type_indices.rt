//! Functions and tags that a module defines, each by the index of its type (core specification,
//! 5.5, function section and tag section).

ghost use Rattle.std.specs.Prelude.{ℕ, refl};
ghost use Rattle.wasm_spec.specs.Module as plain;
ghost use Rattle.form_reader.specs.ReadingNumbers.{unsigned_at};
ghost use Rattle.form_reader.specs.TypeRows.{tag_type};

use crate::Payload;
use crate::cursor::Cursor;
use crate::error::ReadError;
use crate::input::InputEntries;
use crate::input_vectors::{InputEntry, InputVector};
use std::alloc::Global;

/// The entries of the function section.
pub struct DefinedFunction;

/// The entries of the tag section.
pub struct DefinedTag;

impl<'d> InputEntry<'d> for DefinedFunction {
    type Value = u32;

    ghost Data = { ℕ };

    ghost form = { unsigned_at 32 };

    ghost view = { λ x. x };

    ghost of_section = { plain.function_types_of_section };

    ghost no_customs = { λ name bytes. refl };

    fn in_payload<'f>(payload: &'f Payload<'d>) -> &'f [u32] {
        match payload {
            Payload::Functions(types) => types.as_slice(),
            _ => &[],
        }
    }

    #[tactic(auto, using(crate::proofs::Listed::none_there))]
    fn in_input(entries: InputEntries<'d>) -> InputVector<'d> {
        match entries {
            InputEntries::Functions(types) => types,
            _ => InputVector::none(),
        }
    }

    #[inline]
    fn none(_alloc: Global) -> u32 {
        0
    }

    #[inline]
    fn read_into(ty: &mut u32, _alloc: Global, cursor: &mut Cursor<'d>) -> Result<(), ReadError> {
        *ty = cursor.u32()?;
        Ok(())
    }

    #[inline]
    #[tactic(auto, unfolding(crate::specs::Reading::rest_at))]
    fn pass(ty: &mut u32, alloc: Global, cursor: &mut Cursor<'d>) -> Result<(), ReadError> {
        Self::read_into(ty, alloc, cursor)
    }
}

impl<'d> InputEntry<'d> for DefinedTag {
    type Value = u32;

    ghost Data = { ℕ };

    ghost form = { tag_type.read };

    ghost view = { λ x. x };

    ghost of_section = { plain.tags_of_section };

    ghost no_customs = { λ name bytes. refl };

    fn in_payload<'f>(payload: &'f Payload<'d>) -> &'f [u32] {
        match payload {
            Payload::Tags(types) => types.as_slice(),
            _ => &[],
        }
    }

    #[tactic(auto, using(crate::proofs::Listed::none_there))]
    fn in_input(entries: InputEntries<'d>) -> InputVector<'d> {
        match entries {
            InputEntries::Tags(types) => types,
            _ => InputVector::none(),
        }
    }

    #[inline]
    fn none(_alloc: Global) -> u32 {
        0
    }

    #[inline]
    fn read_into(ty: &mut u32, _alloc: Global, cursor: &mut Cursor<'d>) -> Result<(), ReadError> {
        *ty = cursor.tag_type()?;
        Ok(())
    }

    #[inline]
    #[tactic(auto, unfolding(crate::specs::Reading::rest_at))]
    fn pass(ty: &mut u32, alloc: Global, cursor: &mut Cursor<'d>) -> Result<(), ReadError> {
        Self::read_into(ty, alloc, cursor)
    }
}
