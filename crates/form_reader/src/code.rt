//! Function bodies (core specification, 5.5, code section).

ghost use Rattle.std.specs.Prelude.{◌≡◌, ◌+◌, ◌<◌, ◌^◌, ℕ, length};
ghost use Rattle.wasm_spec.specs.declared.types.ValType as declared;
ghost use Rattle.wasm_spec.specs.Module as plain;
ghost use Rattle.form_reader.specs.Views.{body_of, payload_of};
ghost use Rattle.form_reader.specs.Reading.{Reads};
ghost use Rattle.form_reader.specs.SectionRows.{locals_run, body, code_at};

use crate::cursor::Cursor;
use crate::error::ReadError;
use crate::vectors::Entry;
use crate::{FunctionBody, Payload};
use std::alloc::Global;
use wasm_spec::ValType;

/// A count of locals of one type.
impl<'d> Entry<'d> for (u32, ValType) {
    type Value = (u32, ValType);

    ghost Data = { ℕ × declared.ValType };

    ghost form = { locals_run.read };

    ghost view = { λ x. x };

    #[tactic(auto, unfolding(crate::specs::SectionRows::locals_run))]
    fn read(_alloc: Global, cursor: &mut Cursor<'d>) -> Result<(u32, ValType), ReadError> {
        let count = cursor.u32()?;
        let ty = cursor.value_type()?;
        Ok((count, ty))
    }
}

impl<'d> Entry<'d> for FunctionBody<'d> {
    type Value = FunctionBody<'d>;

    ghost Data = { plain.Body };

    ghost form = { body.read };

    ghost view = { body_of };

    /// A size, locals, and whatever follows inside the size.
    #[tactic(auto, unfolding(crate::specs::SectionRows::body, crate::specs::ReadingNumbers::sized_at))]
    fn read(alloc: Global, cursor: &mut Cursor<'d>) -> Result<FunctionBody<'d>, ReadError> {
        let mut body = cursor.sized()?;
        let locals = body.vector::<(u32, ValType)>(alloc)?;
        let rest = body.rest;
        Ok(FunctionBody { locals, rest })
    }
}

impl<'d> Cursor<'d> {
    /// The function bodies that fill a section, and the offset of their count in the input. The
    /// size of the section is at the offset `place`.
    #[tactic(auto, unfolding(crate::specs::SectionRows::code_at, crate::specs::Reading::whole))]
    pub fn code(&mut self, alloc: Global, place: usize) -> Result<Payload<'d>, ReadError>
        requires { place + length self.now.rest.now < 2 ^ 30 }
        ensures { Reads (code_at place).read payload_of self.old.rest.now self.new.rest.now result }
    {
        let before = self.rest.len();
        let size = self.u32()?;
        let offset = (place + (before - self.rest.len())) as u64;
        let mut body = Cursor {
            rest: self.raw_bytes(size)?,
        };
        let bodies = body.vector::<FunctionBody<'d>>(alloc)?;
        if !body.rest.is_empty() {
            return Err(ReadError::Malformed);
        }
        Ok(Payload::Code { offset, bodies })
    }
}
