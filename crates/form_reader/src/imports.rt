//! Imports (core specification, 5.5, import section).

ghost use Rattle.wasm_spec.specs.Module as plain;
ghost use Rattle.form_reader.specs.Views.{import_of};
ghost use Rattle.form_reader.specs.Reading.{Reads};
ghost use Rattle.form_reader.specs.SectionRows.{imported_after, import_entry};

use crate::Import;
use crate::cursor::Cursor;
use crate::error::ReadError;
use crate::vectors::Entry;
use std::alloc::Global;
use wasm_spec::{TypeRef, What};

impl<'d> Entry<'d> for Import<'d> {
    type Value = Import<'d>;

    ghost Data = { plain.Import };

    ghost form = { import_entry.read };

    ghost view = { import_of };

    /// The names of its module and its own, and what it is.
    #[tactic(auto, unfolding(crate::specs::SectionRows::import_entry))]
    fn read(_alloc: Global, cursor: &mut Cursor<'d>) -> Result<Import<'d>, ReadError> {
        let module = cursor.name()?;
        let name = cursor.name()?;
        let kind = cursor.byte()?;
        let ty = cursor.imported(kind)?;
        Ok(Import { module, name, ty })
    }
}

impl<'d> Cursor<'d> {
    /// What is imported, after the byte of its kind.
    #[tactic(auto, unfolding(crate::specs::SectionRows::imported_after))]
    fn imported(&mut self, kind: u8) -> Result<TypeRef, ReadError>
        ensures { Reads (imported_after kind).read (λ x. x) self.old.rest.now self.new.rest.now result }
    {
        match kind {
            0x00 => Ok(TypeRef::Func(self.u32()?)),
            0x01 => Ok(TypeRef::Table(self.table_type()?)),
            0x02 => Ok(TypeRef::Memory(self.memory_type()?)),
            0x03 => Ok(TypeRef::Global(self.global_type()?)),
            0x04 => Ok(TypeRef::Tag(self.tag_type()?)),
            0x20 => Err(ReadError::Unsupported(What::ExactImport)),
            _ => Err(ReadError::Malformed),
        }
    }
}
