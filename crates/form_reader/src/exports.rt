//! Exports (core specification, 5.5, export section).

ghost use Rattle.wasm_spec.specs.Module as plain;
ghost use Rattle.form_reader.specs.Views.{export_of};
ghost use Rattle.form_reader.specs.Reading.{Reads};
ghost use Rattle.form_reader.specs.SectionRows.{external_kind, export_entry};

use crate::Export;
use crate::cursor::Cursor;
use crate::error::ReadError;
use crate::vectors::Entry;
use std::alloc::Global;
use wasm_spec::ExternalKind;

impl<'d> Entry<'d> for Export<'d> {
    type Value = Export<'d>;

    ghost Data = { plain.Export };

    ghost form = { export_entry.read };

    ghost view = { export_of };

    #[tactic(auto, unfolding(crate::specs::SectionRows::export_entry))]
    fn read(_alloc: Global, cursor: &mut Cursor<'d>) -> Result<Export<'d>, ReadError> {
        let name = cursor.name()?;
        let kind = cursor.external_kind()?;
        let index = cursor.u32()?;
        Ok(Export { name, kind, index })
    }
}

impl<'d> Cursor<'d> {
    /// The kind of an export.
    #[tactic(auto, unfolding(crate::specs::SectionRows::external_kind))]
    fn external_kind(&mut self) -> Result<ExternalKind, ReadError>
        ensures { Reads external_kind.read (λ x. x) self.old.rest.now self.new.rest.now result }
    {
        match self.byte()? {
            0x00 => Ok(ExternalKind::Func),
            0x01 => Ok(ExternalKind::Table),
            0x02 => Ok(ExternalKind::Memory),
            0x03 => Ok(ExternalKind::Global),
            0x04 => Ok(ExternalKind::Tag),
            _ => Err(ReadError::Malformed),
        }
    }
}
