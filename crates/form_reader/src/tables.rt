//! Tables (core specification, 5.5, table section).

ghost use Rattle.wasm_spec.specs.Module as plain;
ghost use Rattle.form_reader.specs.Views.{table_of};
ghost use Rattle.form_reader.specs.Reading.{Reads};
ghost use Rattle.form_reader.specs.SectionRows.{initialised_table, table_entry};

use crate::TableDef;
use crate::cursor::Cursor;
use crate::error::ReadError;
use crate::vectors::Entry;
use std::alloc::Global;

/// The byte before a table that says what its cells hold at first, and the byte after that one.
const INITIALISED: u8 = 0x40;

const RESERVED: u8 = 0x00;

impl<'d> Entry<'d> for TableDef {
    type Value = TableDef;

    ghost Data = { plain.TableDef };

    ghost form = { table_entry.read };

    ghost view = { table_of };

    /// A table type alone, or with what its cells hold at first.
    #[tactic(auto, unfolding(crate::specs::SectionRows::table_entry))]
    fn read(alloc: Global, cursor: &mut Cursor<'d>) -> Result<TableDef, ReadError> {
        let first = cursor.byte()?;
        if first == INITIALISED {
            return cursor.initialised_table(alloc);
        }
        let element_type = cursor.reference_after(first)?;
        let ty = cursor.table_limits(element_type)?;
        Ok(TableDef { ty, init: None })
    }
}

impl<'d> Cursor<'d> {
    /// A table and what its cells hold at first, after the first byte.
    #[tactic(auto, unfolding(crate::specs::SectionRows::initialised_table))]
    fn initialised_table(&mut self, alloc: Global) -> Result<TableDef, ReadError>
        ensures { Reads initialised_table.read table_of self.old.rest.now self.new.rest.now result }
    {
        if self.byte()? != RESERVED {
            return Err(ReadError::Malformed);
        }
        let ty = self.table_type()?;
        let init = self.expression(alloc)?;
        Ok(TableDef {
            ty,
            init: Some(init),
        })
    }
}
