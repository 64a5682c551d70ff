//! Table, global and tag types (core specification, 5.3, table, global and tag types).

ghost use Rattle.std.specs.Prelude.{◌≡◌};
ghost use Rattle.form_reader.specs.Reading.{Reads};
ghost use Rattle.form_reader.specs.TypeRows.{table_type, global_type, tag_type};

use crate::cursor::Cursor;
use crate::error::ReadError;
use wasm_spec::{GlobalType, TableType};

impl<'d> Cursor<'d> {
    /// A table type.
    #[tactic(auto, unfolding(crate::specs::TypeRows::table_type))]
    pub fn table_type(&mut self) -> Result<TableType, ReadError>
        ensures { Reads table_type.read (λ x. x) self.old.rest.now self.new.rest.now result }
    {
        let element_type = self.reference_type()?;
        self.table_limits(element_type)
    }

    /// A global type, whether it is frequent or not.
    #[tactic(auto, unfolding(crate::specs::TypeRows::global_type))]
    pub fn any_global_type(&mut self) -> Result<GlobalType, ReadError>
        ensures { Reads global_type.read (λ x. x) self.old.rest.now self.new.rest.now result }
    {
        let content_type = self.value_type()?;
        let mutable = self.mutability()?;
        Ok(GlobalType {
            content_type,
            mutable,
        })
    }

    /// A tag type, which is the index of its function type.
    #[inline(always)]
    #[tactic(auto, unfolding(crate::specs::TypeRows::tag_type))]
    pub fn tag_type(&mut self) -> Result<u32, ReadError>
        ensures { Reads tag_type.read (λ x. x) self.old.rest.now self.new.rest.now result }
    {
        match self.byte()? {
            0 => self.u32(),
            _ => Err(ReadError::Malformed),
        }
    }
}
