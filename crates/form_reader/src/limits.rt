//! Memory types, and the limits of tables (core specification, 5.3, limits).

ghost use Rattle.std.specs.Prelude.{◌≡◌, ◌<◌, if◌then◌else◌};
ghost use Rattle.wasm_spec.specs.declared.entities.MemoryType as declared;
ghost use Rattle.wasm_spec.specs.TypeGrammar.{has_bit};
ghost use Rattle.form_reader.specs.Reading.{Reads, optional_at};
ghost use Rattle.form_reader.specs.ReadingNumbers.{unsigned_at};
ghost use Rattle.form_reader.specs.TypeRows.{memory_type, flagged_memory_type, table_limits, flagged_table_type};

use crate::cursor::Cursor;
use crate::error::ReadError;
use crate::vectors::Entry;
use std::alloc::Global;
use wasm_spec::{MemoryType, RefType, TableType};

/// Which bit of the flags says what.
const HAS_MAXIMUM: u8 = 0;

const IS_SHARED: u8 = 1;

const IS_64: u8 = 2;

const HAS_PAGE_SIZE: u8 = 3;

fn is_set(flags: u8, bit: u8) -> bool
    requires { bit < 8 }
    ensures { result ≡ has_bit bit flags }
{
    (flags >> bit) & 1 == 1
}

impl<'d> Entry<'d> for MemoryType {
    type Value = MemoryType;

    ghost Data = { declared.MemoryType };

    ghost form = { memory_type.read };

    ghost view = { λ x. x };

    fn read(_alloc: Global, cursor: &mut Cursor<'d>) -> Result<MemoryType, ReadError> {
        cursor.memory_type()
    }
}

impl<'d> Cursor<'d> {
    /// A number of 64 bits, or of 32.
    fn address(&mut self, memory64: bool) -> Result<u64, ReadError>
        ensures { Reads (unsigned_at (if memory64 then 64 else 32)) (λ x. x) self.old.rest.now self.new.rest.now result }
    {
        if memory64 {
            self.u64()
        } else {
            Ok(u64::from(self.u32()?))
        }
    }

    /// A maximum, where there is one.
    fn maximum(&mut self, present: bool, memory64: bool) -> Result<Option<u64>, ReadError>
        ensures { Reads (optional_at present (unsigned_at (if memory64 then 64 else 32))) (λ x. x) self.old.rest.now self.new.rest.now result }
    {
        if !present {
            return Ok(None);
        }
        Ok(Some(self.address(memory64)?))
    }

    /// The exponent of a page size, where there is one.
    fn page_size(&mut self, present: bool) -> Result<Option<u32>, ReadError>
        ensures { Reads (optional_at present (unsigned_at 32)) (λ x. x) self.old.rest.now self.new.rest.now result }
    {
        if !present {
            return Ok(None);
        }
        Ok(Some(self.u32()?))
    }

    /// What follows the flags of a memory type.
    #[tactic(auto, unfolding(crate::specs::TypeRows::flagged_memory_type))]
    fn flagged_memory_type(&mut self, flags: u8) -> Result<MemoryType, ReadError>
        ensures { Reads (flagged_memory_type flags).read (λ x. x) self.old.rest.now self.new.rest.now result }
    {
        let memory64 = is_set(flags, IS_64);
        let initial = self.address(memory64)?;
        let maximum = self.maximum(is_set(flags, HAS_MAXIMUM), memory64)?;
        let page_size_log2 = self.page_size(is_set(flags, HAS_PAGE_SIZE))?;
        Ok(MemoryType {
            memory64,
            shared: is_set(flags, IS_SHARED),
            initial,
            maximum,
            page_size_log2,
        })
    }

    /// A memory type.
    #[tactic(auto, unfolding(crate::specs::TypeRows::memory_type))]
    pub fn memory_type(&mut self) -> Result<MemoryType, ReadError>
        ensures { Reads memory_type.read (λ x. x) self.old.rest.now self.new.rest.now result }
    {
        let flags = self.byte()?;
        if flags >= 16 {
            return Err(ReadError::Malformed);
        }
        self.flagged_memory_type(flags)
    }

    /// What follows the flags of a table.
    #[tactic(auto, unfolding(crate::specs::TypeRows::flagged_table_type))]
    fn flagged_table_type(
        &mut self,
        element_type: RefType,
        flags: u8,
    ) -> Result<TableType, ReadError>
        ensures { Reads (flagged_table_type element_type flags).read (λ x. x) self.old.rest.now self.new.rest.now result }
    {
        let table64 = is_set(flags, IS_64);
        let initial = self.address(table64)?;
        let maximum = self.maximum(is_set(flags, HAS_MAXIMUM), table64)?;
        Ok(TableType {
            element_type,
            table64,
            initial,
            maximum,
        })
    }

    /// What follows the reference type of a table. Tables are never shared.
    #[tactic(auto, unfolding(crate::specs::TypeRows::table_limits))]
    pub fn table_limits(&mut self, element_type: RefType) -> Result<TableType, ReadError>
        ensures { Reads (table_limits element_type).read (λ x. x) self.old.rest.now self.new.rest.now result }
    {
        match self.byte()? {
            flags if flags < 8 && !is_set(flags, IS_SHARED) => {
                self.flagged_table_type(element_type, flags)
            }
            _ => Err(ReadError::Malformed),
        }
    }
}
