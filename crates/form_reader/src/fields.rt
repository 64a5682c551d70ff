//! Storage and field types (core specification, 5.3, composite types).

ghost use Rattle.std.specs.Prelude.{◌≡◌};
ghost use Rattle.wasm_spec.specs.declared.types.FieldType as declared;
ghost use Rattle.form_reader.specs.Reading.{Reads};
ghost use Rattle.form_reader.specs.TypeRows.{storage_type, mutability, field_type};

use crate::cursor::Cursor;
use crate::error::ReadError;
use crate::vectors::Entry;
use std::alloc::Global;
use wasm_spec::{FieldType, StorageType};

/// The bytes of the packed types.
const I8: u8 = 0x78;

const I16: u8 = 0x77;

impl<'d> Entry<'d> for FieldType {
    type Value = FieldType;

    ghost Data = { declared.FieldType };

    ghost form = { field_type.read };

    ghost view = { λ x. x };

    #[inline]
    fn read(_alloc: Global, cursor: &mut Cursor<'d>) -> Result<FieldType, ReadError> {
        cursor.field_type()
    }
}

impl<'d> Cursor<'d> {
    /// A packed type, or a value type.
    #[tactic(auto, unfolding(crate::specs::TypeRows::storage_type))]
    fn storage_type(&mut self) -> Result<StorageType, ReadError>
        ensures { Reads storage_type.read (λ x. x) self.old.rest.now self.new.rest.now result }
    {
        match self.byte()? {
            I8 => Ok(StorageType::I8),
            I16 => Ok(StorageType::I16),
            first => Ok(StorageType::Val(self.value_after(first)?)),
        }
    }

    /// Whether what was read before may change.
    #[tactic(auto, unfolding(crate::specs::TypeRows::mutability))]
    pub fn mutability(&mut self) -> Result<bool, ReadError>
        ensures { Reads mutability.read (λ x. x) self.old.rest.now self.new.rest.now result }
    {
        match self.byte()? {
            0 => Ok(false),
            1 => Ok(true),
            _ => Err(ReadError::Malformed),
        }
    }

    /// A field type.
    #[tactic(auto, unfolding(crate::specs::TypeRows::field_type))]
    pub fn field_type(&mut self) -> Result<FieldType, ReadError>
        ensures { Reads field_type.read (λ x. x) self.old.rest.now self.new.rest.now result }
    {
        let element_type = self.storage_type()?;
        let mutable = self.mutability()?;
        Ok(FieldType {
            element_type,
            mutable,
        })
    }
}
