//! Numbers, as `locate` reads them.

ghost use Rattle.std.specs.Prelude.{IfOk};
ghost use Rattle.refusal_place.specs.Found.{IsNumberRead};

use entity_map::OutOfMemory;
use form_reader::{Cursor, ReadError};

/// The unsigned number of 32 bits at the front, where one is read.
pub(crate) fn read_number(cursor: &mut Cursor<'_>) -> Result<Option<u32>, OutOfMemory>
    ensures { IfOk result (IsNumberRead cursor.old.rest.now cursor.new.rest.now) }
{
    match cursor.u32() {
        Ok(number) => Ok(Some(number)),
        Err(ReadError::OutOfMemory) => Err(OutOfMemory),
        Err(ReadError::Malformed) => Ok(None),
        Err(ReadError::Unsupported(_)) => Ok(None),
        Err(ReadError::TooLarge) => Ok(None),
    }
}
