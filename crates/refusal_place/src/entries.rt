//! The first entry of a section that is not read.

ghost use Rattle.std.specs.Prelude.{◌≡◌, IfOk, Err};
ghost use Rattle.form_reader.specs.Reading.{Fault as ReadFault, whole};
ghost use Rattle.form_reader.specs.ReadingNumbers.{vector_at};
ghost use Rattle.refusal_place.specs.Found.{IsEntryRead, IsEntriesFault, Shortens};

use crate::contents::ContentsFault;
use crate::numbers::read_number;
use crate::place::Fault;
use entity_map::OutOfMemory;
use form_reader::{Cursor, Entry, InputEntry, ReadError};
use std::alloc::Global;
use std::marker::PhantomData;

/// Reads singly the entries that `read_module` leaves in the input.
pub(crate) struct InputEntryReader<E> {
    kind: PhantomData<E>,
}

impl<'d, E: InputEntry<'d>> Entry<'d> for InputEntryReader<E> {
    type Value = E::Value;

    ghost Data = { E.Data };

    ghost form = { E.form };

    ghost view = { E.view };

    fn read(alloc: Global, cursor: &mut Cursor<'d>) -> Result<E::Value, ReadError> {
        let mut entry = E::none(alloc);
        E::read_into(&mut entry, alloc, cursor)?;
        Ok(entry)
    }
}

/// The first entry that is not read, in contents that are not read as a list of entries.
pub(crate) fn entries_fault<'d, E: Entry<'d>>(
    alloc: Global,
    contents: &'d [u8],
) -> Result<ContentsFault, OutOfMemory>
    requires shortens { Shortens E.form }
    requires unread { (read_fault : ReadFault) × (whole (vector_at E.form) contents.now ≡ Err read_fault) }
    ensures { IfOk result (λ found. IsEntriesFault E.form contents.now found.fault found.entry found.offset) }
{
    let mut cursor = Cursor { rest: contents };
    let Some(count) = read_number(&mut cursor)? else {
        return Ok(ContentsFault::at_start(Fault::Count));
    };
    'entries: for entry in 0..count {
        let offset = contents.len() - cursor.rest.len();
        if let Some(fault) = pass_entry::<E>(alloc, &mut cursor)? {
            return Ok(ContentsFault {
                entry: Some(entry),
                offset,
                fault,
            });
        }
    }
    let offset = contents.len() - cursor.rest.len();
    Ok(ContentsFault {
        entry: None,
        offset,
        fault: Fault::Remainder,
    })
}

/// Passes an entry; where it is not read, says why.
pub(crate) fn pass_entry<'d, E: Entry<'d>>(
    alloc: Global,
    cursor: &mut Cursor<'d>,
) -> Result<Option<Fault>, OutOfMemory>
    ensures { IfOk result (IsEntryRead E.form cursor.old.rest.now cursor.new.rest.now) }
{
    match E::read(alloc, cursor) {
        Ok(_) => Ok(None),
        Err(ReadError::OutOfMemory) => Err(OutOfMemory),
        Err(ReadError::Malformed) => Ok(Some(Fault::Entry)),
        Err(ReadError::Unsupported(what)) => Ok(Some(Fault::Unsupported(what))),
        // No entry has this error.
        Err(ReadError::TooLarge) => Ok(Some(Fault::Entry)),
    }
}
