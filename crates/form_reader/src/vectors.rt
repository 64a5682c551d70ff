//! Lists of entries (core specification, 5.1, grammar).

ghost use Rattle.std.specs.Prelude.{◌≡◌, ℕ, [], map};
ghost use Rattle.form_reader.specs.Reading.{Reader, Reads, whole};
ghost use Rattle.form_reader.specs.ReadingNumbers.{unsigned_at, vector_at, sized_at};

use crate::cursor::Cursor;
use crate::error::ReadError;
use std::alloc::Global;

/// The maximum number of entries for which a list has capacity before they are read.
pub(crate) const MOST_ROOM: usize = 1024;

/// An entry of the lists of a module.
pub trait Entry<'d> {
    type Value: Drop;

    ghost Data: { Type 0 };

    ghost form: { Reader Data };

    ghost view: { Self.Value → Data };

    /// The entry that the bytes spell next.
    fn read(alloc: Global, cursor: &mut Cursor<'d>) -> Result<Self::Value, ReadError>
        ensures { Reads form view cursor.old.rest.now cursor.new.rest.now result };
}

/// An index.
pub struct IndexEntry;

impl<'d> Entry<'d> for IndexEntry {
    type Value = u32;

    ghost Data = { ℕ };

    ghost form = { unsigned_at 32 };

    ghost view = { λ x. x };

    #[inline]
    fn read(_alloc: Global, cursor: &mut Cursor<'d>) -> Result<u32, ReadError> {
        cursor.u32()
    }
}

impl<'d> Cursor<'d> {
    /// A count, and that many entries.
    ///
    /// The list begins with capacity for no more entries than there are bytes, since the count may
    /// be any number.
    pub fn vector<E: Entry<'d>>(&mut self, alloc: Global) -> Result<Vec<E::Value>, ReadError>
        ensures { Reads (vector_at E.form) (λ v. map E.view v.items) self.old.rest.now self.new.rest.now result }
    {
        let mut all = Vec::new(alloc);
        self.vector_into::<E>(alloc, &mut all)?;
        Ok(all)
    }

    /// As `vector`, in a list whose contents are no longer needed.
    #[tactic(auto, unfolding(crate::specs::ReadingNumbers::vector_at))]
    pub fn vector_into<E: Entry<'d>>(
        &mut self,
        alloc: Global,
        all: &mut Vec<E::Value>,
    ) -> Result<(), ReadError>
        ensures { Reads (vector_at E.form) (λ u. map E.view all.new.items) self.old.rest.now self.new.rest.now result }
    {
        all.clear();
        let count = self.u32()?;
        let room = (count as usize).min(self.rest.len()).min(MOST_ROOM);
        all.reserve_exact(room)?;
        'entries: for _ in 0..count {
            let one = E::read(alloc, self)?;
            all.push(one)?;
        }
        Ok(())
    }

    /// A size, and a count and entries that fill it.
    #[tactic(auto, unfolding(crate::specs::Reading::whole, crate::specs::ReadingNumbers::sized_at))]
    pub fn section_of<E: Entry<'d>>(&mut self, alloc: Global) -> Result<Vec<E::Value>, ReadError>
        ensures { Reads (sized_at (whole (vector_at E.form))) (λ v. map E.view v.items) self.old.rest.now self.new.rest.now result }
    {
        let mut body = self.sized()?;
        let all = body.vector::<E>(alloc)?;
        if !body.rest.is_empty() {
            return Err(ReadError::Malformed);
        }
        Ok(all)
    }
}
