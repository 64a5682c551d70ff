//! Vectors that stay in the input (core specification, 5.1, grammar).

ghost use Rattle.std.specs.Prelude.{◌≡◌, ◌++◌, ℕ, List, [], map, length, false, IfOk, OnOk};
ghost use Rattle.wasm_spec.specs.Module as plain;
ghost use Rattle.form_reader.specs.Views.{payload_of};
ghost use Rattle.form_reader.specs.Reading.{Reader, Gives, Reads, rest_at, whole};
ghost use Rattle.form_reader.specs.ReadingNumbers.{vector_at, sized_at};
ghost use Rattle.form_reader.specs.Input.{vector_in, input_payload_of, Takes};

use crate::Payload;
use crate::cursor::Cursor;
use crate::error::ReadError;
use crate::input::InputEntries;
use crate::vectors::MOST_ROOM;
use std::alloc::{AllocError, Global};
use std::mem;

/// The number of entries from which a list is large. Fewer may be listed, whatever they contain.
const MANY_ENTRIES: u32 = 1024;

/// An entry of a section that stays in the input.
pub trait InputEntry<'d> {
    type Value: Drop;

    ghost Data: { Type 0 };

    ghost form: { Reader Data };

    ghost view: { Self.Value → Data };

    ghost of_section: { plain.Payload → List Data };

    ghost no_customs: { (name bytes : List ℕ) → of_section (plain.Custom name bytes) ≡ [] };

    /// The entries of a section that was read into lists; sections of other kinds have none.
    fn in_payload<'f>(payload: &'f Payload<'d>) -> &'f [Self::Value]
        ensures { map view result.now ≡ of_section (payload_of payload.now) };

    /// The entries of a section that stay in the input; sections of other kinds have none.
    fn in_input(entries: InputEntries<'d>) -> InputVector<'d>
        ensures { vector_in form result ≡ of_section (input_payload_of entries.entry) };

    /// An entry as a placeholder, without an allocation.
    fn none(alloc: Global) -> Self::Value;

    /// Overwrites an entry that is no longer needed with the next one, and may reuse its lists.
    fn read_into(
        entry: &mut Self::Value,
        alloc: Global,
        cursor: &mut Cursor<'d>,
    ) -> Result<(), ReadError>
        ensures { Reads form (λ u. view entry.new) cursor.old.rest.now cursor.new.rest.now result };

    /// Moves past the next entry. It may overwrite `entry`, which is no longer needed.
    fn pass(
        entry: &mut Self::Value,
        alloc: Global,
        cursor: &mut Cursor<'d>,
    ) -> Result<(), ReadError>
        ensures { Gives (λ u. cursor.new.rest.now) result (rest_at form cursor.old.rest.now) };
}

/// The entries of a section, which stay in the input. They were read once, and are read again where
/// they are iterated.
#[derive(Clone, Copy)]
pub struct InputVector<'d> {
    pub(crate) count: u32,
    pub(crate) bytes: &'d [u8],
}

impl<'d> Cursor<'d> {
    /// A count, and that many entries, which stay where they are.
    #[inline(always)]
    #[tactic(auto, unfolding(crate::specs::ReadingNumbers::vector_at))]
    pub(crate) fn counted_entries<E: InputEntry<'d>>(
        &mut self,
        alloc: Global,
    ) -> Result<InputVector<'d>, ReadError>
        ensures { Reads (vector_at E.form) (vector_in E.form) self.old.rest.now self.new.rest.now result }
    {
        let count = self.u32()?;
        let bytes = self.rest;
        let mut entry = E::none(alloc);
        'entries: for _ in 0..count {
            E::pass(&mut entry, alloc, self)?;
        }
        Ok(InputVector { count, bytes })
    }

    /// As `counted_entries`, and each entry is appended to a list as well.
    #[tactic(auto, unfolding(crate::specs::ReadingNumbers::vector_at))]
    fn kept_entries<E: InputEntry<'d>>(
        &mut self,
        alloc: Global,
        kept: &mut Vec<E::Value>,
    ) -> Result<InputVector<'d>, ReadError>
        ensures reads { Reads (vector_at E.form) (vector_in E.form) self.old.rest.now self.new.rest.now result }
        ensures keeps { IfOk result (λ vector. map E.view kept.new.items ≡ map E.view kept.old.items ++ vector_in E.form vector) }
    {
        let count = self.u32()?;
        let bytes = self.rest;
        kept.reserve_exact((count as usize).min(bytes.len()).min(MOST_ROOM))?;
        'kept: for _ in 0..count {
            let mut entry = E::none(alloc);
            E::read_into(&mut entry, alloc, self)?;
            kept.push(entry)?;
        }
        Ok(InputVector { count, bytes })
    }

    /// As `input_vector`, and each entry is appended to a list as well.
    #[tactic(auto, unfolding(crate::specs::Reading::whole, crate::specs::ReadingNumbers::sized_at))]
    pub(crate) fn kept_vector<E: InputEntry<'d>>(
        &mut self,
        alloc: Global,
        kept: &mut Vec<E::Value>,
    ) -> Result<InputVector<'d>, ReadError>
        ensures reads { Reads (sized_at (whole (vector_at E.form))) (vector_in E.form) self.old.rest.now self.new.rest.now result }
        ensures keeps { IfOk result (λ vector. map E.view kept.new.items ≡ map E.view kept.old.items ++ vector_in E.form vector) }
    {
        let mut body = self.sized()?;
        let vector = body.kept_entries::<E>(alloc, kept)?;
        if !body.rest.is_empty() {
            return Err(ReadError::Malformed);
        }
        Ok(vector)
    }

    /// As `input_vector`, but for the entries, which are in a list.
    pub(crate) fn listed_vector<E: InputEntry<'d>>(
        &mut self,
        alloc: Global,
    ) -> Result<Vec<E::Value>, ReadError>
        ensures { Reads (sized_at (whole (vector_at E.form))) (λ all. map E.view all.items) self.old.rest.now self.new.rest.now result }
    {
        let mut all = Vec::new(alloc);
        self.kept_vector::<E>(alloc, &mut all)?;
        Ok(all)
    }

    /// Whether a size and a count come next, and the count is small.
    pub(crate) fn counts_few(&self) -> bool {
        let mut ahead = Cursor { rest: self.rest };
        match ahead.sized() {
            Ok(mut body) => matches!(body.u32(), Ok(count) if count < MANY_ENTRIES),
            Err(_) => false,
        }
    }

    /// A size, and a count and entries that fill it.
    #[tactic(auto, unfolding(crate::specs::Reading::whole, crate::specs::ReadingNumbers::sized_at))]
    pub(crate) fn input_vector<E: InputEntry<'d>>(
        &mut self,
        alloc: Global,
    ) -> Result<InputVector<'d>, ReadError>
        ensures { Reads (sized_at (whole (vector_at E.form))) (vector_in E.form) self.old.rest.now self.new.rest.now result }
    {
        let mut body = self.sized()?;
        let vector = body.counted_entries::<E>(alloc)?;
        if !body.rest.is_empty() {
            return Err(ReadError::Malformed);
        }
        Ok(vector)
    }
}

impl<'d> InputVector<'d> {
    /// A vector of no entries.
    pub fn none() -> InputVector<'d>
        ensures { result.count ≡ 0 }
    {
        InputVector {
            count: 0,
            bytes: &[],
        }
    }

    /// Takes the first entry, and writes it over one that is no longer needed, whose lists may be
    /// reused. At the end there is none.
    pub fn next_into<E: InputEntry<'d>>(
        &mut self,
        alloc: Global,
        entry: &mut E::Value,
    ) -> Result<bool, AllocError>
        ensures { IfOk result (Takes (vector_in E.form self.old) (E.view entry.new) (vector_in E.form self.new)) }
    {
        if self.count == 0 {
            return Ok(false);
        }
        let mut cursor = Cursor { rest: self.bytes };
        match E::read_into(entry, alloc, &mut cursor) {
            Ok(()) => {
                self.count -= 1;
                self.bytes = cursor.rest;
                Ok(true)
            }
            Err(ReadError::OutOfMemory) => Err(AllocError),
            // They were read before, so none of these occurs.
            Err(ReadError::Malformed) => Ok(self.end()),
            Err(ReadError::Unsupported(_)) => Ok(self.end()),
            Err(ReadError::TooLarge) => Ok(self.end()),
        }
    }

    /// No more entries are listed.
    fn end(&mut self) -> bool
        ensures ended { result ≡ false }
        ensures none { self.new.count ≡ 0 }
    {
        self.count = 0;
        false
    }

    /// How many entries there are.
    pub fn length<E: InputEntry<'d>>(mut self, alloc: Global) -> Result<usize, AllocError>
        ensures { IfOk result (λ n. n ≡ length (vector_in E.form self.entry)) }
    {
        let mut passed = 0;
        let mut entry = E::none(alloc);
        'entries: while self.next_into::<E>(alloc, &mut entry)? {
            passed += 1;
        }
        Ok(passed)
    }

    /// Appends all of the entries to a list.
    pub fn append_to<E: InputEntry<'d>>(
        mut self,
        alloc: Global,
        list: &mut Vec<E::Value>,
    ) -> Result<(), AllocError>
        ensures { OnOk result (map E.view list.new.items ≡ map E.view list.old.items ++ vector_in E.form self.entry) }
    {
        // They were read before, so there are as many as was counted.
        list.reserve_exact(self.count as usize)?;
        let mut entry = E::none(alloc);
        'entries: while self.next_into::<E>(alloc, &mut entry)? {
            list.push(mem::replace(&mut entry, E::none(alloc)))?;
        }
        Ok(())
    }

    /// All of the entries.
    pub(crate) fn collected<E: InputEntry<'d>>(
        self,
        alloc: Global,
    ) -> Result<Vec<E::Value>, AllocError>
        ensures { IfOk result (λ all. map E.view all.items ≡ vector_in E.form self.entry) }
    {
        let mut all = Vec::new(alloc);
        self.append_to::<E>(alloc, &mut all)?;
        Ok(all)
    }
}
