//! Indices that are recorded under keys.

ghost use Rattle.std.specs.Prelude.{◌≡◌, ◌<◌, [], OnOk};
ghost use Rattle.std.specs.Option.{option_map};
ghost use Rattle.wasm_index.specs.Index.{number_of};
ghost use Rattle.module_types.specs.Builder.{noted};
ghost use Rattle.module_types.specs.IndicesByKey.{noted_at};

use entity_map::{EntityRef, OutOfMemory};
use std::alloc::Global;
use std::marker::{Model, PhantomData};
use wasm_index::Index;

/// The index that was recorded under each key, if any. Its memory grows with the greatest such key,
/// so the keys must be indices of a list that is in memory. (A secondary map is for keys below
/// `u32::MAX`; here each number may be a key.)
#[derive(Drop)]
pub(crate) struct IndicesByKey<Space> {
    // Indices as numbers, and `u32::MAX` where none was recorded.
    items: Vec<u32>,
    space: PhantomData<Space>,
}

/// A contract sees the list of the indices as numbers, each at its key.
impl<Space> Model for IndicesByKey<Space> {
    ghost use Rattle.std.specs.Prelude.{ℕ, List, Option};
    ghost use Rattle.module_types.specs.IndicesByKey.{notes_of};

    ghost Value = { List (Option ℕ) };

    ghost view = { λ m. notes_of m.items.items };
}

impl<Space> IndicesByKey<Space> {
    /// Nothing is recorded yet. It needs no memory.
    pub(crate) fn new(alloc: Global) -> Self
        ensures { result ≡ [] }
    {
        IndicesByKey {
            items: Vec::new(alloc),
            space: PhantomData,
        }
    }

    /// The index that was recorded under a key.
    pub(crate) fn get(&self, number: u32) -> Option<Index<Space>>
        ensures { option_map number_of result ≡ noted_at self.now number }
    {
        let noted = *self.items.get(number as usize)?;
        if noted == u32::MAX {
            None
        } else {
            Some(Index::from_u32(noted))
        }
    }

    /// Records an index under a key.
    pub(crate) fn note(&mut self, number: u32, index: Index<Space>) -> Result<(), OutOfMemory>
        requires { number_of index < u32.MAX }
        ensures { OnOk result (noted_at self.new ≡ noted (noted_at self.old) number (number_of index)) }
    {
        let noted = index.as_u32();
        let place = number as usize;
        if place < self.items.len() {
            self.items[place] = noted;
            return Ok(());
        }
        self.items.resize(place + 1, u32::MAX)?;
        self.items[place] = noted;
        Ok(())
    }
}
