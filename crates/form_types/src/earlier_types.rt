//! The types before a group, and what a reference names, given these types.

ghost use Rattle.std.specs.Prelude.{◌≡◌, slice_index};
ghost use Rattle.form_types.specs.Keys.{canonical_index};
ghost use Rattle.form_types.specs.EarlierTypes.{ids_of};
ghost use Rattle.form_types.specs.Ids.{id_of};
ghost use Rattle.form_types.specs.Placed.{place_of};

use wasm_spec::{CoreTypeId, UnpackedIndex};

/// The types before a group: their ids, and how many there are.
#[derive(Clone, Copy)]
pub struct EarlierTypes<'i> {
    pub ids: &'i [CoreTypeId],
    pub start: u32,
}

/// The id of the type at a position; 0 past the last.
pub fn id_at(ids: &[CoreTypeId], place: u32) -> CoreTypeId
    ensures { result ≡ id_of (slice_index (ids_of ids.now) place) }
{
    match ids.get(place as usize) {
        Some(id) => *id,
        None => CoreTypeId(0),
    }
}

/// The position that an index names.
pub fn place_of(index: UnpackedIndex) -> u32
    ensures { result ≡ place_of index }
{
    match index {
        UnpackedIndex::Module(place) => place,
        UnpackedIndex::RecGroup(place) => place,
        UnpackedIndex::Id(id) => id.0,
    }
}

impl EarlierTypes<'_> {
    /// What an index names: a position in the group, or the id of an earlier type.
    pub fn target(self, index: UnpackedIndex) -> UnpackedIndex
        ensures { result ≡ canonical_index (ids_of self.entry.ids.now) self.entry.start index }
    {
        let place = place_of(index);
        if self.start <= place {
            UnpackedIndex::RecGroup(place - self.start)
        } else {
            UnpackedIndex::Id(id_at(self.ids, place))
        }
    }
}
