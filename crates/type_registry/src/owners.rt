//! The owner of each index.

ghost use Rattle.std.specs.Prelude.{◌≡◌, ◌<◌, None, map, set, length};
ghost use Rattle.wasm_index.specs.Index.{number_of};
ghost use Rattle.std.specs.Option.{option_copied};
ghost use Rattle.type_registry.specs.Owners.{owner_at, free_count, emptied, owned_by};
ghost use Rattle.type_registry.specs.Keeping.{group_in};

use crate::kept::Kept;
use entity_map::EntityRef;
use free_numbers::FreeNumbers;
use std::alloc::Global;
use wasm_index::VMSharedTypeIndex;

/// The owner of an index: the first index of a group, and the position of the member in it.
#[derive(Clone, Copy)]
pub(crate) struct Owner {
    pub(crate) first: u32,
    pub(crate) place: u32,
}

/// Gives an index an owner, or none.
pub(crate) fn set_owner(
    owners: &mut Vec<Option<Owner>>,
    free: &mut FreeNumbers,
    index: usize,
    owner: Option<Owner>,
)
    requires { free.old ≡ map free_count owners.old.items }
    ensures owners { owners.new.items ≡ set owners.old.items index owner }
    ensures free { free.new ≡ map free_count owners.new.items }
{
    if index >= owners.len() {
        return;
    }
    owners[index] = owner;
    match owner {
        Some(_) => free.take(index),
        None => free.give(index),
    }
}

/// Indices have no owner any more.
pub(crate) fn give_back(
    owners: &mut Vec<Option<Owner>>,
    free: &mut FreeNumbers,
    indices: &[VMSharedTypeIndex],
)
    requires { free.old ≡ map free_count owners.old.items }
    ensures owners { owners.new.items ≡ emptied owners.old.items (map number_of indices.now) }
    ensures free { free.new ≡ map free_count owners.new.items }
{
    for index in indices {
        set_owner(owners, free, index.index(), None);
    }
}

/// The members of a group have its indices.
pub(crate) fn take_all(
    owners: &mut Vec<Option<Owner>>,
    free: &mut FreeNumbers,
    first: u32,
    indices: &[VMSharedTypeIndex],
)
    requires free { free.old ≡ map free_count owners.old.items }
    requires few { length indices.now < 4294967296 }
    ensures owners { owners.new.items ≡ owned_by first 0 owners.old.items (map number_of indices.now) }
    ensures free { free.new ≡ map free_count owners.new.items }
{
    for (place, index) in indices.iter().enumerate() {
        let owner = Owner {
            first,
            place: place as u32,
        };
        set_owner(owners, free, index.index(), Some(owner));
    }
}

/// The entry at a position, if there is one.
pub(crate) fn group_at(kept: &[Option<Kept>], place: usize) -> Option<&Kept>
    ensures { option_copied result ≡ group_in kept.now place }
{
    if place >= kept.len() {
        return None;
    }
    kept[place].as_ref()
}

/// The owner of an index, if it has one.
pub(crate) fn owner_of(owners: &[Option<Owner>], index: usize) -> Option<Owner>
    ensures { result ≡ owner_at owners.now index }
{
    if index >= owners.len() {
        return None;
    }
    owners[index]
}

/// Takes out the entry at a position, if there is one.
pub(crate) fn take_at(kept: &mut Vec<Option<Kept>>, place: usize) -> Option<Kept>
    ensures taken { result ≡ group_in kept.old.items place }
    ensures left { kept.new.items ≡ set kept.old.items place None }
{
    if place >= kept.len() {
        return None;
    }
    kept[place].take()
}
