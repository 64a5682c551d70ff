//! The groups that are kept.

ghost use Rattle.std.specs.Prelude.{◌≡◌, ◌+◌, ◌≤◌, ◌<◌, [], false, length, nat_eq, IsSome, IfSome, OnOk};
ghost use Rattle.std.specs.List.{list_any};
ghost use Rattle.std.specs.Map.{lookup, remove_entry};
ghost use Rattle.std.specs.Option.{option_copied, option_map};
ghost use Rattle.wasm_types.specs.TypeViews.{sub_type_of};
ghost use Rattle.wasm_index.specs.Index.{number_of};
ghost use Rattle.type_registry.specs.Registry.{Group, HasEngineEdges, indices_of, used_types};
ghost use Rattle.type_registry.specs.Changes.{leave_group, count_group, keep_group, with_count, find_group, first_index};
ghost use Rattle.type_registry.specs.Fresh.{MayBeKept};
ghost use Rattle.type_registry.specs.Counted.{counted};
ghost use Rattle.type_registry.specs.FreeIndices.{free_below};

use crate::hashing::GroupHashes;
use crate::kept::Kept;
use crate::known::{Known, reserve};
use crate::owners::{Owner, give_back, group_at, owner_of, take_all, take_at};
use crate::room::{fill, free_again, room_for};
use entity_map::{EntityRef, OutOfMemory};
use free_numbers::FreeNumbers;
use std::alloc::Global;
use std::collections::HashMap;
use std::marker::Model;
use std::rc::Rc;
use wasm_index::VMSharedTypeIndex;
use wasm_types::{WasmRecGroup, WasmSubType, equality_law};

/// The groups that are kept, each once.
#[derive(Drop)]
pub(crate) struct Groups {
    live: u32,
    known: Known,
    /// Each group, at its first index.
    kept: Vec<Option<Kept>>,
    /// The owner of each index, where it is live.
    owners: Vec<Option<Owner>>,
    /// The indices that are not live.
    free: FreeNumbers,
}

/// A contract sees the groups by their first indices, in order, and the capacity for more.
impl Model for Groups {
    ghost use Rattle.std.specs.Prelude.{length};
    ghost use Rattle.std.specs.HashMap.{spare};
    ghost use Rattle.type_registry.specs.Registry.{GroupsState};
    ghost use Rattle.type_registry.specs.Keeping.{kept_from, GroupsAreKept};

    ghost Value = { GroupsState };

    ghost view = { λ m. record { groups = kept_from 0 m.kept.items; room = length m.kept.items; spare = spare m.known } };

    ghost invariant = { λ m. GroupsAreKept m.live m.known m.kept.items m.owners.items m.free };
}

impl Groups {
    /// No groups.
    pub(crate) fn new(alloc: Global) -> Groups
        ensures { result.groups ≡ [] }
    {
        Groups {
            live: 0,
            known: HashMap::with_hasher(alloc, GroupHashes::new(0)),
            kept: Vec::new(alloc),
            owners: Vec::new(alloc),
            free: FreeNumbers::new(alloc),
        }
    }

    /// How many indices are live.
    pub(crate) fn live_types(&self) -> u32
        ensures { result ≡ length (indices_of self.now.groups) }
    {
        self.live
    }

    /// The live type at an index, whose references are all the engine's.
    pub(crate) fn get(&self, index: VMSharedTypeIndex) -> Option<&WasmSubType>
        ensures found { option_map sub_type_of (option_copied result) ≡ lookup (nat_eq (number_of index)) (used_types self.now.groups) }
        ensures engine { IfSome result (λ t. HasEngineEdges t.now) }
    {
        let owner = owner_of(&self.owners, index.index())?;
        let kept = group_at(&self.kept, owner.first as usize)?;
        kept.type_at(owner.place as usize)
    }

    /// How often held modules have the group at a first index, if one is kept there.
    fn count_of(&self, first: u32) -> Option<u128>
        ensures { result ≡ option_map (λ (g : Group). g.count) (lookup (nat_eq first) self.now.groups) }
    {
        let group = group_at(&self.kept, first as usize)?;
        Some(group.count())
    }

    /// Changes how often held modules have the group at a first index.
    fn set_count(&mut self, first: u32, count: u128)
        ensures { self.new.groups ≡ with_count self.old.groups first count (lookup (nat_eq first) self.old.groups) }
    {
        let Some(mut group) = take_at(&mut self.kept, first as usize) else {
            return;
        };
        group.count = count;
        self.kept[first as usize] = Some(group);
    }

    /// Removes the group at a first index.
    fn drop_group(&mut self, first: u32)
        ensures { self.new.groups ≡ remove_entry (nat_eq first) self.old.groups }
    {
        let Some(group) = take_at(&mut self.kept, first as usize) else {
            return;
        };
        equality_law();
        self.known.remove(&group.canonical);
        self.live -= group.indices.len() as u32;
        give_back(&mut self.owners, &mut self.free, &group.indices);
    }

    /// Counts a group once less. One that no module has any more is removed.
    pub(crate) fn leave(&mut self, first: u32)
        ensures { self.new.groups ≡ leave_group self.old.groups first (lookup (nat_eq first) self.old.groups) }
    {
        let Some(count) = self.count_of(first) else {
            return;
        };
        if count > 1 {
            self.set_count(first, count - 1);
            return;
        }
        self.drop_group(first);
    }

    /// Counts a group once more.
    pub(crate) fn count(&mut self, first: u32)
        requires { counted self.old.groups < u128.MAX }
        ensures { self.new.groups ≡ count_group self.old.groups first (lookup (nat_eq first) self.old.groups) }
    {
        let Some(count) = self.count_of(first) else {
            return;
        };
        self.set_count(first, count + 1);
    }

    /// The index that is not live before which exactly `rank` indices are not live.
    pub(crate) fn free_at(&self, rank: u32) -> VMSharedTypeIndex
        requires { length (indices_of self.now.groups) + rank < u32.MAX }
        ensures free { list_any (nat_eq (number_of result)) (indices_of self.now.groups) ≡ false }
        ensures rank { free_below (indices_of self.now.groups) (number_of result) ≡ rank }
    {
        if let Some(number) = self.free.nth(rank) {
            return VMSharedTypeIndex::from_u32(number);
        }
        let further = rank - self.free.len_free();
        VMSharedTypeIndex::from_u32(self.owners.len() as u32 + further)
    }

    /// The kept group of these canonical members.
    pub(crate) fn find(&self, canonical: &Rc<WasmRecGroup>) -> Option<&Kept>
        ensures { option_copied result ≡ find_group canonical.now.value self.now.groups }
    {
        equality_law();
        let first = *self.known.get(canonical)?;
        group_at(&self.kept, first as usize)
    }

    /// Keeps a new group, which no module has yet, under a second copy of its canonical members.
    pub(crate) fn keep(&mut self, group: Kept, name: Rc<WasmRecGroup>)
        requires new { MayBeKept self.old group }
        requires name { name.value ≡ group.canonical }
        ensures groups { self.new.groups ≡ keep_group self.old.groups (first_index group) group }
        ensures room { self.new.room ≡ self.old.room }
        ensures spare { self.old.spare ≤ self.new.spare + 1 }
    {
        let first = group.first();
        equality_law();
        self.known.insert(name, first).ok();
        self.live += group.indices.len() as u32;
        take_all(&mut self.owners, &mut self.free, first, &group.indices);
        self.kept[first as usize] = Some(group);
    }

    /// Reserves capacity for indices up to `room`.
    fn lengthen(&mut self, alloc: Global, room: usize) -> Result<(), OutOfMemory>
        requires longer { self.old.room ≤ room }
        requires few { room < 4294967296 }
        ensures groups { self.new.groups ≡ self.old.groups }
        ensures room { OnOk result (self.new.room ≡ room) }
        ensures spare { self.new.spare ≡ self.old.spare }
    {
        let more = room - self.kept.len();
        let free = free_again(alloc, &self.owners, room)?;
        self.kept.reserve(more)?;
        self.owners.resize(room, None)?;
        fill(&mut self.kept, room);
        self.free = free;
        Ok(())
    }

    /// Reserves capacity for so many indices, and for more groups. Where the map of groups has to
    /// grow, its hashes begin from the seed.
    ///
    /// # Errors
    /// `OutOfMemory`. The groups are unchanged.
    pub(crate) fn make_room(
        &mut self,
        alloc: Global,
        indices: u32,
        more: usize,
        seed: u64,
    ) -> Result<(), OutOfMemory>
        ensures groups { self.new.groups ≡ self.old.groups }
        ensures room { OnOk result (indices ≤ self.new.room) }
        ensures spare { OnOk result (more ≤ self.new.spare) }
    {
        reserve(alloc, &mut self.known, more, seed)?;
        let len = self.kept.len();
        if indices as usize <= len {
            return Ok(());
        }
        self.lengthen(alloc, room_for(indices, len))
    }
}
