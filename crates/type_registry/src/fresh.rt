//! The groups of a module that are not kept yet.

ghost use Rattle.std.specs.Prelude.{◌≡◌, ◌+◌, ◌<◌, ◌∷◌, [], ◌++◌, None, length, slice_get, OnOk};
ghost use Rattle.std.specs.Option.{option_copied, option_map};
ghost use Rattle.type_registry.specs.Registry.{indices_of};
ghost use Rattle.type_registry.specs.Changes.{find_group};

use crate::hashing::GroupHashes;
use crate::kept::Kept;
use crate::plan::Fresh;
use entity_map::OutOfMemory;
use std::alloc::Global;
use std::collections::HashMap;
use std::marker::Model;
use std::rc::Rc;
use wasm_types::{WasmRecGroup, equality_law};

/// Groups that are not kept yet, each once, in order.
#[derive(Drop)]
pub(crate) struct FreshGroups {
    groups: Vec<Fresh>,
    /// The position of each, by its canonical members.
    places: HashMap<Rc<WasmRecGroup>, usize, GroupHashes>,
    /// How many members they have in sum.
    members: u32,
}

/// A contract sees the groups.
impl Model for FreshGroups {
    ghost use Rattle.type_registry.specs.Registry.{Groups};
    ghost use Rattle.type_registry.specs.Keeping.{shared_content, first_of};
    ghost use Rattle.type_registry.specs.Planning.{AreFresh};

    ghost Value = { Groups };

    ghost view = { λ f. f.groups.items };

    ghost invariant = { λ f. AreFresh shared_content (first_of f.places) f.members f.groups.items };
}

/// The group at a position.
fn group_at(groups: &[Fresh], place: usize) -> Option<&Kept>
    ensures { option_copied result ≡ option_map (λ e. e.1) (slice_get groups.now place) }
{
    let fresh = groups.get(place)?;
    Some(&fresh.kept)
}

impl FreshGroups {
    /// No groups. Hashes of canonical members begin from the seed.
    pub(crate) fn new(alloc: Global, seed: u64) -> FreshGroups
        ensures { result ≡ [] }
    {
        FreshGroups {
            groups: Vec::new(alloc),
            places: HashMap::with_hasher(alloc, GroupHashes::new(seed)),
            members: 0,
        }
    }

    /// How many members the groups have in sum.
    pub(crate) fn members(&self) -> u32
        ensures { result ≡ length (indices_of self.now) }
    {
        self.members
    }

    /// How many groups there are.
    pub(crate) fn len(&self) -> usize
        ensures { result ≡ length self.now }
    {
        self.groups.len()
    }

    /// The groups, in order.
    pub(crate) fn into_groups(self) -> Vec<Fresh>
        ensures { result.items ≡ self }
    {
        self.groups
    }

    /// The group of these canonical members.
    pub(crate) fn find(&self, canonical: &Rc<WasmRecGroup>) -> Option<&Kept>
        ensures { option_copied result ≡ find_group canonical.now.value self.now }
    {
        equality_law();
        let place = *self.places.get(canonical)?;
        group_at(&self.groups, place)
    }

    /// Appends a group that is not there, under a second copy of its canonical members.
    pub(crate) fn push(&mut self, group: Fresh, name: Rc<WasmRecGroup>) -> Result<(), OutOfMemory>
        requires few { length (indices_of self.old) + length group.1.indices < 4294967296 }
        requires name { name.value ≡ group.1.canonical }
        requires unknown { find_group group.1.canonical self.old ≡ None }
        ensures { OnOk result (self.new ≡ self.old ++ group ∷ []) }
    {
        let place = self.groups.len();
        let members = group.kept.len() as u32;
        equality_law();
        self.places.reserve(1)?;
        self.groups.push(group)?;
        self.places.insert(name, place).ok();
        self.members += members;
        Ok(())
    }
}
