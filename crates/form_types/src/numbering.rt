//! The types of a module are numbered, group by group, as they are read.

ghost use Rattle.std.specs.Prelude.{◌≡◌, ◌+◌, ◌<◌, ◌^◌, [], length, map, OnOk};
ghost use Rattle.form_reader.specs.Views.{group_of};
ghost use Rattle.form_types.specs.Keys.{key_of, read_key};
ghost use Rattle.form_types.specs.Distinct.{KeepsGroups};
ghost use Rattle.form_types.specs.Adding.{HasFewIds, AddsGroup};
ghost use Rattle.form_types.specs.Taken.{IsNumberingOf};

use crate::below::members_name_below;
use crate::canonical::CanonicalGroup;
use crate::distinct::Distinct;
use crate::finding::{FirstIds, find_or_note, name_key, push_row, read_key, seed_of};
use crate::list_lengths::members_are_short;
use crate::named::name_group;
use entity_map::Seeded;
use form_reader::{GroupSink, RecGroup};
use std::alloc::{AllocError, Global};
use std::collections::HashMap;
use wasm_spec::CoreTypeId;

/// More types than this, 2^30 - 1, are not numbered, nor types with longer lists; input that is
/// read has none.
const MOST_TYPES: usize = 1073741823;

/// The types of a module, numbered as their groups are read.
#[derive(Drop)]
pub struct Numbering {
    pub(crate) first_ids: FirstIds,
    pub(crate) distinct: Distinct,
    pub(crate) declared: Vec<CoreTypeId>,
    pub(crate) seed: u64,
    /// The key of the last group; its lists are reused.
    pub(crate) key: CanonicalGroup,
    /// Whether each type so far names only types before the end of its group, and its supertype is
    /// before it. From the first type that does not, no type is numbered.
    pub(crate) names_below: bool,
}

impl Numbering {
    /// A numbering of no groups. `wasm` is the bytes of the module, whose types seed the hashes.
    pub fn new(alloc: Global, wasm: &[u8]) -> Numbering
        ensures { IsNumberingOf result [] }
    {
        let seed = seed_of(wasm);
        Numbering {
            first_ids: HashMap::with_hasher(alloc, Seeded::new(seed)),
            distinct: Distinct::new(alloc),
            declared: Vec::new(alloc),
            seed,
            key: CanonicalGroup::new(alloc),
            names_below: true,
        }
    }

    /// Gives ids to the members of a group: those of an equal group, or new ones. `key` is the group
    /// as it was read.
    fn add_group(&mut self, alloc: Global, mut group: RecGroup) -> Result<(), AllocError>
        requires read { key_of self.old.key ≡ read_key (group_of group) }
        requires some { 0 < length group.types.items }
        requires room { length self.old.declared.items + length group.types.items < 2 ^ 30 }
        requires few { self.old.distinct.next + length group.types.items < 2 ^ 30 }
        requires ids { HasFewIds self.old.first_ids }
        requires listed { KeepsGroups self.old.distinct (map group_of self.old.distinct.groups.items) }
        ensures adds { OnOk result (AddsGroup self.old self.new (group_of group)) }
        ensures stays { self.new.names_below ≡ self.old.names_below }
    {
        let count = group.types.len();
        name_key(&mut self.key, &self.declared);
        let next = self.distinct.next;
        match find_or_note(alloc, &mut self.first_ids, &self.key, next)? {
            Some(first) => push_row(&mut self.declared, first, count)?,
            None => {
                push_row(&mut self.declared, next, count)?;
                name_group(
                    &self.declared,
                    group.types.as_mut_slice(),
                    self.key.references.len(),
                );
                self.distinct.push(group)?;
            }
        }
        Ok(())
    }
}

impl GroupSink for Numbering {
    ghost holds = { IsNumberingOf };

    fn push_group(&mut self, alloc: Global, group: RecGroup) -> Result<(), AllocError> {
        let start = self.declared.len();
        let count = group.types.len();
        if !self.names_below || count == 0 {
            return Ok(());
        }
        if start > MOST_TYPES || count > MOST_TYPES - start {
            return Err(AllocError);
        }
        if !members_are_short(group.types.as_slice()) {
            return Err(AllocError);
        }
        read_key(&mut self.key, group.types.as_slice())?;
        if !members_name_below(
            start,
            group.types.as_slice(),
            self.key.references.as_slice(),
        ) {
            self.names_below = false;
            return Ok(());
        }
        self.add_group(alloc, group)?;
        Ok(())
    }
}
