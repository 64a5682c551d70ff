//! The distinct groups, and look-ups in them.

ghost use Rattle.std.specs.Prelude.{◌≡◌, ◌+◌, ◌<◌, ◌^◌, ◌++◌, ◌∷◌, [], length, map, slice_get, Some, OnOk};
ghost use Rattle.form_reader.specs.Views.{group_of, sub_type_of};
ghost use Rattle.form_types.specs.Distinct.{KeepsGroups};
ghost use Rattle.form_types.specs.Types.{types_by_id};

use form_reader::{RecGroup, SubType};
use std::alloc::{AllocError, Global};
use wasm_spec::CoreTypeId;

/// The distinct groups in the order of their first occurrence.
#[derive(Drop)]
pub struct Distinct {
    pub groups: Vec<RecGroup>,
    /// The number of the group of each id.
    pub numbers: Vec<u32>,
    /// The first id of each group, and the id after its last member.
    pub spans: Vec<(u32, u32)>,
    /// The id after the last.
    pub next: u32,
}

impl Distinct {
    /// No groups.
    pub fn new(alloc: Global) -> Distinct
        ensures { KeepsGroups result [] }
    {
        Distinct {
            groups: Vec::new(alloc),
            numbers: Vec::new(alloc),
            spans: Vec::new(alloc),
            next: 0,
        }
    }

    /// The type of an id.
    pub fn type_of(&self, id: CoreTypeId) -> &SubType
        requires listed { KeepsGroups self.now (map group_of self.now.groups.items) }
        requires known { id.0 < length (types_by_id (map group_of self.now.groups.items)) }
        ensures { slice_get (types_by_id (map group_of self.now.groups.items)) id.0 ≡ Some (sub_type_of result.now) }
    {
        let group = self.numbers[id.0 as usize] as usize;
        let (first, _) = self.spans[group];
        &self.groups[group].types[(id.0 - first) as usize]
    }

    /// Appends a group.
    pub fn push(&mut self, group: RecGroup) -> Result<(), AllocError>
        requires listed { KeepsGroups self.old (map group_of self.old.groups.items) }
        requires some { 0 < length group.types.items }
        requires few { self.old.next + length group.types.items < 2 ^ 30 }
        ensures { OnOk result (KeepsGroups self.new (map group_of self.old.groups.items ++ group_of group ∷ [])) }
    {
        let number = self.groups.len() as u32;
        let end = self.next + group.types.len() as u32;
        self.numbers.resize(end as usize, number)?;
        self.spans.push((self.next, end))?;
        self.groups.push(group)?;
        self.next = end;
        Ok(())
    }
}
