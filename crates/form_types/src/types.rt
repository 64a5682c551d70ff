//! The list of types of a module, and look-ups in it.

ghost use Rattle.std.specs.Prelude.{◌≡◌, ◌<◌, length, slice_get, slice_index, Some};
ghost use Rattle.form_reader.specs.Views.{sub_type_of};
ghost use Rattle.form_types.specs.Types.{types_by_id, group_numbers, member_ids, TypesAreSound};

use crate::distinct::Distinct;
use crate::elements::{CoreTypeIds, RecGroupId};
use crate::validator::ValidatorId;
use form_reader::SubType;
use std::marker::Model;
use std::ops::Index;
use wasm_spec::CoreTypeId;

/// The types of a module, each once, and the id of each declared type.
///
/// The distinct groups are in the order of their first occurrence; ids number their members from 0
/// on, through all groups. Types name each other by ids.
#[derive(Drop)]
pub struct Types {
    pub(crate) validator: ValidatorId,
    pub(crate) distinct: Distinct,
    pub(crate) declared: Vec<CoreTypeId>,
    pub(crate) seed: u64,
}

impl Model for Types {
    ghost use Rattle.wasm_spec.specs.declared.types.CoreTypeId.{CoreTypeId};
    ghost use Rattle.form_types.specs.Types.{TypesData};
    ghost use Rattle.form_types.specs.Kept.{data_of, TypesAreKept};

    ghost Value = { TypesData };

    ghost view = { λ t. data_of t.validator t.distinct t.declared.items };

    ghost invariant = { λ t. TypesAreKept (data_of t.validator t.distinct t.declared.items) t.distinct };
}

impl Types {
    /// The number of the validator that made the list.
    pub fn id(&self) -> ValidatorId
        ensures made { result.0 ≡ self.now.validator }
        ensures sound { TypesAreSound self.now }
    {
        self.validator
    }

    /// A digest of the module's groups, from which hashers begin whose keys come from the same
    /// module. No clause says more about it. (This project's own.)
    pub fn seed(&self) -> u64 {
        self.seed
    }

    /// How many types are declared.
    pub fn core_type_count_in_module(&self) -> u32
        ensures { result ≡ length self.now.declared }
    {
        self.declared.len() as u32
    }

    /// The id of a declared type.
    pub fn core_type_at_in_module(&self, index: u32) -> CoreTypeId
        requires { index < length self.now.declared }
        ensures id { result.0 ≡ slice_index self.now.declared index }
        ensures known { result.0 < length (types_by_id self.now.groups) }
    {
        self.declared[index as usize]
    }

    /// The group that has the type of an id.
    pub fn rec_group_id_of(&self, id: CoreTypeId) -> RecGroupId
        requires { id.0 < length (types_by_id self.now.groups) }
        ensures number { slice_get (group_numbers 0 self.now.groups) id.0 ≡ Some result.0 }
        ensures known { result.0 < length self.now.groups }
    {
        RecGroupId(self.distinct.numbers[id.0 as usize])
    }

    /// The ids of the members of a group, in order.
    pub fn rec_group_elements(&self, group: RecGroupId) -> CoreTypeIds
        requires { group.0 < length self.now.groups }
        ensures { slice_get (member_ids 0 self.now.groups) group.0 ≡ Some result }
    {
        let (first, end) = self.distinct.spans[group.0 as usize];
        CoreTypeIds::between(first, end)
    }
}

/// The type of an id, which names types by ids.
impl Index<CoreTypeId> for Types {
    type Output = SubType;

    ghost can_index = { λ t id. id.0 < length (types_by_id t.groups) };

    ghost index_gives = { λ t id ty. slice_get (types_by_id t.groups) id.0 ≡ Some (sub_type_of ty) };

    fn index(&self, id: CoreTypeId) -> &SubType {
        self.distinct.type_of(id)
    }
}
