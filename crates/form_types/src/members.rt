//! The members of a group.

ghost use Rattle.std.specs.Prelude.{◌≡◌, ◌<◌, length, map, slice_get, Some};
ghost use Rattle.form_reader.specs.Views.{sub_type_of};
ghost use Rattle.form_types.specs.Types.{TypesAreSound};

use crate::elements::RecGroupId;
use crate::types::Types;
use form_reader::SubType;

impl Types {
    /// The members of a group, in order, as they name types by ids. (This project's own.)
    pub fn members(&self, group: RecGroupId) -> &[SubType]
        requires { group.0 < length self.now.groups }
        ensures members { slice_get self.now.groups group.0 ≡ Some (map sub_type_of result.now) }
        ensures sound { TypesAreSound self.now }
    {
        self.distinct.groups[group.0 as usize].types.as_slice()
    }
}
