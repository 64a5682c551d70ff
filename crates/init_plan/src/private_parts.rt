//! Data of a translation that only its methods show.

ghost use Rattle.std.specs.Prelude.{◌≡◌, [], None};

use crate::debug_info::BranchHint;
use form_types::Types;
use std::alloc::Global;
use std::collections::BTreeMap;
use wasm_index::{DataIndex, FuncIndex};

/// The passive data segments, the types by ids, and the branch hints of each function.
pub struct PrivateParts<'d> {
    pub passive_data: Vec<(DataIndex, &'d [u8])>,
    pub types: Option<Types>,
    pub branch_hints: BTreeMap<FuncIndex, Vec<BranchHint>>,
}

// One call instead of a drop of each part, wherever a translation is dropped.
impl Drop for PrivateParts<'_> {
    fn drop(self) {
        let PrivateParts {
            passive_data: _passive_data,
            types: _types,
            branch_hints: _branch_hints,
        } = self;
    }
}

impl PrivateParts<'_> {
    /// Empty values of the three.
    pub fn new(alloc: Global) -> Self
        ensures passive_data { result.passive_data.items ≡ [] }
        ensures types { result.types ≡ None }
        ensures branch_hints { result.branch_hints.entries ≡ [] }
    {
        PrivateParts {
            passive_data: Vec::new(alloc),
            types: None,
            branch_hints: BTreeMap::new(alloc),
        }
    }
}
