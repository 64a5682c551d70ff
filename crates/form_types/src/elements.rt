//! The ids of the members of a group.

ghost use Rattle.std.specs.Prelude.{◌≡◌, ◌≤◌, ◌-◌};
ghost use Rattle.form_types.specs.Ids.{ids_from};
ghost use Rattle.std.specs.Iterator.{YieldsFirst, item_count};

use std::marker::Model;
use wasm_spec::CoreTypeId;

/// The number of a distinct group in one list of types, from 0 on.
#[derive(Clone, Copy, Debug, PartialEq, Eq, PartialOrd, Ord, Hash)]
pub struct RecGroupId(pub u32);

/// The ids of the members of a group, in order.
#[derive(Drop)]
pub struct CoreTypeIds {
    next: u64,
    end: u64,
}

impl Model for CoreTypeIds {
    ghost use Rattle.std.specs.Prelude.{◌-◌, ◌^◌, ◌≤◌, List};
    ghost use Rattle.wasm_spec.specs.declared.types.CoreTypeId.{CoreTypeId};
    ghost use Rattle.form_types.specs.Ids.{ids_from};

    ghost Value = { List CoreTypeId };

    ghost view = { λ it. ids_from it.next (it.end - it.next) };

    ghost invariant = { λ it. it.end ≤ 2 ^ 32 };
}

impl CoreTypeIds {
    /// The ids from `next` up to, but not including, `end`.
    pub(crate) fn between(next: u32, end: u32) -> CoreTypeIds
        requires { next ≤ end }
        ensures { result ≡ ids_from next (end - next) }
    {
        CoreTypeIds {
            next: u64::from(next),
            end: u64::from(end),
        }
    }
}

impl Iterator for CoreTypeIds {
    type Item = CoreTypeId;

    ghost next_gives = { YieldsFirst (λ left. left) };

    ghost remaining = { item_count (λ left. left) };

    #[tactic(auto, using(crate::proofs::Counting::ids_first, crate::proofs::Counting::ids_end))]
    fn next(&mut self) -> Option<CoreTypeId> {
        if self.next >= self.end {
            return None;
        }
        let id = CoreTypeId(self.next as u32);
        self.next += 1;
        Some(id)
    }
}
