//! The iterators over a list of interned types.

ghost use Rattle.std.specs.Prelude.{◌≡◌};
ghost use Rattle.std.specs.Iterator.{YieldsFirst, item_count};

use entity_map::{EntityRef, PrimaryIter};
use std::marker::Model;
use std::ops::Range;
use wasm_index::{ModuleInternedRecGroupIndex, ModuleInternedTypeIndex};

/// Each group with the range of its indices, in order.
#[derive(Drop)]
pub struct RecGroups<'a> {
    pub(crate) groups: PrimaryIter<'a, ModuleInternedRecGroupIndex, Range<ModuleInternedTypeIndex>>,
}

impl<'a> Model for RecGroups<'a> {
    ghost use Rattle.std.specs.Prelude.{List};
    ghost use Rattle.std.specs.declared.ops.Range.{Range};
    ghost use Rattle.wasm_index.specs.declared.index.Index.{Index};
    ghost use Rattle.wasm_index.specs.declared.spaces.ModuleInternedRecGroupSpace.{ModuleInternedRecGroupSpace};
    ghost use Rattle.module_types.specs.Views.{TypeIndex};

    ghost Value = { List (Index ModuleInternedRecGroupSpace × Range TypeIndex) };

    ghost view = { λ it. it.groups };
}

impl<'a> Iterator for RecGroups<'a> {
    type Item = (ModuleInternedRecGroupIndex, Range<ModuleInternedTypeIndex>);

    ghost next_gives = { YieldsFirst (λ left. left) };

    ghost remaining = { item_count (λ left. left) };

    fn next(&mut self) -> Option<(ModuleInternedRecGroupIndex, Range<ModuleInternedTypeIndex>)> {
        match self.groups.next() {
            Some((index, range)) => Some((index, range.start..range.end)),
            None => None,
        }
    }
}

/// The indices of one group, in order.
#[derive(Drop)]
pub struct RecGroupElements {
    pub(crate) next: u32,
    pub(crate) end: u32,
}

impl Model for RecGroupElements {
    ghost use Rattle.std.specs.Prelude.{◌-◌, List, map};
    ghost use Rattle.std.specs.List.{range_with_len};
    ghost use Rattle.wasm_index.specs.Index.{index_of};
    ghost use Rattle.module_types.specs.Views.{TypeIndex};

    ghost Value = { List TypeIndex };

    ghost view = { λ it. map index_of (range_with_len it.next (it.end - it.next)) };
}

impl Iterator for RecGroupElements {
    type Item = ModuleInternedTypeIndex;

    ghost next_gives = { YieldsFirst (λ left. left) };

    ghost remaining = { item_count (λ left. left) };

    #[tactic(auto, using(crate::proofs::Elements::in_turn))]
    fn next(&mut self) -> Option<ModuleInternedTypeIndex> {
        if self.next >= self.end {
            return None;
        }
        let index = ModuleInternedTypeIndex::from_u32(self.next);
        self.next += 1;
        Some(index)
    }
}

/// Each function type that has a trampoline, with the trampoline's index, in index order.
#[derive(Drop)]
pub struct TrampolineTypes<'a> {
    pub(crate) rest: &'a [Option<ModuleInternedTypeIndex>],
    // The number of the first of `rest`.
    pub(crate) next: u32,
}

impl<'a> Model for TrampolineTypes<'a> {
    ghost use Rattle.std.specs.Prelude.{◌+◌, ◌≤◌, List, length};
    ghost use Rattle.module_types.specs.Views.{TypeIndex};
    ghost use Rattle.module_types.specs.TypeList.{called_from};

    ghost Value = { List (TypeIndex × TypeIndex) };

    ghost view = { λ it. called_from it.next it.rest.now };

    ghost invariant = { λ it. it.next + length it.rest.now ≤ 4294967295 };
}

impl<'a> Iterator for TrampolineTypes<'a> {
    type Item = (ModuleInternedTypeIndex, ModuleInternedTypeIndex);

    ghost next_gives = { YieldsFirst (λ left. left) };

    ghost remaining = { item_count (λ left. left) };

    fn next(&mut self) -> Option<(ModuleInternedTypeIndex, ModuleInternedTypeIndex)> {
        while let Some((first, others)) = self.rest.split_first() {
            let index = ModuleInternedTypeIndex::from_u32(self.next);
            self.rest = others;
            self.next += 1;
            if let Some(trampoline) = *first {
                return Some((index, trampoline));
            }
        }
        None
    }
}
