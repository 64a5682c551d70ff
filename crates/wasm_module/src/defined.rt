//! The functions that a module defines, in order.

ghost use Rattle.std.specs.Prelude.{◌≡◌, ◌≤◌, ◌-◌, length};
ghost use Rattle.std.specs.Iterator.{YieldsFirst, item_count};
ghost use Rattle.wasm_module.specs.Spaces.{first_indices};

use crate::module::Module;
use entity_map::EntityRef;
use std::marker::Model;
use wasm_index::DefinedFuncIndex;

/// The indices of the functions that a module defines, in order.
#[derive(Drop)]
pub struct DefinedFuncIndices {
    next: usize,
    left: usize,
}

impl Model for DefinedFuncIndices {
    ghost use Rattle.std.specs.Prelude.{◌+◌, ◌<◌, List, map};
    ghost use Rattle.std.specs.List.{range_with_len};
    ghost use Rattle.wasm_index.specs.Index.{index_of};
    ghost use Rattle.wasm_index.specs.declared.index.Index.{Index};
    ghost use Rattle.wasm_index.specs.declared.spaces.DefinedFuncSpace.{DefinedFuncSpace};

    ghost Value = { List (Index DefinedFuncSpace) };

    ghost view = { λ it. map index_of (range_with_len it.next it.left) };

    ghost invariant = { λ it. it.next + it.left < 4294967295 };
}

impl Iterator for DefinedFuncIndices {
    type Item = DefinedFuncIndex;

    ghost next_gives = { YieldsFirst (λ left. left) };

    ghost remaining = { item_count (λ left. left) };

    #[tactic(auto, using(crate::proofs::Counting::range_first))]
    fn next(&mut self) -> Option<DefinedFuncIndex> {
        if self.left == 0 {
            return None;
        }
        let index = DefinedFuncIndex::new(self.next);
        self.next += 1;
        self.left -= 1;
        Some(index)
    }
}

impl Module {
    /// The indices of the functions that the module defines, in order.
    pub fn defined_func_indices(&self) -> DefinedFuncIndices
        requires { self.now.num_imported_funcs ≤ length self.now.functions }
        ensures { result ≡ first_indices (length self.now.functions - self.now.num_imported_funcs) }
    {
        DefinedFuncIndices {
            next: 0,
            left: self.num_defined_funcs(),
        }
    }
}
