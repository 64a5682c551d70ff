//! What a registry keeps of groups and of modules.

ghost use Rattle.std.specs.Prelude.{◌≡◌, ◌<◌, ◌+◌, Some, IfSome, IfOk, OnOk, length, map, slice_get};
ghost use Rattle.std.specs.Option.{option_copied, option_map};
ghost use Rattle.wasm_types.specs.TypeViews.{sub_type_of};
ghost use Rattle.type_registry.specs.Changes.{begun, with_indices, with_group};
ghost use Rattle.type_registry.specs.Registry.{HasEngineEdges, used_type};
ghost use Rattle.wasm_index.specs.Index.{number_of};

use entity_map::{EntityRef, OutOfMemory};
use std::alloc::Global;
use std::marker::Model;
use std::rc::Rc;
use wasm_index::VMSharedTypeIndex;
use wasm_types::{WasmRecGroup, WasmSubType};

/// A kept group: its members as they are compared and as they are used, the index of each, and how
/// often held modules have it.
#[derive(Drop)]
pub(crate) struct Kept {
    pub(crate) canonical: Rc<WasmRecGroup>,
    pub(crate) types: Vec<WasmSubType>,
    pub(crate) indices: Vec<VMSharedTypeIndex>,
    pub(crate) count: u128,
}

impl Model for Kept {
    ghost use Rattle.std.specs.Prelude.{◌≡◌, ◌<◌, length, map, All};
    ghost use Rattle.wasm_index.specs.Index.{number_of};
    ghost use Rattle.wasm_types.specs.TypeViews.{sub_type_of};
    ghost use Rattle.type_registry.specs.Registry.{Group, HasEngineEdges, used_type};

    ghost Value = { Group };

    ghost view = { λ k. record { canonical = k.canonical.value; indices = map number_of k.indices.items; count = k.count } };

    ghost invariant = { λ k. (0 < length k.indices.items)
        × (map sub_type_of k.types.items ≡ map (used_type (map number_of k.indices.items)) k.canonical.value)
        × (length k.types.items ≡ length k.indices.items)
        × All HasEngineEdges k.types.items };
}

impl Kept {
    /// How often held modules have it.
    pub(crate) fn count(&self) -> u128
        ensures { result ≡ self.now.count }
    {
        self.count
    }

    /// How many members it has.
    pub(crate) fn len(&self) -> usize
        ensures { result ≡ length self.now.indices }
    {
        self.indices.len()
    }

    /// The index of its first member.
    pub(crate) fn first(&self) -> u32
        ensures { slice_get self.now.indices 0 ≡ Some result }
    {
        self.indices[0].as_u32()
    }

    /// A module has the group once more.
    pub(crate) fn join(&self, held: &mut Held) -> Result<(), OutOfMemory>
        requires { length held.old.indices + length self.now.canonical < 4294967295 }
        ensures taken { OnOk result (held.new ≡ with_group held.old self.now) }
        ensures long { OnOk result (length held.new.indices ≡ length held.old.indices + length self.now.canonical) }
    {
        held.take(&self.indices)
    }

    /// The type of the member at a position as it is used.
    pub(crate) fn type_at(&self, place: usize) -> Option<&WasmSubType>
        ensures found { option_map sub_type_of (option_copied result) ≡ slice_get (map (used_type self.now.indices) self.now.canonical) place }
        ensures engine { IfSome result (λ t. HasEngineEdges t.now) }
    {
        self.types.get(place)
    }
}

/// The engine's index of each type of a module, and the first index of each of its groups.
#[derive(Drop)]
pub(crate) struct Held {
    pub(crate) indices: Vec<VMSharedTypeIndex>,
    pub(crate) groups: Vec<u32>,
}

impl Model for Held {
    ghost use Rattle.std.specs.Prelude.{◌<◌, length, map};
    ghost use Rattle.wasm_index.specs.Index.{number_of};
    ghost use Rattle.type_registry.specs.Registry.{Module};

    ghost Value = { Module };

    ghost view = { λ m. record { indices = map number_of m.indices.items; groups = m.groups.items } };

    ghost invariant = { λ m. length m.indices.items < 4294967295 };
}

impl Held {
    /// No types, with capacity for so many.
    pub(crate) fn with_capacity(alloc: Global, count: usize) -> Result<Held, OutOfMemory>
        ensures { IfOk result (λ m. m ≡ begun.listed) }
    {
        Ok(Held {
            indices: Vec::with_capacity(alloc, count)?,
            groups: Vec::new(alloc),
        })
    }

    /// One more group, whose members have these indices.
    pub(crate) fn take(&mut self, indices: &[VMSharedTypeIndex]) -> Result<(), OutOfMemory>
        requires some { 0 < length indices.now }
        requires few { length self.old.indices + length indices.now < 4294967295 }
        ensures { OnOk result (self.new ≡ with_indices self.old (map number_of indices.now)) }
    {
        self.groups.push(indices[0].as_u32())?;
        self.indices.extend_from_slice(indices)?;
        Ok(())
    }

    /// How many types there are.
    pub(crate) fn len(&self) -> u32
        ensures { result ≡ length self.now.indices }
    {
        self.indices.len() as u32
    }

    /// The index of the type at a position.
    pub(crate) fn index_at(&self, place: usize) -> Option<VMSharedTypeIndex>
        ensures { option_map number_of result ≡ slice_get self.now.indices place }
    {
        self.indices.get(place).copied()
    }
}
