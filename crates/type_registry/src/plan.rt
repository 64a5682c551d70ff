//! What a registration will change, before anything changes.

ghost use Rattle.std.specs.Prelude.{◌≡◌, ◌<◌, ◌≤◌, All, IfOk, length, map};
ghost use Rattle.wasm_spec.specs.TypeData.{map_group};
ghost use Rattle.type_spec.specs.Names.{named};
ghost use Rattle.wasm_index.specs.Index.{number_of};
ghost use Rattle.wasm_types.specs.TypeViews.{group_of};
ghost use Rattle.wasm_trace.specs.Canonical.{CanBeConsedEdge, CanBeRuntimeEdge, runtime_edge};
ghost use Rattle.type_registry.specs.Changes.{members_of, canonical_data, edges_of, given, IsGiven};

use crate::kept::Kept;
use entity_map::{EntityRef, OutOfMemory};
use module_types::ModuleTypes;
use std::alloc::Global;
use std::marker::Model;
use std::rc::Rc;
use wasm_index::{ModuleInternedTypeIndex, VMSharedTypeIndex};
use wasm_trace::TypeTrace;
use wasm_types::WasmRecGroup;

/// A group that is not kept yet, and a second copy of its canonical members.
#[derive(Drop)]
pub(crate) struct Fresh {
    pub(crate) kept: Kept,
    pub(crate) name: Rc<WasmRecGroup>,
}

/// A contract sees the group with its first index.
impl Model for Fresh {
    ghost use Rattle.std.specs.Prelude.{◌≡◌, ℕ};
    ghost use Rattle.type_registry.specs.Registry.{Group};
    ghost use Rattle.type_registry.specs.Changes.{first_index};

    ghost Value = { ℕ × Group };

    ghost view = { λ f. (first_index f.kept, f.kept) };

    ghost invariant = { λ f. f.name.value ≡ f.kept.canonical };
}

/// A copy of the types from one position to another.
pub(crate) fn members(
    alloc: Global,
    types: &ModuleTypes,
    start: u32,
    end: u32,
) -> Result<WasmRecGroup, OutOfMemory>
    requires range { start ≤ end }
    requires within { end ≤ length types.now.types }
    ensures { IfOk result (λ g. g ≡ members_of types.now (record { start = start; end = end })) }
{
    let mut copies = Vec::with_capacity(alloc, (end - start) as usize)?;
    for index in start..end {
        let ty = types[ModuleInternedTypeIndex::from_u32(index)].try_clone(alloc)?;
        copies.push(ty)?;
    }
    Ok(WasmRecGroup { types: copies })
}

/// The canonical members of the group from one position to another, where the types before it have
/// indices.
pub(crate) fn canonical(
    alloc: Global,
    types: &ModuleTypes,
    start: u32,
    end: u32,
    indices: &[VMSharedTypeIndex],
) -> Result<WasmRecGroup, OutOfMemory>
    requires range { start ≤ end }
    requires few { end < u32.MAX }
    requires within { end ≤ length types.now.types }
    requires can { All (CanBeConsedEdge (IsGiven (length indices.now)) start end) (edges_of (members_of types.now (record { start = start; end = end }))) }
    ensures { IfOk result (λ g. group_of g ≡ canonical_data types.now (map number_of indices.now) (record { start = start; end = end })) }
{
    let mut group = members(alloc, types, start, end)?;
    let range = ModuleInternedTypeIndex::from_u32(start)..ModuleInternedTypeIndex::from_u32(end);
    let engine = |index: ModuleInternedTypeIndex| -> VMSharedTypeIndex
        requires { number_of index < length indices.now }
        ensures { result ≡ given (map number_of indices.entry.now) index }
    { indices[index.index()] };
    group.canonicalize_for_hash_consing(range, &engine);
    Ok(group)
}

/// The members of the group from one position to another as they are used, where they and the types
/// before them have indices.
pub(crate) fn used(
    alloc: Global,
    types: &ModuleTypes,
    start: u32,
    end: u32,
    indices: &[VMSharedTypeIndex],
) -> Result<WasmRecGroup, OutOfMemory>
    requires range { start ≤ end }
    requires within { end ≤ length types.now.types }
    requires can { All (CanBeRuntimeEdge (IsGiven (length indices.now))) (edges_of (members_of types.now (record { start = start; end = end }))) }
    ensures { IfOk result (λ g. group_of g
        ≡ map_group (named (runtime_edge (given (map number_of indices.now)))) (runtime_edge (given (map number_of indices.now)))
        (group_of (members_of types.now (record { start = start; end = end })))) }
{
    let mut group = members(alloc, types, start, end)?;
    let engine = |index: ModuleInternedTypeIndex| -> VMSharedTypeIndex
        requires { number_of index < length indices.now }
        ensures { result ≡ given (map number_of indices.entry.now) index }
    { indices[index.index()] };
    group.canonicalize_for_runtime_usage(&engine);
    Ok(group)
}
