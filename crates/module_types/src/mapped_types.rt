//! The mapped types that were recorded, found by their digests and compared in the list of types.

ghost use Rattle.std.specs.Prelude.{◌≡◌, [], List, Some, OnOk};
ghost use Rattle.wasm_types.specs.declared.sub.WasmSubType.{WasmSubType};
ghost use Rattle.wasm_types.specs.declared.func.WasmFuncType.{WasmFuncType};
ghost use Rattle.wasm_types.specs.Trampolines.{trampoline_of};
ghost use Rattle.wasm_types.specs.Views.{func_in};
ghost use Rattle.module_types.specs.TypeParts.{part_at};
ghost use Rattle.module_types.specs.MappedTypes.{digest_of, newest_of, mapped_at, AreFoundByDigest, IsNoted};

use crate::list::ModuleTypes;
use crate::mapped::is_mapped;
use crate::passed::feed;
use entity_map::{OutOfMemory, Seeded};
use std::alloc::Global;
use std::collections::HashMap;
use std::hash::{BuildHasher, Hasher};
use wasm_index::ModuleInternedTypeIndex;
use wasm_types::WasmFuncType;

/// A recorded function type, by its index in a list of types.
#[derive(Clone, Copy)]
pub(crate) struct MappedType {
    pub(crate) ty: ModuleInternedTypeIndex,
    /// How many were recorded up to the previous one with the same digest, or 0.
    pub(crate) before: u32,
}

/// The recorded function types: each by its index in a list of types, so that none is kept twice.
/// Those of one digest are chained, from the newest on.
#[derive(Drop)]
pub(crate) struct MappedTypes {
    pub(crate) hasher: Seeded,
    /// How many were recorded up to the newest of each digest.
    pub(crate) newest: HashMap<u64, u32, Seeded>,
    pub(crate) types: Vec<MappedType>,
}

impl MappedTypes {
    /// No type is recorded. Digests begin from the seed.
    pub(crate) fn new(alloc: Global, seed: u64) -> MappedTypes
        ensures none { result.types.items ≡ [] }
        ensures linked { (types : List WasmSubType) → AreFoundByDigest types result }
    {
        let hasher = Seeded::new(seed);
        MappedTypes {
            hasher,
            newest: HashMap::with_hasher(alloc, hasher),
            types: Vec::new(alloc),
        }
    }

    /// The digest of a function type, which is that of its mapped type.
    pub(crate) fn digest(&self, func: &WasmFuncType) -> u64
        ensures { result ≡ digest_of self.now.hasher (trampoline_of func.now) }
    {
        let mut hasher = self.hasher.build_hasher();
        feed(&mut hasher, func.params());
        feed(&mut hasher, func.results());
        hasher.finish()
    }

    /// The index of the mapped type of a function type of this digest, if it was recorded.
    pub(crate) fn find(
        &self,
        list: &ModuleTypes,
        digest: u64,
        func: &WasmFuncType,
    ) -> Option<ModuleInternedTypeIndex>
        requires linked { AreFoundByDigest list.now.types self.now }
        requires digest { digest ≡ digest_of self.now.hasher (trampoline_of func.now) }
        ensures { result ≡ mapped_at list.now.types self.now (trampoline_of func.now) }
    {
        let mut left = self.newest.get(&digest).copied().unwrap_or(0);
        while left > 0 {
            let recorded = self.types[left as usize - 1];
            if is_mapped(func, list[recorded.ty].composite_type.inner.unwrap_func()) {
                return Some(recorded.ty);
            }
            left = recorded.before;
        }
        None
    }

    /// Records a function type of this digest, which was not recorded before and is at an index.
    pub(crate) fn note(
        &mut self,
        digest: u64,
        ty: ModuleInternedTypeIndex,
    ) -> Result<(), OutOfMemory>
        ensures { OnOk result ((types : List WasmSubType) (f : WasmFuncType) → AreFoundByDigest types self.old → part_at func_in types ty ≡ Some f
            → digest ≡ digest_of self.old.hasher f → IsNoted types self.old self.new f ty) }
    {
        // A list has fewer types, and none is recorded twice, so this never happens.
        let count = self.types.len() + 1;
        if count > u32::MAX as usize {
            return Err(OutOfMemory);
        }
        let before = self.newest.insert(digest, count as u32)?.unwrap_or(0);
        self.types.push(MappedType { ty, before })?;
        Ok(())
    }
}
