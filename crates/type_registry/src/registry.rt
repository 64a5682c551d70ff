//! The registry.

ghost use Rattle.std.specs.Prelude.{◌≡◌, ◌↔◌, ◌<◌, ◌+◌, ℕ, length, Contains, IsTrue, IsSome, IsOk, IfSome, IfOk, OnOk, OnErr, IsErrOf};
ghost use Rattle.std.specs.Option.{option_copied, option_map};
ghost use Rattle.wasm_types.specs.TypeViews.{sub_type_of};
ghost use Rattle.wasm_index.specs.Index.{number_of};
ghost use Rattle.type_registry.specs.declared.error.RegistryError.TheVariants as refused;
ghost use Rattle.type_registry.specs.Keys.{key_number};
ghost use Rattle.type_registry.specs.Registry.{registry_of, empty, index_at, count_of, live, type_at, HasEngineEdges};
ghost use Rattle.type_registry.specs.Changes.{registered, released, planned, fresh, IsFull, leave_groups, count_groups, keep_groups};
ghost use Rattle.type_registry.specs.Counted.{counted};
ghost use Rattle.type_registry.specs.Fresh.{MayKeepAll};
ghost use Rattle.module_types.specs.Listed.{Listed};
ghost use Rattle.type_registry.specs.Standing.{LiveWhereHeld, Stands};
ghost use Rattle.module_types.specs.TypeList.{TypeList};

use crate::error::RegistryError;
use crate::groups::Groups;
use crate::hashing::next_seed;
use crate::kept::Held;
use crate::key::ModuleKey;
use crate::plan::Fresh;
use crate::planning::{Planned, RegistrationInput, plan_groups};
use entity_map::EntityRef;
use module_types::ModuleTypes;
use std::alloc::Global;
use std::collections::HashMap;
use std::marker::Model;
use wasm_index::{ModuleInternedTypeIndex, VMSharedTypeIndex};
use wasm_types::{WasmSubType, equality_law};

/// The types of held modules, each group once. Equal types have one index.
#[derive(Drop)]
pub struct TypeRegistry {
    alloc: Global,
    max_types: u32,
    registrations: u64,
    /// A digest of all that was registered, from which hashes of canonical groups begin.
    seed: u64,
    modules: HashMap<u64, Held>,
    groups: Groups,
}

/// A contract sees the held modules and the kept groups, by `registry_of`.
impl Model for TypeRegistry {
    ghost use Rattle.std.specs.Prelude.{◌≤◌, ◌<◌, ◌*◌, length};
    ghost use Rattle.type_registry.specs.Registry.{RegistryState, indices_of, registry_of};
    ghost use Rattle.type_registry.specs.Counted.{counted};
    ghost use Rattle.type_registry.specs.Balanced.{IsBalanced};

    ghost Value = { RegistryState };

    ghost view = { λ m. record {
      max_types = m.max_types;
      registrations = m.registrations;
      modules = m.modules.entries;
      groups = m.groups.groups;
    } };

    // Held modules and kept groups agree, and counts of groups do not overflow.
    ghost invariant = { λ m. (length (indices_of m.groups.groups) ≤ m.max_types) × (m.max_types < 4294967295)
        × IsBalanced (registry_of (record {
          max_types = m.max_types;
          registrations = m.registrations;
          modules = m.modules.entries;
          groups = m.groups.groups;
        }))
        × (counted m.groups.groups ≤ m.registrations * 4294967296) };
}

/// Counts the groups of a module once less.
fn leave_all(groups: &mut Groups, firsts: &[u32])
    ensures { groups.new.groups ≡ leave_groups groups.old.groups firsts.now }
{
    for first in firsts {
        groups.leave(*first);
    }
}

/// Keeps the new groups of a module.
fn keep_all(groups: &mut Groups, fresh: Vec<Fresh>)
    requires { MayKeepAll groups.old fresh.items }
    ensures { groups.new.groups ≡ keep_groups groups.old.groups fresh.items }
{
    for group in fresh {
        let Fresh { kept, name } = group;
        groups.keep(kept, name);
    }
}

/// Counts the groups of a module once more.
fn count_all(groups: &mut Groups, firsts: &[u32])
    requires { counted groups.old.groups + length firsts.now < u128.MAX }
    ensures { groups.new.groups ≡ count_groups groups.old.groups firsts.now }
{
    for first in firsts {
        groups.count(*first);
    }
}

/// Keeps the new groups of a module, and counts each of its groups once more.
fn keep_planned(groups: &mut Groups, listed: &Held, fresh: Vec<Fresh>)
    requires may { MayKeepAll groups.old fresh.items }
    requires few { counted groups.old.groups + counted fresh.items + length listed.now.groups < u128.MAX }
    ensures { groups.new.groups ≡ count_groups (keep_groups groups.old.groups fresh.items) listed.now.groups }
{
    keep_all(groups, fresh);
    count_all(groups, &listed.groups);
}

impl TypeRegistry {
    /// A registry that holds nothing, in which at most `max_types` types may be live.
    pub fn new(alloc: Global, max_types: u32) -> Self
        requires { max_types < u32.MAX }
        ensures empty { registry_of result ≡ empty max_types }
        ensures live { LiveWhereHeld (registry_of result) }
    {
        TypeRegistry {
            alloc,
            max_types,
            registrations: 0,
            seed: 0,
            modules: HashMap::new(alloc),
            groups: Groups::new(alloc),
        }
    }

    /// How many indices are live.
    pub fn live_types(&self) -> u32
        ensures { result ≡ length (live (registry_of self.now)) }
    {
        self.groups.live_types()
    }

    /// How many modules were registered, whether they are still held or not.
    pub fn registrations(&self) -> u64
        ensures { result ≡ self.now.registrations }
    {
        self.registrations
    }

    /// The module that is held under a key.
    fn held(&self, key: ModuleKey) -> Option<&Held>
        ensures { option_copied result ≡ (registry_of self.now).held (key_number key) }
    {
        self.modules.get(&key.0)
    }

    /// How many types the module has that is held under a key: none where the key is not held.
    pub fn type_count(&self, key: ModuleKey) -> Option<u32>
        ensures { result ≡ count_of (registry_of self.now) (key_number key) }
    {
        Some(self.held(key)?.len())
    }

    /// The engine's index of a type of a held module: none where the key is not held, or where the
    /// module has no such type.
    pub fn index_of(&self, key: ModuleKey, ty: ModuleInternedTypeIndex) -> Option<VMSharedTypeIndex>
        ensures { option_map number_of result ≡ index_at (registry_of self.now) (key_number key) (number_of ty) }
    {
        self.held(key)?.index_at(ty.index())
    }

    /// The live type at an index, whose references are all the engine's: none where the index is
    /// not live.
    pub fn get(&self, index: VMSharedTypeIndex) -> Option<&WasmSubType>
        ensures found { option_map sub_type_of (option_copied result) ≡ type_at (registry_of self.now) (number_of index) }
        ensures live { IsSome result ↔ Contains (live (registry_of self.now)) (number_of index) }
        ensures engine { IfSome result (λ t. HasEngineEdges t.now) }
    {
        self.groups.get(index)
    }

    /// Whether two types of held modules have one index, which is where they are equal by group and
    /// position.
    pub fn same(
        &self,
        a: ModuleKey,
        i: ModuleInternedTypeIndex,
        b: ModuleKey,
        j: ModuleInternedTypeIndex,
    ) -> bool
        requires first { IsSome (index_at (registry_of self.now) (key_number a) (number_of i)) }
        requires second { IsSome (index_at (registry_of self.now) (key_number b) (number_of j)) }
        ensures { IsTrue result ↔ (index_at (registry_of self.now) (key_number a) (number_of i) ≡ index_at (registry_of self.now) (key_number b) (number_of j)) }
    {
        self.index_of(a, i) == self.index_of(b, j)
    }

    /// What the registration of a list finds. Hashes begin from the seed.
    ///
    /// # Errors
    /// `Full` where there would be more types than may be live, and `OutOfMemory`.
    fn plan(&self, types: &ModuleTypes, seed: u64) -> Result<Planned, RegistryError>
        requires { Listed types.now }
        ensures ok { IfOk result (λ p. p ≡ planned (registry_of self.now) types.now) }
        ensures fits { OnOk result (self.now.max_types < length (live (registry_of self.now)) + fresh (registry_of self.now) types.now → ⊥) }
        ensures few { IfOk result (λ p. length p.listed.groups < 4294967296) }
        ensures short { OnOk result (length types.now.types < u32.MAX) }
        ensures full { IsErrOf result refused.Full → self.now.max_types < length (live (registry_of self.now)) + fresh (registry_of self.now) types.now }
        ensures held { IsErrOf result refused.NotHeld → ⊥ }
    {
        let source = RegistrationInput {
            alloc: self.alloc,
            types,
            groups: &self.groups,
            room: self.max_types - self.groups.live_types(),
        };
        plan_groups(source, seed)
    }

    /// Holds a module of these types. Each group that no held module has gets the least indices
    /// that are not live. Each other group has the indices that it has already. The key's number is
    /// how many modules were registered before.
    ///
    /// # Errors
    /// `Full` where there would be more types than may be live, or where no number remains for the
    /// key; and `OutOfMemory`. The registry is unchanged then.
    pub fn register(&mut self, types: &ModuleTypes) -> Result<ModuleKey, RegistryError>
        requires { Listed types.now }
        ensures key { IfOk result (λ key. key_number key ≡ self.old.registrations) }
        ensures lower { OnOk result ((k : ℕ) → IsSome ((registry_of self.old).held k) → k < self.old.registrations) }
        ensures ok { OnOk result (registry_of self.new ≡ registered (registry_of self.old) types.now) }
        ensures fits { OnOk result (IsFull (registry_of self.old) types.now → ⊥) }
        ensures full { IsErrOf result refused.Full → IsFull (registry_of self.old) types.now }
        ensures held { IsErrOf result refused.NotHeld → ⊥ }
        ensures err { OnErr result (registry_of self.new ≡ registry_of self.old) }
        ensures stands { IfOk result (λ key. Stands (registry_of self.new) (key_number key) types.now) }
        ensures others { (k : ℕ) (list : TypeList) → Stands (registry_of self.old) k list → Stands (registry_of self.new) k list }
        ensures indices { OnOk result ((k i : ℕ) → IsSome ((registry_of self.old).held k)
            → index_at (registry_of self.new) k i ≡ index_at (registry_of self.old) k i) }
        ensures live { LiveWhereHeld (registry_of self.new) }
    {
        if self.registrations == u64::MAX {
            return Err(RegistryError::Full);
        }
        let seed = next_seed(self.seed, types);
        let Planned { listed, fresh } = self.plan(types, seed)?;
        let indices = self.groups.live_types() + fresh.members();
        self.groups
            .make_room(self.alloc, indices, fresh.len(), seed)?;
        self.modules.reserve(1)?;
        let key = self.registrations;
        equality_law();
        keep_planned(&mut self.groups, &listed, fresh.into_groups());
        self.modules.insert(key, listed).ok();
        self.registrations += 1;
        self.seed = seed;
        Ok(ModuleKey(key))
    }

    /// Releases a module. Groups that no held module has any more are removed, and their indices
    /// are free. It needs no memory.
    ///
    /// # Errors
    /// `NotHeld` where no module is held under the key; the registry is unchanged then.
    #[tactic(auto, using(crate::proofs::Leaving::left_short))]
    pub fn release(&mut self, key: ModuleKey) -> Result<(), RegistryError>
        ensures ok { OnOk result (registry_of self.new ≡ released (registry_of self.old) (key_number key)) }
        ensures held { IsOk result ↔ IsSome ((registry_of self.old).held (key_number key)) }
        ensures not_held { OnErr result (IsErrOf result refused.NotHeld) }
        ensures err { OnErr result (registry_of self.new ≡ registry_of self.old) }
        ensures others { (k : ℕ) (list : TypeList) → (k ≡ key_number key → ⊥) → Stands (registry_of self.old) k list → Stands (registry_of self.new) k list }
        ensures indices { OnOk result ((k i : ℕ) → (k ≡ key_number key → ⊥)
            → index_at (registry_of self.new) k i ≡ index_at (registry_of self.old) k i) }
        ensures live { LiveWhereHeld (registry_of self.new) }
    {
        let Some(held) = self.modules.remove(&key.0) else {
            return Err(RegistryError::NotHeld);
        };
        leave_all(&mut self.groups, &held.groups);
        Ok(())
    }
}
