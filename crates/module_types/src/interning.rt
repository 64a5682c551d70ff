//! Groups of a list of types, interned under their ids.

ghost use Rattle.std.specs.Prelude.{◌≡◌, ◌↔◌, ◌<◌, length, IfOk, IsOk, IsSome, OnOk, OnErr, Err, true, false};
ghost use Rattle.form_types.specs.Types.{types_by_id};
ghost use Rattle.wasm_index.specs.Index.{number_of, index_of};
ghost use Rattle.module_types.specs.Conversion.{members_of, group_of_id, interned_members, interned_index, HoldsGroups, NamesInterned};
ghost use Rattle.module_types.specs.Builder.{builder_view, group_index, interns};

use crate::builder::ModuleTypesBuilder;
use crate::error::BuildError;
use crate::group_converter::GroupConverter;
use form_types::{RecGroupId, Types};
use wasm_index::{ModuleInternedRecGroupIndex, ModuleInternedTypeIndex};
use wasm_spec::CoreTypeId;

impl ModuleTypesBuilder {
    // The ids of a list of types, as they are looked up now.
    pub(crate) fn looking_up<'a>(&'a self, types: &'a Types) -> GroupConverter<'a>
        ensures list { result.list.now ≡ self.now.list }
        ensures ids { result.ids.now ≡ self.now.ids }
        ensures types { result.types.now ≡ types.now }
        ensures next { result.next ≡ index_of (length self.now.list.types) }
    {
        GroupConverter {
            list: &self.interner.list,
            ids: &self.ids,
            types,
            next: self.interner.list.next_ty(),
        }
    }

    /// Interns a group of a list of types, and gives its index. Where its id is held nothing
    /// changes; a new group is appended, and then the trampolines that are missing.
    ///
    /// # Errors
    /// `OutOfMemory`, and from then on `Poisoned`.
    pub fn intern_rec_group(
        &mut self,
        types: &Types,
        id: RecGroupId,
    ) -> Result<ModuleInternedRecGroupIndex, BuildError>
        requires known { id.0 < length types.now.groups }
        requires filled { 0 < length (members_of types.now id.0) }
        requires holds { HoldsGroups types.now (builder_view self.old) }
        requires named { NamesInterned types.now (builder_view self.old) id.0 }
        requires room { self.old.is_poisoned ≡ false → length (interns (builder_view self.old) id.0 (interned_members types.now (builder_view self.old) id.0)).built.types < u32.MAX }
        ensures index { IfOk result (λ k. number_of k ≡ group_index (builder_view self.old) id.0) }
        ensures interned { OnOk result (builder_view self.new ≡ interns (builder_view self.old) id.0 (interned_members types.now (builder_view self.old) id.0)) }
        ensures held { self.old.is_poisoned ≡ false → IsSome ((builder_view self.old).ids id.0) → IsOk result }
        ensures poisoned { (result ≡ Err BuildError.Poisoned) ↔ (self.old.is_poisoned ≡ true) }
        ensures err { OnErr result (self.new.is_poisoned ≡ true) }
    {
        if self.poisoned {
            return Err(BuildError::Poisoned);
        }
        if let Some(found) = self.ids.get(id.0) {
            return Ok(found);
        }
        self.poisoned = true;
        let next = self.interner.list.next_rec_group();
        self.interner.push_group(self.alloc, &self.ids, types, id)?;
        self.ids.note(id.0, next)?;
        self.poisoned = false;
        Ok(next)
    }

    /// Interns the group of a type, as `intern_rec_group` does, and gives the type's index.
    ///
    /// # Errors
    /// `OutOfMemory`, and from then on `Poisoned`.
    pub fn intern_type(
        &mut self,
        types: &Types,
        id: CoreTypeId,
    ) -> Result<ModuleInternedTypeIndex, BuildError>
        requires known { id.0 < length (types_by_id types.now.groups) }
        requires holds { HoldsGroups types.now (builder_view self.old) }
        requires named { NamesInterned types.now (builder_view self.old) (group_of_id types.now id.0) }
        requires room { self.old.is_poisoned ≡ false → length (interns (builder_view self.old) (group_of_id types.now id.0) (interned_members types.now (builder_view self.old) (group_of_id types.now id.0))).built.types < u32.MAX }
        ensures index { IfOk result (λ k. number_of k ≡ interned_index types.now (builder_view self.new) id.0) }
        ensures interned { OnOk result (builder_view self.new ≡ interns (builder_view self.old) (group_of_id types.now id.0) (interned_members types.now (builder_view self.old) (group_of_id types.now id.0))) }
        ensures held { self.old.is_poisoned ≡ false → IsSome ((builder_view self.old).ids (group_of_id types.now id.0)) → IsOk result }
        ensures poisoned { (result ≡ Err BuildError.Poisoned) ↔ (self.old.is_poisoned ≡ true) }
        ensures err { OnErr result (self.new.is_poisoned ≡ true) }
    {
        let group = types.rec_group_id_of(id);
        self.intern_rec_group(types, group)?;
        Ok(self.looking_up(types).index_of(id))
    }
}
