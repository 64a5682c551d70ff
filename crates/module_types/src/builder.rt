//! The builder of a module's interned types.

ghost use Rattle.std.specs.Prelude.{◌≡◌, ◌↔◌, ◌<◌, ◌-◌, length, slice_get, Some, IfOk, IsOk, OnOk, OnErr, Err, IsTrue, IsSome, true, false};
ghost use Rattle.std.specs.Option.{option_map};
ghost use Rattle.entity_map.specs.Keyed.{keyed};
ghost use Rattle.type_spec.specs.Interned.{composite_at};
ghost use Rattle.wasm_index.specs.Index.{number_of, index_of};
ghost use Rattle.module_types.specs.TypeList.{trampoline_at, elements_of, called_from};

use crate::error::BuildError;
use crate::indices_by_key::IndicesByKey;
use crate::interner::Interner;
use crate::iterators::{RecGroupElements, TrampolineTypes};
use crate::list::{ModuleTypes, WasmTypesIter};
use entity_map::EntityRef;
use form_types::{Validator, ValidatorId};
use std::alloc::Global;
use std::marker::Model;
use std::ops::Index;
use wasm_index::{
    ModuleInternedRecGroupIndex, ModuleInternedRecGroupSpace, ModuleInternedTypeIndex,
    ModuleInternedTypeSpace,
};
use wasm_types::WasmSubType;

/// Interned groups, each once, with the exception types and the startup type made for them.
///
/// A growing call that returns an error poisons the builder: every later growing call returns
/// `Poisoned`.
#[derive(Drop)]
pub struct ModuleTypesBuilder {
    pub(crate) alloc: Global,
    validator: ValidatorId,
    pub(crate) interner: Interner,
    /// The group that was interned under each id of a group.
    pub(crate) ids: IndicesByKey<ModuleInternedRecGroupSpace>,
    /// The exception type of each function type that has one.
    exceptions: IndicesByKey<ModuleInternedTypeSpace>,
    startup: Option<ModuleInternedTypeIndex>,
    pub(crate) poisoned: bool,
}

/// A contract sees the list, the recorded mapped types with their indices, and the recorded
/// exception types and groups; `builder_view` combines them.
impl Model for ModuleTypesBuilder {
    ghost use Rattle.std.specs.Prelude.{◌≡◌, false};
    ghost use Rattle.module_types.specs.MappedTypes.{entries_of, mapped_keys};
    ghost use Rattle.module_types.specs.Interner.{InternerIsSound, built};
    ghost use Rattle.module_types.specs.Listed.{MayBeListed};
    ghost use Rattle.module_types.specs.Builder.{BuilderState};

    ghost Value = { BuilderState };

    ghost view = { λ b. record {
      validator = b.validator.0;
      list = b.interner.list;
      trampolines = entries_of (mapped_keys b.interner.list.types b.interner.mapped_types.types.items);
      ids = b.ids;
      exceptions = b.exceptions;
      startup = b.startup;
      is_poisoned = b.poisoned;
    } };

    ghost invariant = { λ b. b.poisoned ≡ false → InternerIsSound b.interner × MayBeListed (built b.interner) };
}

impl ModuleTypesBuilder {
    ghost use Rattle.module_types.specs.Orderly.{IsOrderly};
    ghost use Rattle.module_types.specs.Listed.{Listed, IsUnshared, list_of};
    ghost use Rattle.module_types.specs.Builder.{builder_view, new_builder, exception_index, excepts, is_function, startup_index, starts};

    /// A builder that holds nothing, for the types of a validator.
    pub fn new(alloc: Global, validator: &Validator) -> Self
        ensures { builder_view result ≡ new_builder validator.now }
    {
        let validator = validator.id();
        ModuleTypesBuilder {
            alloc,
            validator,
            interner: Interner::new(alloc),
            ids: IndicesByKey::new(alloc),
            exceptions: IndicesByKey::new(alloc),
            startup: None,
            poisoned: false,
        }
    }

    /// The number of the validator whose types are interned.
    pub fn validator_id(&self) -> ValidatorId
        ensures { result.0 ≡ self.now.validator }
    {
        self.validator
    }

    /// Whether an earlier growing call returned an error.
    pub fn is_poisoned(&self) -> bool
        ensures told { result ≡ self.now.is_poisoned }
        ensures orderly { self.now.is_poisoned ≡ false → IsOrderly (builder_view self.now).built }
    {
        self.poisoned
    }

    /// The exception type of a function type, which is made once.
    ///
    /// # Errors
    /// `OutOfMemory`, and from then on `Poisoned`.
    pub fn define_exception_type_for_tag(
        &mut self,
        for_func_ty: ModuleInternedTypeIndex,
    ) -> Result<ModuleInternedTypeIndex, BuildError>
        requires in_range { number_of for_func_ty < length self.old.list.types }
        requires function { IsTrue (is_function (composite_at (builder_view self.old).built.types (number_of for_func_ty))) }
        requires room { self.old.is_poisoned ≡ false → length (excepts (builder_view self.old) (number_of for_func_ty)).built.types < u32.MAX }
        ensures index { IfOk result (λ k. number_of k ≡ exception_index (builder_view self.old) (number_of for_func_ty)) }
        ensures defined { OnOk result (builder_view self.new ≡ excepts (builder_view self.old) (number_of for_func_ty)) }
        ensures held { self.old.is_poisoned ≡ false → IsSome ((builder_view self.old).exceptions (number_of for_func_ty)) → IsOk result }
        ensures poisoned { (result ≡ Err BuildError.Poisoned) ↔ (self.old.is_poisoned ≡ true) }
        ensures err { OnErr result (self.new.is_poisoned ≡ true) }
    {
        if self.poisoned {
            return Err(BuildError::Poisoned);
        }
        let key = for_func_ty.as_u32();
        if let Some(found) = self.exceptions.get(key) {
            return Ok(found);
        }
        self.poisoned = true;
        let next = self.interner.list.next_ty();
        self.interner.push_exception(self.alloc, for_func_ty)?;
        self.exceptions.note(key, next)?;
        self.poisoned = false;
        Ok(next)
    }

    /// The startup type, a function type without parameters and results, which is made once.
    ///
    /// # Errors
    /// `OutOfMemory`, and from then on `Poisoned`.
    pub fn startup_func_type(&mut self) -> Result<ModuleInternedTypeIndex, BuildError>
        requires room { self.old.is_poisoned ≡ false → length (starts (builder_view self.old)).built.types < u32.MAX }
        ensures index { IfOk result (λ k. number_of k ≡ startup_index (builder_view self.old)) }
        ensures made { OnOk result (builder_view self.new ≡ starts (builder_view self.old)) }
        ensures held { self.old.is_poisoned ≡ false → IsSome (builder_view self.old).startup → IsOk result }
        ensures poisoned { (result ≡ Err BuildError.Poisoned) ↔ (self.old.is_poisoned ≡ true) }
        ensures err { OnErr result (self.new.is_poisoned ≡ true) }
    {
        if self.poisoned {
            return Err(BuildError::Poisoned);
        }
        if let Some(found) = self.startup {
            return Ok(found);
        }
        self.poisoned = true;
        let next = self.interner.list.next_ty();
        self.interner.push_startup(self.alloc)?;
        self.startup = Some(next);
        self.poisoned = false;
        Ok(next)
    }

    /// Reserves capacity for more types. What the builder holds is as before.
    ///
    /// # Errors
    /// `OutOfMemory`, and from then on `Poisoned`.
    pub fn reserve_wasm_signatures(&mut self, amt: usize) -> Result<(), BuildError>
        ensures ok { OnOk result (self.new ≡ self.old) }
        ensures poisoned { (result ≡ Err BuildError.Poisoned) ↔ (self.old.is_poisoned ≡ true) }
        ensures err { OnErr result (self.new.is_poisoned ≡ true) }
    {
        if self.poisoned {
            return Err(BuildError::Poisoned);
        }
        if self.interner.list.reserve(amt).is_err() {
            self.poisoned = true;
            return Err(BuildError::OutOfMemory);
        }
        Ok(())
    }

    /// The list that was built: consecutive groups, whose references name types of the same group
    /// or of earlier ones, by their kinds.
    pub fn finish(self) -> ModuleTypes
        requires { self.is_poisoned ≡ false }
        ensures built { result ≡ self.list }
        ensures listed { Listed result }
        ensures unshared { IsUnshared (list_of result).types }
    {
        let count = self.interner.list.len_types();
        prove!(count < u32::MAX as usize);
        self.interner.list
    }

    /// Each type with its index, in index order.
    pub fn wasm_types(&self) -> WasmTypesIter<'_>
        ensures { result ≡ keyed index_of self.now.list.types }
    {
        self.interner.list.wasm_types()
    }

    /// The indices of the types of a group, in order.
    pub fn rec_group_elements(&self, rec_group: ModuleInternedRecGroupIndex) -> RecGroupElements
        requires { number_of rec_group < length self.now.list.groups }
        ensures { Some result ≡ option_map elements_of (slice_get self.now.list.groups (number_of rec_group)) }
    {
        self.interner.list.rec_group_elements(rec_group)
    }

    /// Each function type that has a trampoline, with the trampoline's index, in index order.
    pub fn trampoline_types(&self) -> TrampolineTypes<'_>
        ensures { result ≡ called_from 0 self.now.list.trampolines }
    {
        self.interner.list.trampoline_types()
    }

    /// The trampoline of a function type: the type by which it is called.
    pub fn trampoline_type(&self, ty: ModuleInternedTypeIndex) -> ModuleInternedTypeIndex
        requires { IsSome (trampoline_at self.now.list (number_of ty)) }
        ensures { trampoline_at self.now.list (number_of ty) ≡ Some result }
    {
        self.interner.list.trampoline_type(ty)
    }
}

impl Index<ModuleInternedTypeIndex> for ModuleTypesBuilder {
    type Output = WasmSubType;

    ghost can_index = { λ b ty. number_of ty < length b.list.types };

    ghost index_gives = { λ b ty t. slice_get b.list.types (number_of ty) ≡ Some t };

    fn index(&self, ty: ModuleInternedTypeIndex) -> &WasmSubType {
        &self.interner.list[ty]
    }
}
