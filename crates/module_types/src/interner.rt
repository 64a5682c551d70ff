//! Consecutive groups, with the trampolines of their functions.

ghost use Rattle.std.specs.Prelude.{◌≡◌, ◌+◌, ◌-◌, ◌<◌, ◌≤◌, [], ◌∷◌, ◌++◌, length, map, drop, Some, IfOk, OnOk, IsTrue, true};
ghost use Rattle.std.specs.Option.{option_map};
ghost use Rattle.wasm_spec.specs.TypeData.{Func};
ghost use Rattle.type_spec.specs.Interned.{empty, plain, alone, assign_trampoline, assign_trampolines, with_group, with_exception, with_startup, composite_at};
ghost use Rattle.wasm_index.specs.Index.{number_of};
ghost use Rattle.wasm_types.specs.Views.{func_in};
ghost use Rattle.wasm_types.specs.Trampolines.{trampoline_of};
ghost use Rattle.module_types.specs.Views.{called_of, interned_of, field_at};
ghost use Rattle.module_types.specs.Builder.{is_function};
ghost use Rattle.module_types.specs.Conversion.{interned_members};
ghost use Rattle.module_types.specs.InTurn.{CanIntern};
ghost use Rattle.module_types.specs.Interner.{built, holding, known, with_next_trampoline, FindsMapped, InternerIsSound, IsTrampoline};
ghost use Rattle.module_types.specs.Listed.{MayBeListed};
ghost use Rattle.module_types.specs.MappedTypes.{digest_of};

use crate::group_converter::GroupConverter;
use crate::indices_by_key::IndicesByKey;
use crate::list::ModuleTypes;
use crate::mapped_types::MappedTypes;
use entity_map::{EntityRef, OutOfMemory, TryCow};
use form_types::{RecGroupId, Types};
use std::alloc::Global;
use wasm_convert::TypeConvert;
use wasm_index::{ModuleInternedRecGroupSpace, ModuleInternedTypeIndex};
use wasm_types::{
    EngineOrModuleTypeIndex, WasmCompositeInnerType, WasmCompositeType, WasmExnType, WasmFieldType,
    WasmFuncType, WasmStorageType, WasmSubType, WasmValType,
};

/// A list of interned types, and which of them are recorded mapped types.
#[derive(Drop)]
pub(crate) struct Interner {
    pub(crate) list: ModuleTypes,
    pub(crate) mapped_types: MappedTypes,
}

// A final function type without supertype.
fn plain_function(ty: WasmFuncType) -> WasmSubType
    ensures interned { interned_of result ≡ plain (Func (called_of ty)) }
    ensures function { func_in result.composite_type.inner ≡ Some ty }
{
    WasmSubType {
        is_final: true,
        supertype: None,
        composite_type: WasmCompositeType {
            inner: WasmCompositeInnerType::Func(ty),
            shared: false,
        },
    }
}

// The type by which functions of a type are called.
#[derive(Drop)]
pub(crate) enum Trampoline {
    /// It is known, at an index.
    Known(ModuleInternedTypeIndex),
    /// It is the function's own type, of this digest, which is not known yet.
    Itself(u64),
    /// It is another type, of this digest, which is not known yet.
    New(u64, WasmFuncType),
}

// The fields of an exception type: one for each parameter.
fn fields_of_params(alloc: Global, types: &[WasmValType]) -> Result<Vec<WasmFieldType>, OutOfMemory>
    ensures { IfOk result (λ v. v.items ≡ map field_at types.now) }
{
    let mut fields = Vec::with_capacity(alloc, types.len())?;
    for ty in types {
        fields.push(WasmFieldType {
            element_type: WasmStorageType::Val(*ty),
            mutable: false,
        })?;
    }
    Ok(fields)
}

impl Interner {
    /// An interner that holds nothing.
    pub(crate) fn new(alloc: Global) -> Interner
        ensures built { built result ≡ empty }
        ensures found { FindsMapped result }
    {
        Interner {
            list: ModuleTypes::new(alloc),
            mapped_types: MappedTypes::new(alloc, 0),
        }
    }

    // Lets the digests of mapped types begin from a seed, as long as no trampoline is known.
    fn seed_from(&mut self, alloc: Global, seed: u64)
        requires found { FindsMapped self.old }
        ensures built { built self.new ≡ built self.old }
        ensures found { FindsMapped self.new }
    {
        if self.mapped_types.types.is_empty() {
            self.mapped_types = MappedTypes::new(alloc, seed);
        }
    }

    // Appends a type, in a group with no other member.
    fn push_alone(
        &mut self,
        ty: WasmSubType,
        trampoline: Option<ModuleInternedTypeIndex>,
    ) -> Result<(), OutOfMemory>
        requires room { length self.old.list.types < u32.MAX - 1 }
        requires sound { InternerIsSound self.old }
        ensures built { OnOk result (built self.new ≡ alone (built self.old) (interned_of ty) (option_map number_of trampoline)) }
        ensures sound { OnOk result (InternerIsSound self.new) }
        ensures types { OnOk result (self.new.list.types ≡ self.old.list.types ++ ty ∷ []) }
        ensures mapped { self.new.mapped_types ≡ self.old.mapped_types }
    {
        let start = self.list.push_called(ty, trampoline)?;
        let end = self.list.next_ty();
        self.list.push_rec_group(start..end)?;
        Ok(())
    }

    // The type by which functions of a type are called: its index, or else the type with its
    // digest.
    fn find_trampoline(&self, alloc: Global, func: &WasmFuncType) -> Result<Trampoline, OutOfMemory>
        requires found { FindsMapped self.now }
        ensures { IfOk result (IsTrampoline (known self.now) self.now.mapped_types.hasher func.now) }
    {
        let digest = self.mapped_types.digest(func);
        if let Some(found) = self.mapped_types.find(&self.list, digest, func) {
            return Ok(Trampoline::Known(found));
        }
        match func.trampoline_type(alloc)? {
            TryCow::Borrowed(_) => Ok(Trampoline::Itself(digest)),
            TryCow::Owned(other) => Ok(Trampoline::New(digest, other)),
        }
    }

    // Appends the trampoline of the type at an index, at the next index.
    fn push_trampoline(
        &mut self,
        ty: ModuleInternedTypeIndex,
        digest: u64,
        mapped: WasmFuncType,
    ) -> Result<(), OutOfMemory>
        requires in_range { number_of ty < length self.old.list.types }
        requires room { length self.old.list.types < u32.MAX - 1 }
        requires sound { InternerIsSound self.old }
        requires mapped { trampoline_of mapped ≡ mapped }
        requires digest { digest ≡ digest_of self.old.mapped_types.hasher mapped }
        ensures built { OnOk result (built self.new ≡ with_next_trampoline (built self.old) (number_of ty) (called_of mapped)) }
        ensures found { OnOk result (FindsMapped self.new) }
    {
        let trampoline = self.list.next_ty();
        self.list.set_trampoline(ty, trampoline);
        self.push_alone(plain_function(mapped), Some(trampoline))?;
        self.mapped_types.note(digest, trampoline)
    }

    // Gives the type at an index its trampoline, if it is a function.
    fn assign_trampoline(
        &mut self,
        alloc: Global,
        ty: ModuleInternedTypeIndex,
    ) -> Result<(), OutOfMemory>
        requires in_range { number_of ty < length self.old.list.types }
        requires sound { InternerIsSound self.old }
        requires room { length (assign_trampoline (built self.old) (number_of ty) (composite_at (built self.old).types (number_of ty))).types < u32.MAX }
        ensures built { OnOk result (built self.new ≡ assign_trampoline (built self.old) (number_of ty) (composite_at (built self.old).types (number_of ty))) }
        ensures found { OnOk result (FindsMapped self.new) }
    {
        let WasmCompositeInnerType::Func(func) = &self.list[ty].composite_type.inner else {
            return Ok(());
        };
        match self.find_trampoline(alloc, func)? {
            Trampoline::Known(found) => self.list.set_trampoline(ty, found),
            Trampoline::Itself(digest) => {
                self.mapped_types.note(digest, ty)?;
                self.list.set_trampoline(ty, ty);
            }
            Trampoline::New(digest, mapped) => self.push_trampoline(ty, digest, mapped)?,
        }
        Ok(())
    }

    // Gives each of the types from an index on its trampoline.
    fn assign_trampolines(&mut self, alloc: Global, first: usize) -> Result<(), OutOfMemory>
        requires in_range { first ≤ length self.old.list.types }
        requires sound { InternerIsSound self.old }
        requires room { length (assign_trampolines (built self.old) first (drop first (built self.old).types)).types < u32.MAX }
        ensures built { OnOk result (built self.new ≡ assign_trampolines (built self.old) first (drop first (built self.old).types)) }
        ensures sound { OnOk result (InternerIsSound self.new) }
    {
        for i in first..self.list.len_types() {
            self.assign_trampoline(alloc, ModuleInternedTypeIndex::new(i))?;
        }
        Ok(())
    }

    /// Appends a group of a list of types, and then the trampolines that are missing. For the first
    /// group, digests of mapped types begin from the list's seed.
    pub(crate) fn push_group(
        &mut self,
        alloc: Global,
        ids: &IndicesByKey<ModuleInternedRecGroupSpace>,
        types: &Types,
        id: RecGroupId,
    ) -> Result<(), OutOfMemory>
        requires can { CanIntern types.now (holding (built self.old) ids.now) id.0 }
        requires sound { InternerIsSound self.old }
        requires room { length (with_group (built self.old) (interned_members types.now (holding (built self.old) ids.now) id.0)).types < u32.MAX }
        ensures built { OnOk result (built self.new ≡ with_group (built self.old) (interned_members types.now (holding (built self.old) ids.now) id.0)) }
        ensures sound { OnOk result (InternerIsSound self.new) }
        ensures listed { OnOk result (MayBeListed (built self.old) → MayBeListed (built self.new)) }
    {
        let next = self.list.next_ty();
        let members = types.members(id);
        // Also reserves capacity for one trampoline, which functions of one group mostly share.
        // Without it the list would double for one type.
        self.list.reserve(members.len() + 1)?;
        // Each type is converted straight into the list. A separate list of them would have the
        // same length, and only be moved. So references of the group count from where it starts,
        // and not from the list's next index.
        for member in members {
            let list = &self.list;
            let converter = GroupConverter {
                list,
                ids,
                types,
                next,
            };
            let ty = converter.convert_sub_type(alloc, member)?;
            self.list.push(ty)?;
        }
        let end = self.list.next_ty();
        self.list.push_rec_group(next..end)?;
        self.seed_from(alloc, types.seed());
        self.assign_trampolines(alloc, next.index())
    }

    /// Appends the exception type of a function type.
    pub(crate) fn push_exception(
        &mut self,
        alloc: Global,
        function: ModuleInternedTypeIndex,
    ) -> Result<(), OutOfMemory>
        requires in_range { number_of function < length self.old.list.types }
        requires function { IsTrue (is_function (composite_at (built self.old).types (number_of function))) }
        requires sound { InternerIsSound self.old }
        requires room { length self.old.list.types < u32.MAX - 1 }
        ensures built { OnOk result (built self.new ≡ with_exception (built self.old) (number_of function)) }
        ensures sound { OnOk result (InternerIsSound self.new) }
    {
        let WasmCompositeInnerType::Func(func) = &self.list[function].composite_type.inner else {
            unreachable!()
        };
        let fields = fields_of_params(alloc, func.params())?;
        let ty = WasmSubType {
            is_final: true,
            supertype: None,
            composite_type: WasmCompositeType {
                inner: WasmCompositeInnerType::Exn(WasmExnType {
                    func_ty: EngineOrModuleTypeIndex::Module(function),
                    fields,
                }),
                shared: false,
            },
        };
        self.push_alone(ty, None)
    }

    /// Appends the startup type.
    pub(crate) fn push_startup(&mut self, alloc: Global) -> Result<(), OutOfMemory>
        requires sound { InternerIsSound self.old }
        requires room { length self.old.list.types < u32.MAX - 1 }
        ensures built { OnOk result (built self.new ≡ with_startup (built self.old) true) }
        ensures sound { OnOk result (InternerIsSound self.new) }
    {
        let ty = WasmFuncType::from_types(Vec::new(alloc), 0);
        self.push_alone(plain_function(ty), None)
    }
}
