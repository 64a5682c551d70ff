//! The list of a module's interned types.

ghost use Rattle.std.specs.Prelude.{◌≡◌, ◌<◌, ◌+◌, ◌-◌, length, map, slice_get, Some, None, IfOk, IsOk, OnOk, OnErr, IsSome};
ghost use Rattle.std.specs.Option.{option_copied, option_map};
ghost use Rattle.std.specs.Borrow.{sem};
ghost use Rattle.entity_map.specs.Keyed.{keyed};
ghost use Rattle.entity_map.specs.ValuesMut.{left};
ghost use Rattle.wasm_index.specs.Index.{number_of, index_of};
ghost use Rattle.module_types.specs.Lent.{LendsTypes};
ghost use Rattle.module_types.specs.Views.{span_of};
ghost use Rattle.module_types.specs.TypeList.{no_types, with_type, with_range, called_by, trampoline_at, elements_of, called_from};

use crate::iterators::{RecGroupElements, RecGroups, TrampolineTypes};
use entity_map::{EntityRef, OutOfMemory, PrimaryIter, PrimaryMap, ValuesMut};
use std::alloc::Global;
use std::marker::Model;
use std::ops::{Index, Range};
use wasm_index::{ModuleInternedRecGroupIndex, ModuleInternedTypeIndex};
use wasm_types::WasmSubType;

/// Each interned type with its index, in index order.
pub type WasmTypesIter<'a> = PrimaryIter<'a, ModuleInternedTypeIndex, WasmSubType>;

/// Each interned type in index order, for writing.
pub type TypesMut<'a> = ValuesMut<'a, WasmSubType>;

/// The interned types of a module, their groups, and the trampoline of each function type that has
/// one.
#[derive(Drop)]
pub struct ModuleTypes {
    pub(crate) wasm_types: PrimaryMap<ModuleInternedTypeIndex, WasmSubType>,
    rec_groups: PrimaryMap<ModuleInternedRecGroupIndex, Range<ModuleInternedTypeIndex>>,
    trampolines: Vec<Option<ModuleInternedTypeIndex>>,
}

/// A contract sees the three lists.
impl Model for ModuleTypes {
    ghost use Rattle.std.specs.Prelude.{◌≡◌, ◌<◌, length};
    ghost use Rattle.module_types.specs.TypeList.{TypeList};

    ghost Value = { TypeList };

    ghost view = { λ m. record { types = m.wasm_types; groups = m.rec_groups; trampolines = m.trampolines.items } };

    // Each type has an entry in the list of trampolines, and an index.
    ghost invariant = { λ m. (length m.trampolines.items ≡ length m.wasm_types) × (length m.wasm_types < 4294967295) };
}

impl ModuleTypes {
    /// A list without types.
    pub fn new(alloc: Global) -> Self
        ensures { result ≡ no_types }
    {
        ModuleTypes {
            wasm_types: PrimaryMap::new(alloc),
            rec_groups: PrimaryMap::new(alloc),
            trampolines: Vec::new(alloc),
        }
    }

    /// Each type with its index, in index order.
    pub fn wasm_types(&self) -> WasmTypesIter<'_>
        ensures { result ≡ keyed index_of self.now.types }
    {
        self.wasm_types.iter()
    }

    /// The type at an index.
    pub fn get(&self, ty: ModuleInternedTypeIndex) -> Option<&WasmSubType>
        ensures { option_copied result ≡ slice_get self.now.types (number_of ty) }
    {
        self.wasm_types.get(ty)
    }

    /// Each group with the range of its indices, in order.
    pub fn rec_groups(&self) -> RecGroups<'_>
        ensures { result ≡ keyed index_of self.now.groups }
    {
        RecGroups {
            groups: self.rec_groups.iter(),
        }
    }

    /// The indices of the types of a group, in order.
    pub fn rec_group_elements(&self, rec_group: ModuleInternedRecGroupIndex) -> RecGroupElements
        requires { number_of rec_group < length self.now.groups }
        ensures { Some result ≡ option_map elements_of (slice_get self.now.groups (number_of rec_group)) }
    {
        let range = &self.rec_groups[rec_group];
        RecGroupElements {
            next: range.start.as_u32(),
            end: range.end.as_u32(),
        }
    }

    // The first index of a group, and the index after its last, as numbers.
    pub(crate) fn ends_of(&self, rec_group: ModuleInternedRecGroupIndex) -> (u32, u32)
        requires { number_of rec_group < length self.now.groups }
        ensures { slice_get (map span_of self.now.groups) (number_of rec_group) ≡ Some (record { start = result.0; end = result.1 }) }
    {
        let range = &self.rec_groups[rec_group];
        (range.start.as_u32(), range.end.as_u32())
    }

    /// How many types there are.
    pub fn len_types(&self) -> usize
        ensures count { result ≡ length self.now.types }
        ensures below { result < u32.MAX }
    {
        self.wasm_types.len()
    }

    /// Appends a type, which is in no group and has no trampoline, and gives its index.
    ///
    /// # Errors
    /// `OutOfMemory` where the lists find no memory; they are unchanged then.
    pub fn push(&mut self, ty: WasmSubType) -> Result<ModuleInternedTypeIndex, OutOfMemory>
        requires { length self.old.types < u32.MAX - 1 }
        ensures index { IfOk result (λ index. index ≡ index_of (length self.old.types)) }
        ensures ok { OnOk result (self.new ≡ with_type self.old ty None) }
        ensures err { OnErr result (self.new ≡ self.old) }
    {
        self.push_called(ty, None)
    }

    // Appends a type, which is in no group, with its trampoline if it has one, and gives its index.
    pub(crate) fn push_called(
        &mut self,
        ty: WasmSubType,
        trampoline: Option<ModuleInternedTypeIndex>,
    ) -> Result<ModuleInternedTypeIndex, OutOfMemory>
        requires { length self.old.types < u32.MAX - 1 }
        ensures index { IfOk result (λ index. index ≡ index_of (length self.old.types)) }
        ensures ok { OnOk result (self.new ≡ with_type self.old ty trampoline) }
        ensures err { OnErr result (self.new ≡ self.old) }
    {
        self.trampolines.push(trampoline)?;
        match self.wasm_types.push(ty) {
            Ok(index) => Ok(index),
            Err(refused) => {
                self.trampolines.pop();
                Err(refused)
            }
        }
    }

    /// Each function type that has a trampoline, with the trampoline's index, in index order.
    pub fn trampoline_types(&self) -> TrampolineTypes<'_>
        ensures { result ≡ called_from 0 self.now.trampolines }
    {
        TrampolineTypes {
            rest: self.trampolines.as_slice(),
            next: 0,
        }
    }

    /// The trampoline of a function type: the type by which it is called.
    pub fn trampoline_type(&self, ty: ModuleInternedTypeIndex) -> ModuleInternedTypeIndex
        requires { IsSome (trampoline_at self.now (number_of ty)) }
        ensures { trampoline_at self.now (number_of ty) ≡ Some result }
    {
        self.trampolines[ty.index()].unwrap()
    }

    /// Each type in index order, for writing.
    pub fn iter_mut(&mut self) -> TypesMut<'_>
        ensures* writes_back { sem 𝓛 (LendsTypes self.entry result) }
        ensures values { left result ≡ self.old.types }
    {
        self.wasm_types.values_mut()
    }

    /// Sets the trampoline of a type. It needs no memory.
    ///
    /// # Errors
    /// None.
    pub fn set_trampoline_type(
        &mut self,
        for_ty: ModuleInternedTypeIndex,
        trampoline_ty: ModuleInternedTypeIndex,
    ) -> Result<(), OutOfMemory>
        requires { number_of for_ty < length self.old.types }
        ensures none { IsOk result }
        ensures set { self.new ≡ called_by self.old (number_of for_ty) trampoline_ty }
    {
        self.set_trampoline(for_ty, trampoline_ty);
        Ok(())
    }

    // The same, without a result.
    pub(crate) fn set_trampoline(
        &mut self,
        for_ty: ModuleInternedTypeIndex,
        trampoline_ty: ModuleInternedTypeIndex,
    )
        requires { number_of for_ty < length self.old.types }
        ensures { self.new ≡ called_by self.old (number_of for_ty) trampoline_ty }
    {
        self.trampolines[for_ty.index()] = Some(trampoline_ty);
    }

    /// Appends a group of the types of a range, and gives its index.
    ///
    /// # Errors
    /// `OutOfMemory` where the list finds no memory; it is unchanged then.
    pub fn push_rec_group(
        &mut self,
        range: Range<ModuleInternedTypeIndex>,
    ) -> Result<ModuleInternedRecGroupIndex, OutOfMemory>
        requires { length self.old.groups < u32.MAX - 1 }
        ensures index { IfOk result (λ index. index ≡ index_of (length self.old.groups)) }
        ensures ok { OnOk result (self.new ≡ with_range self.old range) }
        ensures err { OnErr result (self.new ≡ self.old) }
    {
        self.rec_groups.push(range)
    }

    /// Reserves capacity for more types.
    ///
    /// # Errors
    /// `OutOfMemory` where the lists find no memory.
    pub fn reserve(&mut self, amt: usize) -> Result<(), OutOfMemory>
        ensures { self.new ≡ self.old }
    {
        self.trampolines.reserve(amt)?;
        self.wasm_types.reserve(amt)
    }

    /// The index that the next group gets.
    pub fn next_rec_group(&self) -> ModuleInternedRecGroupIndex
        ensures { result ≡ index_of (length self.now.groups) }
    {
        self.rec_groups.next_key()
    }

    /// The index that the next type gets.
    pub fn next_ty(&self) -> ModuleInternedTypeIndex
        ensures { result ≡ index_of (length self.now.types) }
    {
        self.wasm_types.next_key()
    }
}

impl Index<ModuleInternedTypeIndex> for ModuleTypes {
    type Output = WasmSubType;

    ghost can_index = { λ m ty. number_of ty < length m.types };

    ghost index_gives = { λ m ty t. slice_get m.types (number_of ty) ≡ Some t };

    fn index(&self, ty: ModuleInternedTypeIndex) -> &WasmSubType {
        &self.wasm_types[ty]
    }
}
