//! Function types.

ghost use Rattle.std.specs.Prelude.{◌≡◌, ◌↔◌, ◌≤◌, ◌+◌, ◌++◌, [], IsTrue, IsOk, IfOk, Some, All, map, length, count_by, vec_len};
ghost use Rattle.std.specs.Borrow.{sem};
ghost use Rattle.std.specs.Option.{option_copied_mut};
ghost use Rattle.entity_map.specs.Cow.{value_of};
ghost use Rattle.wasm_types.specs.Collected.{val_is_object};
ghost use Rattle.wasm_types.specs.Indices.{index_at, LendsFuncIndex};
ghost use Rattle.wasm_types.specs.Parts.{split_types};
ghost use Rattle.wasm_types.specs.Texts.{func_text};
ghost use Rattle.wasm_types.specs.Trampolines.{trampoline_val, trampoline_of, is_borrowed};

use crate::index::EngineOrModuleTypeIndex;
use crate::lists::Group;
use crate::value::WasmValType;
use entity_map::{OutOfMemory, TryCow};
use std::alloc::Global;
use std::marker::Model;
use std::{fmt, mem};

/// A function type (core specification, 2.3, composite types).
#[derive(Drop)]
pub struct WasmFuncType {
    // The parameters, then the results.
    types: Vec<WasmValType>,
    params_count: u32,
    non_i31_gc_ref_params_count: u32,
    non_i31_gc_ref_results_count: u32,
}

/// A contract views the parameters and the results as two lists.
impl Model for WasmFuncType {
    ghost use Rattle.wasm_types.specs.Parts.{FuncParts, split_types};
    ghost use Rattle.wasm_types.specs.Counts.{IsCounted};

    ghost Value = { FuncParts };

    ghost view = { λ t. split_types t.params_count t.types.items };

    ghost invariant = { λ t. IsCounted t.types.items t.params_count t.non_i31_gc_ref_params_count t.non_i31_gc_ref_results_count };
}

// How many of the types are references to collected objects.
#[tactic(auto, using(std::proofs::lemmas::List::Sums::count_by_more_yes, std::proofs::lemmas::List::Sums::count_by_more_no))]
fn objects_among(types: &[WasmValType]) -> u32
    requires { length types.now ≤ u32.MAX }
    ensures { result ≡ count_by val_is_object types.now }
{
    let mut count = 0;
    for ty in types {
        if ty.is_vmgcref_type_and_not_i31() {
            count += 1;
        }
    }
    count
}

// Whether a trampoline passes each of the types as it is.
fn are_trampoline_types(types: &[WasmValType]) -> bool
    ensures { IsTrue result ↔ All (λ ty. trampoline_val ty ≡ ty) types.now }
{
    types.iter().all(|ty| ty.is_trampoline_type())
}

// What a trampoline passes for each of the types.
fn trampoline_types(alloc: Global, types: &[WasmValType]) -> Result<Vec<WasmValType>, OutOfMemory>
    ensures { IfOk result (λ v. v.items ≡ map trampoline_val types.now) }
{
    let mut passed = Vec::with_capacity(alloc, types.len())?;
    for ty in types {
        passed.push(ty.trampoline_type())?;
    }
    Ok(passed)
}

impl WasmFuncType {
    /// The function type of these parameters and results.
    ///
    /// # Errors
    /// `OutOfMemory` where the lists cannot be allocated.
    pub fn new(
        alloc: Global,
        params: &[WasmValType],
        results: &[WasmValType],
    ) -> Result<Self, OutOfMemory>
        requires params { length params.now ≤ u32.MAX }
        requires results { length results.now ≤ u32.MAX }
        ensures { IfOk result (λ t. t ≡ record { params = params.now; results = results.now }) }
    {
        let mut types = Vec::with_capacity(alloc, params.len() + results.len())?;
        types.extend_from_slice(params)?;
        types.extend_from_slice(results)?;
        Ok(Self::from_types(types, params.len() as u32))
    }

    /// The function type of some types, of which the first are the parameters.
    pub fn from_types(types: Vec<WasmValType>, params_count: u32) -> Self
        requires within { params_count ≤ vec_len types }
        requires few { vec_len types ≤ params_count + u32.MAX }
        ensures { result ≡ split_types params_count types.items }
    {
        let (params, results) = types.as_slice().split_at(params_count as usize);
        let non_i31_gc_ref_params_count = objects_among(params);
        let non_i31_gc_ref_results_count = objects_among(results);
        WasmFuncType {
            types,
            params_count,
            non_i31_gc_ref_params_count,
            non_i31_gc_ref_results_count,
        }
    }

    /// Takes its types out, the parameters first, and returns how many parameters there are. The
    /// empty function type remains.
    pub fn take_types(&mut self) -> (Vec<WasmValType>, u32)
        ensures types { result.0.items ≡ self.old.params ++ self.old.results }
        ensures count { result.1 ≡ length self.old.params }
        ensures within { result.1 ≤ vec_len result.0 }
        ensures few { vec_len result.0 ≤ result.1 + u32.MAX }
        ensures left { self.new ≡ record { params = []; results = [] } }
    {
        let alloc = *self.types.allocator();
        let types = mem::replace(&mut self.types, Vec::new(alloc));
        let count = self.params_count;
        self.params_count = 0;
        self.non_i31_gc_ref_params_count = 0;
        self.non_i31_gc_ref_results_count = 0;
        (types, count)
    }

    /// The types of the parameters, of which there are at most `u32::MAX`.
    pub fn params(&self) -> &[WasmValType]
        ensures listed { result.now ≡ self.now.params }
        ensures few { length result.now ≤ u32.MAX }
    {
        &self.types[..self.params_count as usize]
    }

    /// How many parameters are references that the garbage collector traces, and that may point
    /// to an object.
    pub fn non_i31_gc_ref_params_count(&self) -> usize
        ensures { result ≡ count_by val_is_object self.now.params }
    {
        self.non_i31_gc_ref_params_count as usize
    }

    /// The types of the results, of which there are at most `u32::MAX`.
    pub fn results(&self) -> &[WasmValType]
        ensures listed { result.now ≡ self.now.results }
        ensures few { length result.now ≤ u32.MAX }
    {
        &self.types[self.params_count as usize..]
    }

    /// How many results are references that the garbage collector traces, and that may point to an
    /// object.
    pub fn non_i31_gc_ref_results_count(&self) -> usize
        ensures { result ≡ count_by val_is_object self.now.results }
    {
        self.non_i31_gc_ref_results_count as usize
    }

    /// The type index in the value type at a position of the parameters and then the results, for
    /// writing. It is None where the position is past both, or the type there has no index.
    pub fn index_mut(&mut self, at: usize) -> Option<&mut EngineOrModuleTypeIndex>
        ensures* writes_back { sem 𝓛 (LendsFuncIndex self.entry at result) }
        ensures value { option_copied_mut result ≡ index_at self.old at }
    {
        self.types.get_mut(at)?.index_mut()
    }

    /// Whether each of its references is nullable and points to the top of its hierarchy.
    pub fn is_trampoline_type(&self) -> bool
        ensures { IsTrue result ↔ (trampoline_of self.now ≡ self.now) }
    {
        are_trampoline_types(self.params()) && are_trampoline_types(self.results())
    }

    /// The type by which functions of this type are called from outside: each of its references
    /// becomes nullable and points to the top of its hierarchy. Where that changes nothing, it is
    /// borrowed.
    ///
    /// # Errors
    /// `OutOfMemory` where a changed type cannot be allocated; a borrowed one needs no memory.
    #[tactic(auto, using(crate::proofs::Trampolined::mapped_parts))]
    pub fn trampoline_type(&self, alloc: Global) -> Result<TryCow<'_, Self>, OutOfMemory>
        ensures value { IfOk result (λ t. value_of t ≡ trampoline_of self.now) }
        ensures kept { IfOk result (λ t. IsTrue (is_borrowed t) ↔ (trampoline_of self.now ≡ self.now)) }
        ensures kept_without_memory { trampoline_of self.now ≡ self.now → IsOk result }
    {
        if self.is_trampoline_type() {
            return Ok(TryCow::Borrowed(self));
        }
        let types = trampoline_types(alloc, self.types.as_slice())?;
        Ok(TryCow::Owned(Self::from_types(types, self.params_count)))
    }

    /// An equal type.
    ///
    /// # Errors
    /// `OutOfMemory` where the copy finds no memory.
    pub fn try_clone(&self, alloc: Global) -> Result<Self, OutOfMemory>
        ensures { IfOk result (λ t. t ≡ self.now) }
    {
        Ok(WasmFuncType {
            types: Vec::from_slice(alloc, self.types.as_slice())?,
            params_count: self.params_count,
            non_i31_gc_ref_params_count: self.non_i31_gc_ref_params_count,
            non_i31_gc_ref_results_count: self.non_i31_gc_ref_results_count,
        })
    }
}

impl fmt::Display for WasmFuncType {
    ghost output = { λ t. Some (func_text t) };

    fn fmt<W: fmt::Write>(&self, f: &mut fmt::Formatter<W>) -> fmt::Result {
        let params = Group {
            head: "param",
            types: self.params(),
        };
        let results = Group {
            head: "result",
            types: self.results(),
        };
        write!(f, "(func{params}{results})")
    }
}
