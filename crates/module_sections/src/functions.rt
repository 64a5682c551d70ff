//! Functions with their types, and the types of those that escape.

ghost use Rattle.std.specs.Prelude.{◌≡◌, ◌<◌, ℕ, length, map, get_or, All, IfOk};
ghost use Rattle.wasm_spec.specs.Module as plain;
ghost use Rattle.wasm_index.specs.Index.{number_of};
ghost use Rattle.interned_types.specs.Types as types;
ghost use Rattle.module_sections.specs.Entities as entities;
ghost use Rattle.interned_types.specs.Environment.{AreHeld};
ghost use Rattle.module_sections.specs.Escapes.{AreSignatures};

use crate::escapes::Escaping;
use entity_map::{EntityRef, OutOfMemory, PrimaryMap};
use std::alloc::Global;
use wasm_index::{FuncIndex, ModuleInternedTypeIndex, TypeIndex};
use wasm_module::FunctionType;
use wasm_types::EngineOrModuleTypeIndex;

/// The functions of the index space, each with its type and its number among those that escape.
pub(crate) fn function_types(
    alloc: Global,
    functions: &[u32],
    declared: &PrimaryMap<TypeIndex, EngineOrModuleTypeIndex>,
    escaping: &Escaping,
) -> Result<PrimaryMap<FuncIndex, FunctionType>, OutOfMemory>
    requires types { All (λ ty. ty < length declared.now) functions.now }
    requires counted { length functions.now ≡ escaping.now.count }
    ensures { IfOk result (λ fs. (m : plain.Module) → declared.now ≡ map types.type_index (types.declared m)
        → functions.now ≡ plain.functions m → fs ≡ entities.function_types m escaping.now.order) }
{
    let indices = declared.as_slice();
    let mut types = PrimaryMap::with_capacity(alloc, functions.len())?;
    for ty in functions {
        let func_ref = escaping.number(types.next_key());
        types.push(FunctionType {
            signature: indices[*ty as usize],
            func_ref,
        })?;
    }
    Ok(types)
}

/// The types of the functions that escape, each once, in order.
pub(crate) fn exported_signatures(
    alloc: Global,
    functions: &[u32],
    declared: &PrimaryMap<TypeIndex, EngineOrModuleTypeIndex>,
    escaping: &Escaping,
) -> Result<Vec<ModuleInternedTypeIndex>, OutOfMemory>
    requires types { All (λ ty. ty < length declared.now) functions.now }
    requires counted { length functions.now ≡ escaping.now.count }
    requires interned { (count : ℕ) × AreHeld declared.now count }
    ensures { IfOk result (λ signatures. (m : plain.Module) → declared.now ≡ map types.type_index (types.declared m)
        → functions.now ≡ plain.functions m
        → AreSignatures escaping.now.order (map (types.interned_at m) (plain.functions m)) (map number_of signatures.items)) }
{
    let mut signatures = escaping_types(alloc, functions, declared, escaping)?;
    signatures.sort_unstable();
    signatures.dedup();
    Ok(signatures)
}

// The types of the functions that escape, in the order of these functions.
fn escaping_types(
    alloc: Global,
    functions: &[u32],
    declared: &PrimaryMap<TypeIndex, EngineOrModuleTypeIndex>,
    escaping: &Escaping,
) -> Result<Vec<ModuleInternedTypeIndex>, OutOfMemory>
    requires types { All (λ ty. ty < length declared.now) functions.now }
    requires counted { length functions.now ≡ escaping.now.count }
    requires interned { (count : ℕ) × AreHeld declared.now count }
    ensures { IfOk result (λ signatures. (m : plain.Module) → declared.now ≡ map types.type_index (types.declared m)
        → functions.now ≡ plain.functions m
        → map number_of signatures.items ≡ map (λ function. get_or (map (types.interned_at m) (plain.functions m)) function 0) escaping.now.order) }
{
    let indices = declared.as_slice();
    let mut signatures = Vec::with_capacity(alloc, escaping.len())?;
    for function in escaping.order() {
        let ty = functions[*function as usize];
        signatures.push(indices[ty as usize].unwrap_module_type_index())?;
    }
    Ok(signatures)
}
