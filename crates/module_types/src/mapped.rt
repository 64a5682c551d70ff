//! Whether a function type is what a trampoline passes for another, compared without building it.

ghost use Rattle.std.specs.Prelude.{◌≡◌, map};
ghost use Rattle.std.specs.Cmp.Lexicographic.{pointwise};
ghost use Rattle.wasm_types.specs.Trampolines.{trampoline_val, trampoline_of};

use wasm_types::{WasmFuncType, WasmRefType, WasmValType};

// What a trampoline passes for a value type.
fn passed(ty: &WasmValType) -> WasmValType
    ensures { result ≡ trampoline_val ty.now }
{
    match ty {
        WasmValType::Ref(ty) => WasmValType::Ref(WasmRefType {
            nullable: true,
            heap_type: ty.heap_type.top().into(),
        }),
        _ => *ty,
    }
}

// Whether a trampoline passes another value type for a value type.
fn is_passed(ty: &WasmValType, other: &WasmValType) -> bool
    ensures { result ≡ ⟦<WasmValType as PartialEq>⟧.eq (trampoline_val ty.now) other.now }
{
    passed(ty) == *other
}

// Whether a trampoline passes each of the other value types for the types.
fn are_passed(types: &[WasmValType], others: &[WasmValType]) -> bool
    ensures { result ≡ pointwise ⟦<WasmValType as PartialEq>⟧.eq (map trampoline_val types.now) others.now }
{
    if types.len() != others.len() {
        return false;
    }
    for (ty, other) in types.iter().zip(others) {
        if !is_passed(ty, other) {
            return false;
        }
    }
    true
}

/// Whether another type is the mapped type of a function type.
pub(crate) fn is_mapped(func: &WasmFuncType, other: &WasmFuncType) -> bool
    ensures { result ≡ ⟦<WasmFuncType as PartialEq>⟧.eq (trampoline_of func.now) other.now }
{
    are_passed(func.params(), other.params()) && are_passed(func.results(), other.results())
}
