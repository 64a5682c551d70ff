//! Sizes of values in the heap.

ghost use Rattle.std.specs.Prelude.{◌≡◌};
ghost use Rattle.gc_layout.specs.Sizes.{storage_size};

use wasm_types::{WasmStorageType, WasmValType};

/// The size of a value inside a collected object, in bytes: 1, 2, 4, 8 or 16. It is also its
/// alignment.
pub fn byte_size_of_wasm_ty_in_gc_heap(ty: &WasmStorageType) -> u32
    ensures { result ≡ storage_size ty.now }
{
    match ty {
        WasmStorageType::I8 => 1,
        WasmStorageType::I16 => 2,
        WasmStorageType::Val(ty) => match ty {
            WasmValType::I32 | WasmValType::F32 | WasmValType::Ref(_) => 4,
            WasmValType::I64 | WasmValType::F64 => 8,
            WasmValType::V128 => 16,
        },
    }
}
