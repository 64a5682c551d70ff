//! The composite types in a builder.

ghost use Rattle.std.specs.Prelude.{◌≡◌, Some, IsSome};
ghost use Rattle.wasm_types.specs.Views.{array_in, func_in, struct_in, exn_in};
ghost use Rattle.module_types.specs.TypeParts.{part_at, is_resource_drop, first_from};

use crate::builder::ModuleTypesBuilder;
use entity_map::EntityRef;
use wasm_index::ModuleInternedTypeIndex;
use wasm_types::{
    WasmArrayType, WasmCompositeInnerType, WasmExnType, WasmFuncType, WasmStructType, WasmValType,
};

// Whether it is a function type with one `i32` parameter and no result.
fn is_resource_drop(ty: &WasmCompositeInnerType) -> bool
    ensures { result ≡ is_resource_drop ty.now }
{
    match ty {
        WasmCompositeInnerType::Func(ty) => {
            matches!(ty.params(), [WasmValType::I32]) && ty.results().is_empty()
        }
        _ => false,
    }
}

impl ModuleTypesBuilder {
    /// The struct type at an index.
    pub fn unwrap_struct(&self, ty: ModuleInternedTypeIndex) -> &WasmStructType
        requires { IsSome (part_at struct_in self.now.list.types ty) }
        ensures { part_at struct_in self.now.list.types ty ≡ Some result.now }
    {
        self.interner.list[ty].composite_type.inner.unwrap_struct()
    }

    /// The array type at an index.
    pub fn unwrap_array(&self, ty: ModuleInternedTypeIndex) -> &WasmArrayType
        requires { IsSome (part_at array_in self.now.list.types ty) }
        ensures { part_at array_in self.now.list.types ty ≡ Some result.now }
    {
        self.interner.list[ty].composite_type.inner.unwrap_array()
    }

    /// The exception type at an index.
    pub fn unwrap_exn(&self, ty: ModuleInternedTypeIndex) -> &WasmExnType
        requires { IsSome (part_at exn_in self.now.list.types ty) }
        ensures { part_at exn_in self.now.list.types ty ≡ Some result.now }
    {
        self.interner.list[ty].composite_type.inner.unwrap_exn()
    }

    /// The function type at an index.
    pub fn unwrap_func(&self, ty: ModuleInternedTypeIndex) -> &WasmFuncType
        requires { IsSome (part_at func_in self.now.list.types ty) }
        ensures { part_at func_in self.now.list.types ty ≡ Some result.now }
    {
        self.interner.list[ty].composite_type.inner.unwrap_func()
    }

    /// The first function type with one `i32` parameter and no result.
    pub fn find_resource_drop_signature(&self) -> Option<ModuleInternedTypeIndex>
        ensures { result ≡ first_from is_resource_drop 0 self.now.list.types }
    {
        for i in 0..self.interner.list.len_types() {
            let index = ModuleInternedTypeIndex::new(i);
            if is_resource_drop(&self.interner.list[index].composite_type.inner) {
                return Some(index);
            }
        }
        None
    }
}
