//! The trait of a collector that lays out objects.

ghost use Rattle.std.specs.Prelude.{◌≡◌, ◌+◌, ◌^◌, ◌<◌, ◌≤◌, ℕ, IfOk, OnOk, Err, option_map};
ghost use Rattle.gc_layout.specs.Arrays.{array_layout_of};
ghost use Rattle.gc_layout.specs.Fields.{struct_layout_of, exn_layout_of};
ghost use Rattle.gc_layout.specs.Objects.{object_layout, gc_layout_of, fixed_size};

use crate::array::GcArrayLayout;
use crate::error::LayoutError;
use crate::fields::GcStructLayout;
use crate::header::INDEX_SIZE;
use crate::object::GcLayout;
use std::alloc::Global;
use std::rc::Rc;
use wasm_types::{
    WasmArrayType, WasmCompositeInnerType, WasmCompositeType, WasmExnType, WasmStructType,
};

/// How a collector lays out the objects of its heap. Two collectors differ in the size of the header alone.
pub trait GcTypeLayouts {
    /// The bytes of the header that each object begins with.
    ghost header_size: { ℕ };

    /// The offset of the length of an array.
    fn array_length_field_offset(&self) -> u32
        ensures { result ≡ header_size };

    /// The offset in an exception of the index of the instance that defines its tag.
    fn exception_tag_instance_offset(&self) -> u32
        ensures { result ≡ header_size };

    /// The offset in an exception of the index of its tag in that instance.
    fn exception_tag_defined_offset(&self) -> u32
        ensures { result ≡ header_size + 4 };

    /// The layout of the objects of a type, shared or not; `None` exactly for function types and
    /// continuation types, which have no objects in the heap.
    ///
    /// # Errors
    /// `OffsetOverflow` exactly where the size passes `u32::MAX`, unless memory runs out first.
    fn gc_layout(
        &self,
        alloc: Global,
        ty: &WasmCompositeType,
    ) -> Result<Option<GcLayout>, LayoutError>
        ensures exact { IfOk result (λ layout. option_map object_layout layout ≡ gc_layout_of header_size ty.now.inner) }
        ensures fits { OnOk result (fixed_size (gc_layout_of header_size ty.now.inner) ≤ 4294967295) }
        ensures overflow { result ≡ Err LayoutError.OffsetOverflow → 4294967295 < fixed_size (gc_layout_of header_size ty.now.inner) }
    {
        let fields = match &ty.inner {
            WasmCompositeInnerType::Array(ty) => return Ok(Some(self.array_layout(ty).into())),
            WasmCompositeInnerType::Struct(ty) => self.struct_layout(alloc, ty)?,
            WasmCompositeInnerType::Exn(ty) => self.exn_layout(alloc, ty)?,
            WasmCompositeInnerType::Func(_) | WasmCompositeInnerType::Cont(_) => return Ok(None),
        };
        Ok(Some(Rc::new(alloc, fields)?.into()))
    }

    /// The layout of the arrays of a type.
    fn array_layout(&self, ty: &WasmArrayType) -> GcArrayLayout
        ensures { result ≡ array_layout_of header_size ty.now }
    {
        GcArrayLayout::new(self.array_length_field_offset(), ty)
    }

    /// The layout of the structs of a type.
    ///
    /// # Errors
    /// `OffsetOverflow` exactly where the size passes `u32::MAX`, unless memory runs out first.
    fn struct_layout(
        &self,
        alloc: Global,
        ty: &WasmStructType,
    ) -> Result<GcStructLayout, LayoutError>
        ensures exact { IfOk result (λ layout. layout ≡ struct_layout_of header_size ty.now) }
        ensures fits { OnOk result ((struct_layout_of header_size ty.now).size ≤ 4294967295) }
        ensures overflow { result ≡ Err LayoutError.OffsetOverflow → 4294967295 < (struct_layout_of header_size ty.now).size }
    {
        // The fields of a struct begin where the length of an array does, after the header.
        let header_size = self.array_length_field_offset();
        GcStructLayout::new(alloc, header_size, ty.fields.as_slice(), false)
    }

    /// The layout of the exceptions of a type.
    ///
    /// # Errors
    /// `OffsetOverflow` exactly where the size passes `u32::MAX`, unless memory runs out first.
    fn exn_layout(&self, alloc: Global, ty: &WasmExnType) -> Result<GcStructLayout, LayoutError>
        ensures exact { IfOk result (λ layout. layout ≡ exn_layout_of header_size ty.now) }
        ensures fits { OnOk result ((exn_layout_of header_size ty.now).size ≤ 4294967295) }
        ensures overflow { result ≡ Err LayoutError.OffsetOverflow → 4294967295 < (exn_layout_of header_size ty.now).size }
    {
        // The fields of an exception begin after the second index of its tag.
        let tag_end = self.exception_tag_defined_offset() + INDEX_SIZE;
        GcStructLayout::new(alloc, tag_end, ty.fields.as_slice(), true)
    }

    /// No header is as large as half of the heap.
    ghost small: { header_size < 2 ^ 31 };
}
