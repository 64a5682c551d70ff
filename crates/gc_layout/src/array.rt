//! Layouts of arrays.

ghost use Rattle.std.specs.Prelude.{◌≡◌, ◌+◌, ◌*◌, ◌^◌, ◌<◌};
ghost use Rattle.std.specs.Int.{IsPowerOfTwo};
ghost use Rattle.std.specs.Option.{SomeIff};
ghost use Rattle.gc_layout.specs.Arrays.{array_layout_of};

use crate::header::{INDEX_SIZE, VM_GC_HEADER_ALIGN};
use crate::layout::Layout;
use crate::sizes::byte_size_of_wasm_ty_in_gc_heap;
use wasm_types::WasmArrayType;

/// The offsets of the elements of an array: after the header and the length, without gaps between
/// them. Offsets count from the start of the object.
#[derive(Clone, Copy, Debug)]
pub struct GcArrayLayout {
    /// The bytes before the elements.
    pub base_size: u32,
    /// The alignment of the array, in bytes.
    pub align: u32,
    /// The size of an element, and its alignment.
    pub elem_size: u32,
    /// Whether an element may be a reference to an object of the collector.
    pub elems_are_gc_refs: bool,
}

impl GcArrayLayout {
    // The layout after a header of `header_size` bytes.
    pub(crate) fn new(header_size: u32, ty: &WasmArrayType) -> Self
        requires { (array_layout_of header_size ty.now).base_size < 2 ^ 32 }
        ensures { result ≡ array_layout_of header_size ty.now }
    {
        let elem_size = byte_size_of_wasm_ty_in_gc_heap(&ty.0.element_type);
        GcArrayLayout {
            base_size: (header_size + INDEX_SIZE).next_multiple_of(elem_size),
            align: VM_GC_HEADER_ALIGN.max(elem_size),
            elem_size,
            elems_are_gc_refs: ty.0.element_type.is_vmgcref_type_and_not_i31(),
        }
    }

    /// The bytes of an array of `len` elements; `None` exactly where they pass `u32::MAX`.
    pub fn size_for_len(&self, len: u32) -> Option<u32>
        ensures { let size = self.now.base_size + len * self.now.elem_size in SomeIff result (size < 2 ^ 32) size }
    {
        self.elem_offset(len)
    }

    /// The offset of the element at a position, in bytes; `None` exactly where it passes
    /// `u32::MAX`.
    pub fn elem_offset(&self, i: u32) -> Option<u32>
        ensures { let offset = self.now.base_size + i * self.now.elem_size in SomeIff result (offset < 2 ^ 32) offset }
    {
        self.base_size.checked_add(i.checked_mul(self.elem_size)?)
    }

    /// The size and the alignment of an array of `len` elements; `None` exactly where the size
    /// passes `u32::MAX`, or the alignment is not a power of two.
    pub fn layout(&self, len: u32) -> Option<Layout>
        ensures { let size = self.now.base_size + len * self.now.elem_size in
            SomeIff result ((size < 2 ^ 32) × IsPowerOfTwo self.now.align) (record { size = size; align = self.now.align }) }
    {
        let size = self.size_for_len(len)?;
        if !self.align.is_power_of_two() {
            return None;
        }
        Some(Layout {
            size: size as usize,
            align: self.align as usize,
        })
    }
}
