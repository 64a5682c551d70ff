//! Layouts of structs and exceptions.

ghost use Rattle.std.specs.Prelude.{◌≡◌, ◌<◌, ◌≤◌, IfOk, OnOk, Err};
ghost use Rattle.std.specs.Int.{IsPowerOfTwo};
ghost use Rattle.gc_layout.specs.Fields.{fields_layout};

use crate::error::LayoutError;
use crate::header::VM_GC_HEADER_ALIGN;
use crate::layout::Layout;
use crate::sizes::byte_size_of_wasm_ty_in_gc_heap;
use entity_map::OutOfMemory;
use std::alloc::Global;
use std::marker::Model;
use wasm_types::WasmFieldType;

/// The position of a field of a struct or an exception.
#[derive(Clone, Copy, Debug)]
pub struct GcStructLayoutField {
    /// The offset from the start of the object, in bytes.
    pub offset: u32,
    /// Whether the field may hold a reference to an object of the collector.
    pub is_gc_ref: bool,
}

/// The offsets of the fields of a struct or an exception: in their order, each at the next multiple
/// of its size. So a subtype has the fields of its supertype at the same offsets.
#[derive(Drop)]
pub struct GcStructLayout {
    /// The size of the object, in bytes, with its header: a multiple of its alignment.
    pub size: u32,
    /// The alignment of the object, in bytes.
    pub align: u32,
    /// Each field, in order.
    pub fields: Vec<GcStructLayoutField>,
    /// Whether the object is an exception, whose tag is after the header.
    pub is_exception: bool,
}

/// A contract views the fields as a list.
impl Model for GcStructLayout {
    ghost use Rattle.gc_layout.specs.Fields.{FieldsLayout};

    ghost Value = { FieldsLayout };

    ghost view = { λ s. record { size = s.size; align = s.align; fields = s.fields.items; is_exception = s.is_exception } };
}

impl GcStructLayout {
    // The layout of fields after a header of `header_size` bytes. No number wraps: the first that
    // passes 32 bits is refused.
    pub(crate) fn new(
        alloc: Global,
        header_size: u32,
        fields: &[WasmFieldType],
        is_exception: bool,
    ) -> Result<Self, LayoutError>
        ensures exact { IfOk result (λ layout. layout ≡ fields_layout header_size fields.now is_exception) }
        ensures fits { OnOk result ((fields_layout header_size fields.now is_exception).size ≤ 4294967295) }
        ensures overflow { result ≡ Err LayoutError.OffsetOverflow
            → 4294967295 < (fields_layout header_size fields.now is_exception).size }
    {
        let mut end = header_size;
        let mut align = VM_GC_HEADER_ALIGN;
        let mut placed = Vec::with_capacity(alloc, fields.len())?;
        for field in fields {
            let field_size = byte_size_of_wasm_ty_in_gc_heap(&field.element_type);
            let Some(offset) = end.checked_next_multiple_of(field_size) else {
                return Err(LayoutError::OffsetOverflow);
            };
            let Some(field_end) = offset.checked_add(field_size) else {
                return Err(LayoutError::OffsetOverflow);
            };
            placed.push(GcStructLayoutField {
                offset,
                is_gc_ref: field.element_type.is_vmgcref_type_and_not_i31(),
            })?;
            end = field_end;
            align = align.max(field_size);
        }
        let Some(size) = end.checked_next_multiple_of(align) else {
            return Err(LayoutError::OffsetOverflow);
        };
        Ok(GcStructLayout {
            size,
            align,
            fields: placed,
            is_exception,
        })
    }

    /// The size and the alignment of the object.
    pub fn layout(&self) -> Layout
        requires { IsPowerOfTwo self.now.align }
        ensures { result ≡ record { size = self.now.size; align = self.now.align } }
    {
        Layout {
            size: self.size as usize,
            align: self.align as usize,
        }
    }

    /// An equal layout.
    ///
    /// # Errors
    /// `OutOfMemory` where the copy finds no memory.
    pub fn try_clone(&self, alloc: Global) -> Result<Self, OutOfMemory>
        ensures { IfOk result (λ layout. layout ≡ self.now) }
    {
        Ok(GcStructLayout {
            size: self.size,
            align: self.align,
            fields: Vec::from_slice(alloc, self.fields.as_slice())?,
            is_exception: self.is_exception,
        })
    }
}
