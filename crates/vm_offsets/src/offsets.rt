//! The layout of a context.

ghost use Rattle.std.specs.Prelude.{◌≡◌, ◌<◌, ◌↔◌, ⊤, IfOk, IsErr};
ghost use Rattle.vm_structs.specs.Fields.{IsPointerSize};
ghost use Rattle.vm_offsets.specs.Context.{context_entries, context_size};
ghost use Rattle.vm_offsets.specs.Entries.{KeepsEntries};

use crate::fields::VMOffsetsFields;
use crate::overflow::OffsetOverflow;
use crate::table::{ContextEntry, ENTRIES, lay_out};
use std::alloc::AllocError;
use vm_structs::PtrSize;

/// The layout of a context: where each of its parts begins, and its size.
#[derive(Debug)]
pub struct VMOffsets<P: PtrSize> {
    pub(crate) fields: VMOffsetsFields<P>,
    pub(crate) entries: [ContextEntry; ENTRIES],
    pub(crate) size: u32,
    pub ghost pointer: { ∥ IsPointerSize (P.pointer_size fields.ptr) ∥₁ },
    pub ghost placed: { KeepsEntries entries (context_entries (P.pointer_size fields.ptr) fields) },
    pub ghost sized: { size ≡ context_size (P.pointer_size fields.ptr) fields },
}

impl<P: PtrSize + Copy> Clone for VMOffsets<P> {
    ghost is_clone = { λ offsets copy. copy ≡ offsets };

    ghost is_infallible = { λ _. ⊤ };

    fn clone(&self) -> Result<Self, AllocError> {
        Ok(*self)
    }
}

impl<P: PtrSize + Copy> Copy for VMOffsets<P> {}

impl<P: PtrSize + Drop> VMOffsets<P> {
    ghost use Rattle.vm_offsets.specs.Layouts.{fields_of};

    /// The layout of the context for a size of pointers, which is 4 or 8, and a module's counts.
    ///
    /// # Errors
    /// `OffsetOverflow` exactly where the size is past `u32::MAX`.
    pub fn try_from_fields(fields: VMOffsetsFields<P>) -> Result<Self, OffsetOverflow>
        requires { IsPointerSize (P.pointer_size fields.ptr) }
        ensures ok { IfOk result (λ offsets. fields_of offsets ≡ fields) }
        ensures overflow { IsErr result ↔ (u32.MAX < context_size (P.pointer_size fields.ptr) fields) }
    {
        let (entries, size) = lay_out(fields.ptr.size(), &fields)?;
        Ok(VMOffsets {
            fields,
            entries,
            size,
        })
    }
}
