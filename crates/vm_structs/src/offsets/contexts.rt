//! The contexts of a store and of an instance. Each offset and size is in bytes.

ghost use Rattle.std.specs.Prelude.{◌≡◌, codes, Some};
ghost use Rattle.vm_structs.specs.Fields.{IsPointerSize, offset_of, inner_offset_of, align_of, size_of, end_of};
ghost use Rattle.vm_structs.specs.Structs.{store_context, memory_definition, static_context};

use crate::pointer::PtrSize;

/// The layout of a store's context.
#[derive(Drop)]
pub struct VMStoreContext<P: PtrSize>(pub P);

impl<P: PtrSize> VMStoreContext<P> {
    /// Where the fuel that was consumed begins.
    pub fn fuel_consumed(&self) -> u8
        requires { IsPointerSize (P.pointer_size self.now.0) }
        ensures { offset_of store_context (codes "fuel_consumed") (P.pointer_size self.now.0) ≡ Some result }
    {
        0
    }

    /// Where the deadline begins, a number of epochs.
    pub fn epoch_deadline(&self) -> u8
        requires { IsPointerSize (P.pointer_size self.now.0) }
        ensures { offset_of store_context (codes "epoch_deadline") (P.pointer_size self.now.0) ≡ Some result }
    {
        8
    }

    /// Where the limit of the stack begins.
    pub fn stack_limit(&self) -> u8
        requires { IsPointerSize (P.pointer_size self.now.0) }
        ensures { offset_of store_context (codes "stack_limit") (P.pointer_size self.now.0) ≡ Some result }
    {
        16
    }

    /// Where the memory of the collected heap begins.
    pub fn gc_heap(&self) -> u8
        requires { IsPointerSize (P.pointer_size self.now.0) }
        ensures { offset_of store_context (codes "gc_heap") (P.pointer_size self.now.0) ≡ Some result }
    {
        16 + self.0.size()
    }

    /// Where the frame pointer of the last trampoline out of WebAssembly begins.
    pub fn last_wasm_exit_trampoline_fp(&self) -> u8
        requires { IsPointerSize (P.pointer_size self.now.0) }
        ensures { offset_of store_context (codes "last_wasm_exit_trampoline_fp") (P.pointer_size self.now.0) ≡ Some result }
    {
        16 + 3 * self.0.size()
    }

    /// Where the pointer to the first byte of the collected heap begins.
    pub fn gc_heap_base(&self) -> u8
        requires { IsPointerSize (P.pointer_size self.now.0) }
        ensures { inner_offset_of store_context (codes "gc_heap") memory_definition (codes "base") (P.pointer_size self.now.0) ≡ Some result }
    {
        self.gc_heap()
    }

    /// Where the number of bytes of the collected heap begins.
    pub fn gc_heap_current_length(&self) -> u8
        requires { IsPointerSize (P.pointer_size self.now.0) }
        ensures { inner_offset_of store_context (codes "gc_heap") memory_definition (codes "current_length") (P.pointer_size self.now.0) ≡ Some result }
    {
        self.gc_heap() + self.0.size()
    }

    /// The alignment, in bytes.
    pub fn align(&self) -> u8
        requires { IsPointerSize (P.pointer_size self.now.0) }
        ensures { result ≡ align_of store_context (P.pointer_size self.now.0) }
    {
        8
    }

    /// The size, in bytes.
    pub fn size(&self) -> u8
        requires { IsPointerSize (P.pointer_size self.now.0) }
        ensures { result ≡ size_of store_context (P.pointer_size self.now.0) }
    {
        16 + 4 * self.0.size()
    }
}

/// The layout of the static part of an instance's context. What depends on the module follows it.
#[derive(Drop)]
pub struct VMContext<P: PtrSize>(pub P);

impl<P: PtrSize> VMContext<P> {
    /// Where the magic number that identifies a context begins.
    pub fn magic(&self) -> u8
        requires { IsPointerSize (P.pointer_size self.now.0) }
        ensures { offset_of static_context (codes "magic") (P.pointer_size self.now.0) ≡ Some result }
    {
        0
    }

    /// Where the pointer to the store's context begins.
    pub fn store_context(&self) -> u8
        requires { IsPointerSize (P.pointer_size self.now.0) }
        ensures { offset_of static_context (codes "store_context") (P.pointer_size self.now.0) ≡ Some result }
    {
        self.0.size()
    }

    /// Where the pointer to the built-in functions begins.
    pub fn builtin_functions(&self) -> u8
        requires { IsPointerSize (P.pointer_size self.now.0) }
        ensures { offset_of static_context (codes "builtin_functions") (P.pointer_size self.now.0) ≡ Some result }
    {
        2 * self.0.size()
    }

    /// Where the pointer to the current epoch begins.
    pub fn epoch_ptr(&self) -> u8
        requires { IsPointerSize (P.pointer_size self.now.0) }
        ensures { offset_of static_context (codes "epoch_ptr") (P.pointer_size self.now.0) ≡ Some result }
    {
        3 * self.0.size()
    }

    /// Where the pointer to the collector's data begins.
    pub fn gc_heap_data(&self) -> u8
        requires { IsPointerSize (P.pointer_size self.now.0) }
        ensures { offset_of static_context (codes "gc_heap_data") (P.pointer_size self.now.0) ≡ Some result }
    {
        4 * self.0.size()
    }

    /// Where the pointer to the indices of the types begins.
    pub fn type_ids(&self) -> u8
        requires { IsPointerSize (P.pointer_size self.now.0) }
        ensures { offset_of static_context (codes "type_ids") (P.pointer_size self.now.0) ≡ Some result }
    {
        5 * self.0.size()
    }

    /// Where the static parts end.
    pub fn end_of_static_fields(&self) -> u8
        requires { IsPointerSize (P.pointer_size self.now.0) }
        ensures { result ≡ end_of static_context (P.pointer_size self.now.0) }
    {
        6 * self.0.size()
    }
}
