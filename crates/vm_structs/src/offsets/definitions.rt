//! What an instance defines. Each offset and size is in bytes.

ghost use Rattle.std.specs.Prelude.{◌≡◌, codes, Some};
ghost use Rattle.vm_structs.specs.Fields.{IsPointerSize, offset_of, align_of, size_of};
ghost use Rattle.vm_structs.specs.Structs.{memory_definition, table_definition, global_definition, tag_definition, func_ref};

use crate::pointer::PtrSize;

/// The layout of a memory.
#[derive(Drop)]
pub struct VMMemoryDefinition<P: PtrSize>(pub P);

impl<P: PtrSize> VMMemoryDefinition<P> {
    /// Where the pointer to the first byte begins.
    pub fn base(&self) -> u8
        requires { IsPointerSize (P.pointer_size self.now.0) }
        ensures { offset_of memory_definition (codes "base") (P.pointer_size self.now.0) ≡ Some result }
    {
        0
    }

    /// Where the number of bytes begins.
    pub fn current_length(&self) -> u8
        requires { IsPointerSize (P.pointer_size self.now.0) }
        ensures { offset_of memory_definition (codes "current_length") (P.pointer_size self.now.0) ≡ Some result }
    {
        self.0.size()
    }

    /// The alignment, in bytes.
    pub fn align(&self) -> u8
        requires { IsPointerSize (P.pointer_size self.now.0) }
        ensures { result ≡ align_of memory_definition (P.pointer_size self.now.0) }
    {
        self.0.size()
    }

    /// The size, in bytes.
    pub fn size(&self) -> u8
        requires { IsPointerSize (P.pointer_size self.now.0) }
        ensures { result ≡ size_of memory_definition (P.pointer_size self.now.0) }
    {
        2 * self.0.size()
    }
}

/// The layout of a table.
#[derive(Drop)]
pub struct VMTableDefinition<P: PtrSize>(pub P);

impl<P: PtrSize> VMTableDefinition<P> {
    /// Where the pointer to the first element begins.
    pub fn base(&self) -> u8
        requires { IsPointerSize (P.pointer_size self.now.0) }
        ensures { offset_of table_definition (codes "base") (P.pointer_size self.now.0) ≡ Some result }
    {
        0
    }

    /// Where the number of elements begins.
    pub fn current_elements(&self) -> u8
        requires { IsPointerSize (P.pointer_size self.now.0) }
        ensures { offset_of table_definition (codes "current_elements") (P.pointer_size self.now.0) ≡ Some result }
    {
        self.0.size()
    }

    /// The alignment, in bytes.
    pub fn align(&self) -> u8
        requires { IsPointerSize (P.pointer_size self.now.0) }
        ensures { result ≡ align_of table_definition (P.pointer_size self.now.0) }
    {
        self.0.size()
    }

    /// The size, in bytes.
    pub fn size(&self) -> u8
        requires { IsPointerSize (P.pointer_size self.now.0) }
        ensures { result ≡ size_of table_definition (P.pointer_size self.now.0) }
    {
        2 * self.0.size()
    }
}

/// The layout of a global.
#[derive(Drop)]
pub struct VMGlobalDefinition<P: PtrSize>(pub P);

impl<P: PtrSize> VMGlobalDefinition<P> {
    /// Where the value begins.
    pub fn storage(&self) -> u8
        requires { IsPointerSize (P.pointer_size self.now.0) }
        ensures { offset_of global_definition (codes "storage") (P.pointer_size self.now.0) ≡ Some result }
    {
        0
    }

    /// The alignment, in bytes.
    pub fn align(&self) -> u8
        requires { IsPointerSize (P.pointer_size self.now.0) }
        ensures { result ≡ align_of global_definition (P.pointer_size self.now.0) }
    {
        16
    }

    /// The size, in bytes.
    pub fn size(&self) -> u8
        requires { IsPointerSize (P.pointer_size self.now.0) }
        ensures { result ≡ size_of global_definition (P.pointer_size self.now.0) }
    {
        16
    }
}

/// The layout of a tag.
#[derive(Drop)]
pub struct VMTagDefinition<P: PtrSize>(pub P);

impl<P: PtrSize> VMTagDefinition<P> {
    /// Where the index of the type begins.
    pub fn type_index(&self) -> u8
        requires { IsPointerSize (P.pointer_size self.now.0) }
        ensures { offset_of tag_definition (codes "type_index") (P.pointer_size self.now.0) ≡ Some result }
    {
        0
    }

    /// The alignment, in bytes.
    pub fn align(&self) -> u8
        requires { IsPointerSize (P.pointer_size self.now.0) }
        ensures { result ≡ align_of tag_definition (P.pointer_size self.now.0) }
    {
        4
    }

    /// The size, in bytes.
    pub fn size(&self) -> u8
        requires { IsPointerSize (P.pointer_size self.now.0) }
        ensures { result ≡ size_of tag_definition (P.pointer_size self.now.0) }
    {
        4
    }
}

/// The layout of a reference to a function.
#[derive(Drop)]
pub struct VMFuncRef<P: PtrSize>(pub P);

impl<P: PtrSize> VMFuncRef<P> {
    /// Where the pointer to the code for calls with an array of values begins.
    pub fn array_call(&self) -> u8
        requires { IsPointerSize (P.pointer_size self.now.0) }
        ensures { offset_of func_ref (codes "array_call") (P.pointer_size self.now.0) ≡ Some result }
    {
        0
    }

    /// Where the pointer to the code for calls from WebAssembly begins.
    pub fn wasm_call(&self) -> u8
        requires { IsPointerSize (P.pointer_size self.now.0) }
        ensures { offset_of func_ref (codes "wasm_call") (P.pointer_size self.now.0) ≡ Some result }
    {
        self.0.size()
    }

    /// Where the index of the type begins.
    pub fn type_index(&self) -> u8
        requires { IsPointerSize (P.pointer_size self.now.0) }
        ensures { offset_of func_ref (codes "type_index") (P.pointer_size self.now.0) ≡ Some result }
    {
        2 * self.0.size()
    }

    /// Where the pointer to the context that the function is called with begins.
    pub fn vmctx(&self) -> u8
        requires { IsPointerSize (P.pointer_size self.now.0) }
        ensures { offset_of func_ref (codes "vmctx") (P.pointer_size self.now.0) ≡ Some result }
    {
        3 * self.0.size()
    }

    /// The alignment, in bytes.
    pub fn align(&self) -> u8
        requires { IsPointerSize (P.pointer_size self.now.0) }
        ensures { result ≡ align_of func_ref (P.pointer_size self.now.0) }
    {
        self.0.size()
    }

    /// The size, in bytes.
    pub fn size(&self) -> u8
        requires { IsPointerSize (P.pointer_size self.now.0) }
        ensures { result ≡ size_of func_ref (P.pointer_size self.now.0) }
    {
        4 * self.0.size()
    }
}
