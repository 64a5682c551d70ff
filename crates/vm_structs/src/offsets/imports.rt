//! What an instance imports. Each offset and size is in bytes.

ghost use Rattle.std.specs.Prelude.{◌≡◌, codes, Some};
ghost use Rattle.vm_structs.specs.Fields.{IsPointerSize, offset_of, align_of, size_of};
ghost use Rattle.vm_structs.specs.Structs.{function_import, table_import, memory_import, tag_import, global_import};

use crate::pointer::PtrSize;

/// The layout of an imported function.
#[derive(Drop)]
pub struct VMFunctionImport<P: PtrSize>(pub P);

impl<P: PtrSize> VMFunctionImport<P> {
    /// Where the pointer to the code for calls from WebAssembly begins.
    pub fn wasm_call(&self) -> u8
        requires { IsPointerSize (P.pointer_size self.now.0) }
        ensures { offset_of function_import (codes "wasm_call") (P.pointer_size self.now.0) ≡ Some result }
    {
        0
    }

    /// Where the pointer to the code for calls with an array of values begins.
    pub fn array_call(&self) -> u8
        requires { IsPointerSize (P.pointer_size self.now.0) }
        ensures { offset_of function_import (codes "array_call") (P.pointer_size self.now.0) ≡ Some result }
    {
        self.0.size()
    }

    /// Where the pointer to the context that the function is called with begins.
    pub fn vmctx(&self) -> u8
        requires { IsPointerSize (P.pointer_size self.now.0) }
        ensures { offset_of function_import (codes "vmctx") (P.pointer_size self.now.0) ≡ Some result }
    {
        2 * self.0.size()
    }

    /// The alignment, in bytes.
    pub fn align(&self) -> u8
        requires { IsPointerSize (P.pointer_size self.now.0) }
        ensures { result ≡ align_of function_import (P.pointer_size self.now.0) }
    {
        self.0.size()
    }

    /// The size, in bytes.
    pub fn size(&self) -> u8
        requires { IsPointerSize (P.pointer_size self.now.0) }
        ensures { result ≡ size_of function_import (P.pointer_size self.now.0) }
    {
        3 * self.0.size()
    }
}

/// The layout of an imported table.
#[derive(Drop)]
pub struct VMTableImport<P: PtrSize>(pub P);

impl<P: PtrSize> VMTableImport<P> {
    /// Where the pointer to the table begins.
    pub fn from(&self) -> u8
        requires { IsPointerSize (P.pointer_size self.now.0) }
        ensures { offset_of table_import (codes "from") (P.pointer_size self.now.0) ≡ Some result }
    {
        0
    }

    /// Where the pointer to the context that defines the table begins.
    pub fn vmctx(&self) -> u8
        requires { IsPointerSize (P.pointer_size self.now.0) }
        ensures { offset_of table_import (codes "vmctx") (P.pointer_size self.now.0) ≡ Some result }
    {
        self.0.size()
    }

    /// Where the index of the table in the context that defines it begins.
    pub fn index(&self) -> u8
        requires { IsPointerSize (P.pointer_size self.now.0) }
        ensures { offset_of table_import (codes "index") (P.pointer_size self.now.0) ≡ Some result }
    {
        2 * self.0.size()
    }

    /// The alignment, in bytes.
    pub fn align(&self) -> u8
        requires { IsPointerSize (P.pointer_size self.now.0) }
        ensures { result ≡ align_of table_import (P.pointer_size self.now.0) }
    {
        self.0.size()
    }

    /// The size, in bytes.
    pub fn size(&self) -> u8
        requires { IsPointerSize (P.pointer_size self.now.0) }
        ensures { result ≡ size_of table_import (P.pointer_size self.now.0) }
    {
        3 * self.0.size()
    }
}

/// The layout of an imported memory.
#[derive(Drop)]
pub struct VMMemoryImport<P: PtrSize>(pub P);

impl<P: PtrSize> VMMemoryImport<P> {
    /// Where the pointer to the memory begins.
    pub fn from(&self) -> u8
        requires { IsPointerSize (P.pointer_size self.now.0) }
        ensures { offset_of memory_import (codes "from") (P.pointer_size self.now.0) ≡ Some result }
    {
        0
    }

    /// Where the pointer to the context that defines the memory begins.
    pub fn vmctx(&self) -> u8
        requires { IsPointerSize (P.pointer_size self.now.0) }
        ensures { offset_of memory_import (codes "vmctx") (P.pointer_size self.now.0) ≡ Some result }
    {
        self.0.size()
    }

    /// Where the index of the memory in the context that defines it begins.
    pub fn index(&self) -> u8
        requires { IsPointerSize (P.pointer_size self.now.0) }
        ensures { offset_of memory_import (codes "index") (P.pointer_size self.now.0) ≡ Some result }
    {
        2 * self.0.size()
    }

    /// The alignment, in bytes.
    pub fn align(&self) -> u8
        requires { IsPointerSize (P.pointer_size self.now.0) }
        ensures { result ≡ align_of memory_import (P.pointer_size self.now.0) }
    {
        self.0.size()
    }

    /// The size, in bytes.
    pub fn size(&self) -> u8
        requires { IsPointerSize (P.pointer_size self.now.0) }
        ensures { result ≡ size_of memory_import (P.pointer_size self.now.0) }
    {
        3 * self.0.size()
    }
}

/// The layout of an imported tag.
#[derive(Drop)]
pub struct VMTagImport<P: PtrSize>(pub P);

impl<P: PtrSize> VMTagImport<P> {
    /// Where the pointer to the tag begins.
    pub fn from(&self) -> u8
        requires { IsPointerSize (P.pointer_size self.now.0) }
        ensures { offset_of tag_import (codes "from") (P.pointer_size self.now.0) ≡ Some result }
    {
        0
    }

    /// Where the pointer to the context that defines the tag begins.
    pub fn vmctx(&self) -> u8
        requires { IsPointerSize (P.pointer_size self.now.0) }
        ensures { offset_of tag_import (codes "vmctx") (P.pointer_size self.now.0) ≡ Some result }
    {
        self.0.size()
    }

    /// Where the index of the tag in the context that defines it begins.
    pub fn index(&self) -> u8
        requires { IsPointerSize (P.pointer_size self.now.0) }
        ensures { offset_of tag_import (codes "index") (P.pointer_size self.now.0) ≡ Some result }
    {
        2 * self.0.size()
    }

    /// The alignment, in bytes.
    pub fn align(&self) -> u8
        requires { IsPointerSize (P.pointer_size self.now.0) }
        ensures { result ≡ align_of tag_import (P.pointer_size self.now.0) }
    {
        self.0.size()
    }

    /// The size, in bytes.
    pub fn size(&self) -> u8
        requires { IsPointerSize (P.pointer_size self.now.0) }
        ensures { result ≡ size_of tag_import (P.pointer_size self.now.0) }
    {
        3 * self.0.size()
    }
}

/// The layout of an imported global.
#[derive(Drop)]
pub struct VMGlobalImport<P: PtrSize>(pub P);

impl<P: PtrSize> VMGlobalImport<P> {
    /// Where the pointer to the global begins.
    pub fn from(&self) -> u8
        requires { IsPointerSize (P.pointer_size self.now.0) }
        ensures { offset_of global_import (codes "from") (P.pointer_size self.now.0) ≡ Some result }
    {
        0
    }

    /// Where the pointer to the context that defines the global begins.
    pub fn vmctx(&self) -> u8
        requires { IsPointerSize (P.pointer_size self.now.0) }
        ensures { offset_of global_import (codes "vmctx") (P.pointer_size self.now.0) ≡ Some result }
    {
        self.0.size()
    }

    /// Where the kind of the global begins.
    pub fn kind(&self) -> u8
        requires { IsPointerSize (P.pointer_size self.now.0) }
        ensures { offset_of global_import (codes "kind") (P.pointer_size self.now.0) ≡ Some result }
    {
        2 * self.0.size()
    }

    /// The alignment, in bytes.
    pub fn align(&self) -> u8
        requires { IsPointerSize (P.pointer_size self.now.0) }
        ensures { result ≡ align_of global_import (P.pointer_size self.now.0) }
    {
        self.0.size()
    }

    /// The size, in bytes.
    pub fn size(&self) -> u8
        requires { IsPointerSize (P.pointer_size self.now.0) }
        ensures { result ≡ size_of global_import (P.pointer_size self.now.0) }
    {
        2 * self.0.size() + 8
    }
}
