//! The size of pointers, and what follows from it alone.

ghost use Rattle.std.specs.Prelude.{◌≡◌, ◌*◌, ℕ};
ghost use Rattle.std.specs.Int.{next_multiple_of};
ghost use Rattle.vm_structs.specs.Fields.{IsPointerSize};

use crate::offsets;

/// The size of pointers on a target. Each call but [`PtrSize::size`] is for pointers of 4 or 8
/// bytes. Sizes and offsets are in bytes.
pub trait PtrSize {
    /// The bytes of a pointer.
    ghost pointer_size: { Self → ℕ };

    /// The bytes of a pointer.
    fn size(&self) -> u8
        ensures { result ≡ pointer_size self.now };

    /// The layout of [`offsets::VMFunctionImport`].
    final fn vm_function_import(&self) -> offsets::VMFunctionImport<u8>
        requires { IsPointerSize (pointer_size self.now) }
        ensures { result ≡ record { 0 = pointer_size self.now } }
    {
        offsets::VMFunctionImport(self.size())
    }

    /// The layout of [`offsets::VMTableImport`].
    final fn vm_table_import(&self) -> offsets::VMTableImport<u8>
        requires { IsPointerSize (pointer_size self.now) }
        ensures { result ≡ record { 0 = pointer_size self.now } }
    {
        offsets::VMTableImport(self.size())
    }

    /// The layout of [`offsets::VMMemoryImport`].
    final fn vm_memory_import(&self) -> offsets::VMMemoryImport<u8>
        requires { IsPointerSize (pointer_size self.now) }
        ensures { result ≡ record { 0 = pointer_size self.now } }
    {
        offsets::VMMemoryImport(self.size())
    }

    /// The layout of [`offsets::VMTagImport`].
    final fn vm_tag_import(&self) -> offsets::VMTagImport<u8>
        requires { IsPointerSize (pointer_size self.now) }
        ensures { result ≡ record { 0 = pointer_size self.now } }
    {
        offsets::VMTagImport(self.size())
    }

    /// The layout of [`offsets::VMGlobalImport`].
    final fn vm_global_import(&self) -> offsets::VMGlobalImport<u8>
        requires { IsPointerSize (pointer_size self.now) }
        ensures { result ≡ record { 0 = pointer_size self.now } }
    {
        offsets::VMGlobalImport(self.size())
    }

    /// The layout of [`offsets::VMMemoryDefinition`].
    final fn vm_memory_definition(&self) -> offsets::VMMemoryDefinition<u8>
        requires { IsPointerSize (pointer_size self.now) }
        ensures { result ≡ record { 0 = pointer_size self.now } }
    {
        offsets::VMMemoryDefinition(self.size())
    }

    /// The layout of [`offsets::VMTableDefinition`].
    final fn vm_table_definition(&self) -> offsets::VMTableDefinition<u8>
        requires { IsPointerSize (pointer_size self.now) }
        ensures { result ≡ record { 0 = pointer_size self.now } }
    {
        offsets::VMTableDefinition(self.size())
    }

    /// The layout of [`offsets::VMGlobalDefinition`].
    final fn vm_global_definition(&self) -> offsets::VMGlobalDefinition<u8>
        requires { IsPointerSize (pointer_size self.now) }
        ensures { result ≡ record { 0 = pointer_size self.now } }
    {
        offsets::VMGlobalDefinition(self.size())
    }

    /// The layout of [`offsets::VMTagDefinition`].
    final fn vm_tag_definition(&self) -> offsets::VMTagDefinition<u8>
        requires { IsPointerSize (pointer_size self.now) }
        ensures { result ≡ record { 0 = pointer_size self.now } }
    {
        offsets::VMTagDefinition(self.size())
    }

    /// The layout of [`offsets::VMFuncRef`].
    final fn vm_func_ref(&self) -> offsets::VMFuncRef<u8>
        requires { IsPointerSize (pointer_size self.now) }
        ensures { result ≡ record { 0 = pointer_size self.now } }
    {
        offsets::VMFuncRef(self.size())
    }

    /// The layout of [`offsets::VMStoreContext`].
    final fn vm_store_context(&self) -> offsets::VMStoreContext<u8>
        requires { IsPointerSize (pointer_size self.now) }
        ensures { result ≡ record { 0 = pointer_size self.now } }
    {
        offsets::VMStoreContext(self.size())
    }

    /// The static layout of [`offsets::VMContext`].
    final fn vmctx(&self) -> offsets::VMContext<u8>
        requires { IsPointerSize (pointer_size self.now) }
        ensures { result ≡ record { 0 = pointer_size self.now } }
    {
        offsets::VMContext(self.size())
    }

    /// The size of a type index of the engine.
    final fn size_of_vmshared_type_index(&self) -> u8
        requires { IsPointerSize (pointer_size self.now) }
        ensures { result ≡ 4 }
    {
        4
    }

    /// The alignment of a type index of the engine.
    final fn align_of_vmshared_type_index(&self) -> u8
        requires { IsPointerSize (pointer_size self.now) }
        ensures { result ≡ 4 }
    {
        4
    }

    /// The size of the widest value, a vector of 128 bits.
    final fn maximum_value_size(&self) -> u8
        requires { IsPointerSize (pointer_size self.now) }
        ensures { result ≡ 16 }
    {
        16
    }

    /// The size of a pointer to a memory.
    final fn size_of_vmmemory_pointer(&self) -> u8
        requires { IsPointerSize (pointer_size self.now) }
        ensures { result ≡ pointer_size self.now }
    {
        self.size()
    }

    /// Where the function reference of a host function's context begins: after a number of 32 bits.
    final fn vmarray_call_host_func_context_func_ref(&self) -> u8
        requires { IsPointerSize (pointer_size self.now) }
        ensures { result ≡ next_multiple_of 4 (pointer_size self.now) }
    {
        4u8.next_multiple_of(self.size())
    }

    /// The size of a link in the chain of stacks: two words.
    final fn size_of_vmstack_chain(&self) -> u8
        requires { IsPointerSize (pointer_size self.now) }
        ensures { result ≡ 2 * pointer_size self.now }
    {
        2 * self.size()
    }

    /// Where the reference of a continuation object begins.
    final fn vmcontobj_contref(&self) -> u8
        requires { IsPointerSize (pointer_size self.now) }
        ensures { result ≡ 0 }
    {
        0
    }

    /// Where the revision of a continuation object begins.
    final fn vmcontobj_revision(&self) -> u8
        requires { IsPointerSize (pointer_size self.now) }
        ensures { result ≡ pointer_size self.now }
    {
        self.size()
    }

    /// The size of a continuation object: two words.
    final fn size_of_vmcontobj(&self) -> u8
        requires { IsPointerSize (pointer_size self.now) }
        ensures { result ≡ 2 * pointer_size self.now }
    {
        2 * self.size()
    }
}

impl PtrSize for u8 {
    ghost pointer_size = { λ bytes. bytes };

    fn size(&self) -> u8 {
        *self
    }
}

/// Pointers of the host, which have 8 bytes.
#[derive(Clone, Copy, Debug)]
pub struct HostPtr;

impl PtrSize for HostPtr {
    ghost pointer_size = { λ _. 8 };

    fn size(&self) -> u8 {
        8
    }
}

impl<P: PtrSize> PtrSize for &P {
    ghost pointer_size = { λ pointer. P.pointer_size pointer.now };

    fn size(&self) -> u8 {
        (**self).size()
    }
}
