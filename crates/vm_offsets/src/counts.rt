//! The input of a layout, and the sizes that follow from the size of pointers.

ghost use Rattle.std.specs.Prelude.{◌≡◌};
ghost use Rattle.vm_offsets.specs.Layouts.{fields_of, pointer_of, size_of_context};

use crate::offsets::VMOffsets;
use crate::pointer::GetPtrSize;
use vm_structs::PtrSize;

impl<P: PtrSize> VMOffsets<P> {
    /// The size of pointers.
    pub fn ptr(&self) -> &P
        ensures { result.now ≡ (fields_of self.now).ptr }
    {
        &self.fields.ptr
    }

    /// How many functions are imported.
    pub fn num_imported_functions(&self) -> u32
        ensures { result ≡ (fields_of self.now).num_imported_functions }
    {
        self.fields.num_imported_functions
    }

    /// How many tables are imported.
    pub fn num_imported_tables(&self) -> u32
        ensures { result ≡ (fields_of self.now).num_imported_tables }
    {
        self.fields.num_imported_tables
    }

    /// How many memories are imported.
    pub fn num_imported_memories(&self) -> u32
        ensures { result ≡ (fields_of self.now).num_imported_memories }
    {
        self.fields.num_imported_memories
    }

    /// How many globals are imported.
    pub fn num_imported_globals(&self) -> u32
        ensures { result ≡ (fields_of self.now).num_imported_globals }
    {
        self.fields.num_imported_globals
    }

    /// How many tags are imported.
    pub fn num_imported_tags(&self) -> u32
        ensures { result ≡ (fields_of self.now).num_imported_tags }
    {
        self.fields.num_imported_tags
    }

    /// How many tables the module defines.
    pub fn num_defined_tables(&self) -> u32
        ensures { result ≡ (fields_of self.now).num_defined_tables }
    {
        self.fields.num_defined_tables
    }

    /// How many memories the module defines.
    pub fn num_defined_memories(&self) -> u32
        ensures { result ≡ (fields_of self.now).num_defined_memories }
    {
        self.fields.num_defined_memories
    }

    /// How many memories the module defines that are not shared.
    pub fn num_owned_memories(&self) -> u32
        ensures { result ≡ (fields_of self.now).num_owned_memories }
    {
        self.fields.num_owned_memories
    }

    /// How many globals the module defines.
    pub fn num_defined_globals(&self) -> u32
        ensures { result ≡ (fields_of self.now).num_defined_globals }
    {
        self.fields.num_defined_globals
    }

    /// How many tags the module defines.
    pub fn num_defined_tags(&self) -> u32
        ensures { result ≡ (fields_of self.now).num_defined_tags }
    {
        self.fields.num_defined_tags
    }

    /// How many functions escape; the context has a reference for each.
    pub fn num_escaped_funcs(&self) -> u32
        ensures { result ≡ (fields_of self.now).num_escaped_funcs }
    {
        self.fields.num_escaped_funcs
    }

    /// How many pieces of data are kept for run time.
    pub fn num_runtime_data(&self) -> u32
        ensures { result ≡ (fields_of self.now).num_runtime_data }
    {
        self.fields.num_runtime_data
    }

    /// Whether there is a startup function.
    pub fn has_startup_func(&self) -> bool
        ensures { result ≡ (fields_of self.now).has_startup_func }
    {
        self.fields.has_startup_func
    }

    /// The size of a pointer in bytes.
    pub fn pointer_size(&self) -> u8
        ensures { result ≡ pointer_of self.now }
    {
        self.fields.ptr.size()
    }

    /// The size of a pointer to the code of a function, in bytes.
    pub fn size_of_vmfunction_body_ptr(&self) -> u8
        ensures { result ≡ pointer_of self.now }
    {
        self.pointer_size()
    }

    /// The size of the count of a table's elements, in bytes.
    pub fn size_of_vmtable_definition_current_elements(&self) -> u8
        ensures { result ≡ pointer_of self.now }
    {
        self.pointer_size()
    }

    /// The size of a type index of the engine, in bytes.
    pub fn size_of_vmshared_type_index(&self) -> u8
        ensures { result ≡ 4 }
    {
        self.fields.ptr.size_of_vmshared_type_index()
    }

    /// The size of the context in bytes.
    pub fn size_of_vmctx(&self) -> u32
        ensures { result ≡ size_of_context self.now }
    {
        self.size
    }
}

impl<P: PtrSize> GetPtrSize for VMOffsets<P> {
    type Ptr = P;

    ghost ptr_size = { λ offsets. (fields_of offsets).ptr };

    fn get_ptr_size(&self) -> &P {
        self.ptr()
    }
}
