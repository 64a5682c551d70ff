//! Indices of entities, and indices of those that the module defines.

ghost use Rattle.std.specs.Prelude.{◌≡◌, ◌<◌, ◌≤◌, ◌+◌, length, not};
ghost use Rattle.std.specs.List.{filter};
ghost use Rattle.wasm_index.specs.Index.{number_of};
ghost use Rattle.wasm_module.specs.Entities.{owned_memories};
ghost use Rattle.wasm_module.specs.Record.{record_of};
ghost use Rattle.wasm_module.specs.Spaces.{index_after, defined_at};

use crate::module::Module;
use entity_map::EntityRef;
use wasm_index::{
    DefinedFuncIndex, DefinedGlobalIndex, DefinedMemoryIndex, DefinedTableIndex, DefinedTagIndex,
    FuncIndex, GlobalIndex, Index, MemoryIndex, OwnedMemoryIndex, TableIndex, TagIndex,
};
use wasm_types::Memory;

// The index of a defined entity, after `imported` imported ones.
fn after_imports<Defined, Space>(imported: usize, defined: Index<Defined>) -> Index<Space>
    requires { imported + number_of defined < u32.MAX }
    ensures { result ≡ index_after imported defined }
{
    EntityRef::new(imported + defined.index())
}

// The defined entity at an index, unless it is an imported one.
fn among_defined<Space, Defined>(imported: usize, index: Index<Space>) -> Option<Index<Defined>>
    requires { number_of index < u32.MAX }
    ensures { result ≡ defined_at imported index }
{
    let index = index.index();
    if index < imported {
        None
    } else {
        Some(EntityRef::new(index - imported))
    }
}

// How many of some memories are not shared.
fn owned_among(memories: &[Memory]) -> usize
    ensures count { result ≡ length (filter (λ memory. not memory.shared) memories.now) }
    ensures within { result ≤ length memories.now }
{
    memories.iter().filter(|memory| !memory.shared).count()
}

impl Module {
    /// The index of a defined function. It must be below `u32::MAX`.
    pub fn func_index(&self, i: DefinedFuncIndex) -> FuncIndex
        requires { self.now.num_imported_funcs + number_of i < u32.MAX }
        ensures { result ≡ index_after self.now.num_imported_funcs i }
    {
        after_imports(self.num_imported_funcs, i)
    }

    /// The defined function at an index, which is none exactly for an imported one. The index may
    /// be any but the reserved one.
    pub fn defined_func_index(&self, i: FuncIndex) -> Option<DefinedFuncIndex>
        requires { number_of i < u32.MAX }
        ensures { result ≡ defined_at self.now.num_imported_funcs i }
    {
        among_defined(self.num_imported_funcs, i)
    }

    /// The index of a defined table. It must be below `u32::MAX`.
    pub fn table_index(&self, i: DefinedTableIndex) -> TableIndex
        requires { self.now.num_imported_tables + number_of i < u32.MAX }
        ensures { result ≡ index_after self.now.num_imported_tables i }
    {
        after_imports(self.num_imported_tables, i)
    }

    /// The defined table at an index, which is none exactly for an imported one. The index may be
    /// any but the reserved one.
    pub fn defined_table_index(&self, i: TableIndex) -> Option<DefinedTableIndex>
        requires { number_of i < u32.MAX }
        ensures { result ≡ defined_at self.now.num_imported_tables i }
    {
        among_defined(self.num_imported_tables, i)
    }

    /// The index of a defined memory. It must be below `u32::MAX`.
    pub fn memory_index(&self, i: DefinedMemoryIndex) -> MemoryIndex
        requires { self.now.num_imported_memories + number_of i < u32.MAX }
        ensures { result ≡ index_after self.now.num_imported_memories i }
    {
        after_imports(self.num_imported_memories, i)
    }

    /// The defined memory at an index, which is none exactly for an imported one. The index may be
    /// any but the reserved one.
    pub fn defined_memory_index(&self, i: MemoryIndex) -> Option<DefinedMemoryIndex>
        requires { number_of i < u32.MAX }
        ensures { result ≡ defined_at self.now.num_imported_memories i }
    {
        among_defined(self.num_imported_memories, i)
    }

    /// The index of a defined memory among those that are not shared: how many of these are before
    /// it.
    pub fn owned_memory_index(&self, i: DefinedMemoryIndex) -> OwnedMemoryIndex
        requires { self.now.num_imported_memories + number_of i < length self.now.memories }
        ensures { number_of result ≡ owned_memories (record_of self.now) (number_of i) }
    {
        prove!(i.index() < self.num_defined_memories());
        let first = self.num_imported_memories;
        let before = &self.memories.as_slice()[first..first + i.index()];
        OwnedMemoryIndex::new(owned_among(before))
    }

    /// The index of a defined global. It must be below `u32::MAX`.
    pub fn global_index(&self, i: DefinedGlobalIndex) -> GlobalIndex
        requires { self.now.num_imported_globals + number_of i < u32.MAX }
        ensures { result ≡ index_after self.now.num_imported_globals i }
    {
        after_imports(self.num_imported_globals, i)
    }

    /// The defined global at an index, which is none exactly for an imported one. The index may be
    /// any but the reserved one.
    pub fn defined_global_index(&self, i: GlobalIndex) -> Option<DefinedGlobalIndex>
        requires { number_of i < u32.MAX }
        ensures { result ≡ defined_at self.now.num_imported_globals i }
    {
        among_defined(self.num_imported_globals, i)
    }

    /// The index of a defined tag. It must be below `u32::MAX`.
    pub fn tag_index(&self, i: DefinedTagIndex) -> TagIndex
        requires { self.now.num_imported_tags + number_of i < u32.MAX }
        ensures { result ≡ index_after self.now.num_imported_tags i }
    {
        after_imports(self.num_imported_tags, i)
    }

    /// The defined tag at an index, which is none exactly for an imported one. The index may be any
    /// but the reserved one.
    pub fn defined_tag_index(&self, i: TagIndex) -> Option<DefinedTagIndex>
        requires { number_of i < u32.MAX }
        ensures { result ≡ defined_at self.now.num_imported_tags i }
    {
        among_defined(self.num_imported_tags, i)
    }
}
