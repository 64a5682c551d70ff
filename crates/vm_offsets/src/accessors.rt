//! Where the arrays of a context begin.

ghost use Rattle.std.specs.Prelude.{◌≡◌, ◌<◌, ◌%◌, codes, slice_get, IsTrue, Some};
ghost use Rattle.std.specs.Option.{option_map};
ghost use Rattle.vm_offsets.specs.Arrays.{begin_of};
ghost use Rattle.vm_offsets.specs.Context.{entry_named};
ghost use Rattle.vm_offsets.specs.Entries.{kept_extent, placed_extent};
ghost use Rattle.vm_offsets.specs.Layouts.{fields_of, pointer_of, entries_of, entry_array};

use crate::arrays::ArrayOffsets;
use crate::offsets::VMOffsets;
use crate::table::{ContextEntry, ENTRIES};
use vm_structs::PtrSize;
use wasm_index::{
    DefinedGlobalIndex, DefinedMemoryIndex, DefinedTableIndex, DefinedTagIndex, FuncIndex,
    GlobalIndex, MemoryIndex, OwnedMemoryIndex, RuntimeDataIndex, TableIndex, TagIndex,
};
use wasm_module::FuncRefIndex;

// The positions of the entries in the table.
pub(crate) const IMPORTED_MEMORIES: usize = 0;

pub(crate) const MEMORIES: usize = 1;

pub(crate) const OWNED_MEMORIES: usize = 2;

pub(crate) const IMPORTED_FUNCTIONS: usize = 3;

pub(crate) const IMPORTED_TABLES: usize = 4;

pub(crate) const IMPORTED_GLOBALS: usize = 5;

pub(crate) const IMPORTED_TAGS: usize = 6;

pub(crate) const TABLES: usize = 7;

pub(crate) const GLOBALS: usize = 8;

pub(crate) const TAGS: usize = 9;

pub(crate) const FUNC_REFS: usize = 10;

pub(crate) const STARTUP_FUNC_REF: usize = 11;

pub(crate) const RUNTIME_DATA_BASES: usize = 12;

pub(crate) const RUNTIME_DATA_LENGTHS: usize = 13;

impl<P: PtrSize> VMOffsets<P> {
    // The entry at a position in the table.
    pub(crate) fn entry(&self, place: usize) -> ContextEntry
        requires { place < ENTRIES }
        ensures { option_map placed_extent (slice_get (entries_of self.now) place) ≡ Some (kept_extent result) }
    {
        self.entries[place]
    }

    // The array of the entry at a position in the table.
    fn array<I>(&self, place: usize) -> ArrayOffsets<I>
        requires { place < ENTRIES }
        ensures { option_map entry_array (slice_get (entries_of self.now) place) ≡ Some result }
    {
        let entry = self.entry(place);
        ArrayOffsets::new(entry.begin, entry.stride, entry.count)
    }
}

#[tactic(auto, unfolding(crate::specs::Context::context_entries, crate::specs::Context::context_table))]
impl<P: PtrSize> VMOffsets<P> {
    /// The imported memories.
    pub fn imported_memories(&self) -> ArrayOffsets<MemoryIndex>
        ensures { option_map entry_array (entry_named (codes "imported memories") (entries_of self.now)) ≡ Some result }
    {
        self.array(IMPORTED_MEMORIES)
    }

    /// The pointers to the memories that the module defines.
    pub fn memories(&self) -> ArrayOffsets<DefinedMemoryIndex>
        ensures { option_map entry_array (entry_named (codes "defined memories") (entries_of self.now)) ≡ Some result }
    {
        self.array(MEMORIES)
    }

    /// The memories that the module defines and that are not shared.
    pub fn owned_memories(&self) -> ArrayOffsets<OwnedMemoryIndex>
        ensures { option_map entry_array (entry_named (codes "owned memories") (entries_of self.now)) ≡ Some result }
    {
        self.array(OWNED_MEMORIES)
    }

    /// The imported functions.
    pub fn imported_functions(&self) -> ArrayOffsets<FuncIndex>
        ensures { option_map entry_array (entry_named (codes "imported functions") (entries_of self.now)) ≡ Some result }
    {
        self.array(IMPORTED_FUNCTIONS)
    }

    /// The imported tables.
    pub fn imported_tables(&self) -> ArrayOffsets<TableIndex>
        ensures { option_map entry_array (entry_named (codes "imported tables") (entries_of self.now)) ≡ Some result }
    {
        self.array(IMPORTED_TABLES)
    }

    /// The imported globals.
    pub fn imported_globals(&self) -> ArrayOffsets<GlobalIndex>
        ensures { option_map entry_array (entry_named (codes "imported globals") (entries_of self.now)) ≡ Some result }
    {
        self.array(IMPORTED_GLOBALS)
    }

    /// The imported tags.
    pub fn imported_tags(&self) -> ArrayOffsets<TagIndex>
        ensures { option_map entry_array (entry_named (codes "imported tags") (entries_of self.now)) ≡ Some result }
    {
        self.array(IMPORTED_TAGS)
    }

    /// The tables that the module defines.
    pub fn tables(&self) -> ArrayOffsets<DefinedTableIndex>
        ensures { option_map entry_array (entry_named (codes "defined tables") (entries_of self.now)) ≡ Some result }
    {
        self.array(TABLES)
    }

    /// The globals that the module defines.
    pub fn globals(&self) -> ArrayOffsets<DefinedGlobalIndex>
        ensures { option_map entry_array (entry_named (codes "defined globals") (entries_of self.now)) ≡ Some result }
    {
        self.array(GLOBALS)
    }

    /// The tags that the module defines.
    pub fn tags(&self) -> ArrayOffsets<DefinedTagIndex>
        ensures { option_map entry_array (entry_named (codes "defined tags") (entries_of self.now)) ≡ Some result }
    {
        self.array(TAGS)
    }

    /// The references to the functions that escape.
    pub fn func_refs(&self) -> ArrayOffsets<FuncRefIndex>
        ensures array { option_map entry_array (entry_named (codes "module functions") (entries_of self.now)) ≡ Some result }
        ensures aligned { begin_of result % pointer_of self.now ≡ 0 }
    {
        self.array(FUNC_REFS)
    }

    /// The first byte of the reference to the startup function.
    pub fn startup_func_ref(&self) -> u32
        requires { IsTrue (fields_of self.now).has_startup_func }
        ensures begin { option_map (λ placed. placed.begin) (entry_named (codes "startup funcref") (entries_of self.now)) ≡ Some result }
        ensures aligned { result % pointer_of self.now ≡ 0 }
    {
        self.entry(STARTUP_FUNC_REF).begin
    }

    /// The pointers to the pieces of data that are kept for run time.
    pub fn runtime_data_bases(&self) -> ArrayOffsets<RuntimeDataIndex>
        ensures array { option_map entry_array (entry_named (codes "runtime data base pointers") (entries_of self.now)) ≡ Some result }
        ensures aligned { begin_of result % pointer_of self.now ≡ 0 }
    {
        self.array(RUNTIME_DATA_BASES)
    }

    /// The lengths of these pieces.
    pub fn runtime_data_lengths(&self) -> ArrayOffsets<RuntimeDataIndex>
        ensures { option_map entry_array (entry_named (codes "runtime data lengths") (entries_of self.now)) ≡ Some result }
    {
        self.array(RUNTIME_DATA_LENGTHS)
    }
}
