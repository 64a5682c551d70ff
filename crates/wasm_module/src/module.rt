//! The record, and the methods that extend it.

ghost use Rattle.std.specs.Prelude.{◌≡◌, ◌<◌, ◌-◌, ◌++◌, ◌∷◌, [], length, IfOk, OnOk, OnErr};
ghost use Rattle.wasm_index.specs.Index.{index_of};
ghost use Rattle.wasm_module.specs.Record.{record_of, empty_record};

use crate::function::{FuncRefIndex, FunctionType};
use crate::initializer::Initializer;
use crate::memory_initialization::MemoryInitialization;
use crate::startup::ModuleStartup;
use entity_map::{Atom, OutOfMemory, PrimaryMap, ReservedValue, StringPool};
use indexmap::IndexMap;
use std::alloc::Global as Heap;
use std::ops::Range;
use wasm_convert::GlobalConstValue;
use wasm_index::{
    DefinedGlobalIndex, DefinedTableIndex, FuncIndex, GlobalIndex, MemoryIndex, PassiveElemIndex,
    RuntimeDataIndex, StaticModuleIndex, TableIndex, TagIndex, TypeIndex,
};
use wasm_types::{EngineOrModuleTypeIndex, EntityIndex, Global, Memory, Table, Tag, WasmRefType};

/// A translated module, without the bodies of its functions. In each index space the imported
/// entities are first.
#[derive(Drop)]
pub struct Module {
    /// The index of the module among those that are translated together.
    pub module_index: StaticModuleIndex,
    /// The texts of the names.
    pub strings: StringPool,
    /// The name of the module, from its name section.
    pub name: Option<Atom>,
    /// The imports, in order.
    pub initializers: Vec<Initializer>,
    /// The exports by name, in order.
    pub exports: IndexMap<Atom, EntityIndex>,
    /// What runs when the module is instantiated.
    pub startup: ModuleStartup,
    /// The image of each defined table: the functions in its first cells. The reserved index
    /// represents the null reference.
    pub table_initialization: PrimaryMap<DefinedTableIndex, Vec<FuncIndex>>,
    /// The initial content of the memories.
    pub memory_initialization: MemoryInitialization,
    /// The type of the elements of each passive element segment, and how many there are.
    pub passive_elements: PrimaryMap<PassiveElemIndex, (WasmRefType, u64)>,
    /// The range of each runtime data, in bytes; the ranges are contiguous from 0.
    pub runtime_data: PrimaryMap<RuntimeDataIndex, Range<u32>>,
    /// The interned type of each type of the type section.
    pub types: PrimaryMap<TypeIndex, EngineOrModuleTypeIndex>,
    /// How many of the functions are imported.
    pub num_imported_funcs: usize,
    /// How many of the tables are imported.
    pub num_imported_tables: usize,
    /// How many of the memories are imported.
    pub num_imported_memories: usize,
    /// How many of the globals are imported.
    pub num_imported_globals: usize,
    /// How many of the tags are imported.
    pub num_imported_tags: usize,
    /// Whether a defined table of the module can hold references that are collected.
    pub needs_gc_heap: bool,
    /// How many functions escape.
    pub num_escaped_funcs: usize,
    /// The functions.
    pub functions: PrimaryMap<FuncIndex, FunctionType>,
    /// The tables.
    pub tables: PrimaryMap<TableIndex, Table>,
    /// The memories.
    pub memories: PrimaryMap<MemoryIndex, Memory>,
    /// The globals.
    pub globals: PrimaryMap<GlobalIndex, Global>,
    /// The globals whose initial values are known before any code runs, and these values.
    pub global_initializers: Vec<(DefinedGlobalIndex, GlobalConstValue)>,
    /// The tags.
    pub tags: PrimaryMap<TagIndex, Tag>,
}

impl Module {
    /// The record without entities and names.
    ///
    /// # Errors
    /// `OutOfMemory` where the record finds no memory.
    pub fn new(alloc: Heap, module_index: StaticModuleIndex) -> Result<Self, OutOfMemory>
        ensures { IfOk result (λ m. record_of m ≡ empty_record module_index) }
    {
        Ok(Module {
            module_index,
            strings: StringPool::new(alloc),
            name: None,
            initializers: Vec::new(alloc),
            exports: IndexMap::new(alloc),
            startup: ModuleStartup::None,
            table_initialization: PrimaryMap::new(alloc),
            memory_initialization: MemoryInitialization::default(),
            passive_elements: PrimaryMap::new(alloc),
            runtime_data: PrimaryMap::new(alloc),
            types: PrimaryMap::new(alloc),
            num_imported_funcs: 0,
            num_imported_tables: 0,
            num_imported_memories: 0,
            num_imported_globals: 0,
            num_imported_tags: 0,
            needs_gc_heap: false,
            num_escaped_funcs: 0,
            functions: PrimaryMap::new(alloc),
            tables: PrimaryMap::new(alloc),
            memories: PrimaryMap::new(alloc),
            globals: PrimaryMap::new(alloc),
            global_initializers: Vec::new(alloc),
            tags: PrimaryMap::new(alloc),
        })
    }

    /// Appends a tag and gives its index.
    ///
    /// # Errors
    /// `OutOfMemory` where the tag finds no memory; the record is unchanged then.
    pub fn push_tag(
        &mut self,
        signature: EngineOrModuleTypeIndex,
        exception: EngineOrModuleTypeIndex,
    ) -> Result<TagIndex, OutOfMemory>
        requires { length self.old.tags < u32.MAX - 1 }
        ensures index { IfOk result (λ index. index ≡ index_of (length self.old.tags)) }
        ensures ok { OnOk result (record_of self.new ≡ record (record_of self.old) {
          tags = self.old.tags ++ record { signature = signature; exception = exception } ∷ [];
        }) }
        ensures err { OnErr result (record_of self.new ≡ record_of self.old) }
    {
        self.tags.push(Tag {
            signature,
            exception,
        })
    }

    /// Appends a function, to which no reference is made yet, and gives its index.
    ///
    /// # Errors
    /// `OutOfMemory` where the function finds no memory; the record is unchanged then.
    pub fn push_function(
        &mut self,
        signature: EngineOrModuleTypeIndex,
    ) -> Result<FuncIndex, OutOfMemory>
        requires { length self.old.functions < u32.MAX - 1 }
        ensures index { IfOk result (λ index. index ≡ index_of (length self.old.functions)) }
        ensures ok { OnOk result (record_of self.new ≡ record (record_of self.old) {
          functions = self.old.functions ++ record { signature = signature; func_ref = index_of u32.MAX } ∷ [];
        }) }
        ensures err { OnErr result (record_of self.new ≡ record_of self.old) }
    {
        self.functions.push(FunctionType {
            signature,
            func_ref: FuncRefIndex::reserved_value(),
        })
    }
}
