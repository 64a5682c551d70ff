//! The entities of a module: which ones exist, which are imported, and which are exported.

ghost use Rattle.std.specs.Prelude.{◌≡◌, ◌↔◌, ◌<◌, ◌≤◌, ◌-◌, length, Some, IsTrue, IsSome};
ghost use Rattle.wasm_module.specs.Entities.{entity_type, IsImported, IsExported};
ghost use Rattle.wasm_module.specs.Record.{record_of};

use crate::module::Module;
use entity_map::EntityRef;
use wasm_index::{FuncIndex, GlobalIndex, MemoryIndex, TableIndex, TagIndex};
use wasm_types::{EntityIndex, EntityType};

impl Module {
    /// Whether a function is imported.
    pub fn is_imported_function(&self, i: FuncIndex) -> bool
        ensures { IsTrue result ↔ IsImported (record_of self.now) (EntityIndex.Function i) }
    {
        i.index() < self.num_imported_funcs
    }

    /// Whether a table is imported.
    pub fn is_imported_table(&self, i: TableIndex) -> bool
        ensures { IsTrue result ↔ IsImported (record_of self.now) (EntityIndex.Table i) }
    {
        i.index() < self.num_imported_tables
    }

    /// Whether a memory is imported.
    pub fn is_imported_memory(&self, i: MemoryIndex) -> bool
        ensures { IsTrue result ↔ IsImported (record_of self.now) (EntityIndex.Memory i) }
    {
        i.index() < self.num_imported_memories
    }

    /// Whether a global is imported.
    pub fn is_imported_global(&self, i: GlobalIndex) -> bool
        ensures { IsTrue result ↔ IsImported (record_of self.now) (EntityIndex.Global i) }
    {
        i.index() < self.num_imported_globals
    }

    /// Whether a tag is imported.
    pub fn is_imported_tag(&self, i: TagIndex) -> bool
        ensures { IsTrue result ↔ IsImported (record_of self.now) (EntityIndex.Tag i) }
    {
        i.index() < self.num_imported_tags
    }

    /// Whether an entity is imported.
    pub fn is_imported(&self, e: EntityIndex) -> bool
        ensures { IsTrue result ↔ IsImported (record_of self.now) e }
    {
        match e {
            EntityIndex::Function(i) => self.is_imported_function(i),
            EntityIndex::Table(i) => self.is_imported_table(i),
            EntityIndex::Memory(i) => self.is_imported_memory(i),
            EntityIndex::Global(i) => self.is_imported_global(i),
            EntityIndex::Tag(i) => self.is_imported_tag(i),
        }
    }

    /// Whether the module has an entity.
    pub fn is_valid(&self, e: EntityIndex) -> bool
        ensures { IsTrue result ↔ IsSome (entity_type (record_of self.now) e) }
    {
        match e {
            EntityIndex::Function(i) => self.functions.is_valid(i),
            EntityIndex::Table(i) => self.tables.is_valid(i),
            EntityIndex::Memory(i) => self.memories.is_valid(i),
            EntityIndex::Global(i) => self.globals.is_valid(i),
            EntityIndex::Tag(i) => self.tags.is_valid(i),
        }
    }

    /// The type of an entity of the module.
    pub fn type_of(&self, e: EntityIndex) -> EntityType
        requires { IsSome (entity_type (record_of self.now) e) }
        ensures { entity_type (record_of self.now) e ≡ Some result }
    {
        match e {
            EntityIndex::Function(i) => EntityType::Function(self.functions[i].signature),
            EntityIndex::Table(i) => EntityType::Table(self.tables[i]),
            EntityIndex::Memory(i) => EntityType::Memory(self.memories[i]),
            EntityIndex::Global(i) => EntityType::Global(self.globals[i]),
            EntityIndex::Tag(i) => EntityType::Tag(self.tags[i]),
        }
    }

    /// Whether a table is exported.
    pub fn is_exported_table(&self, i: TableIndex) -> bool
        ensures { IsTrue result ↔ IsExported (record_of self.now) (EntityIndex.Table i) }
    {
        self.exports_entity(i.into())
    }

    /// Whether a memory is exported.
    pub fn is_exported_memory(&self, i: MemoryIndex) -> bool
        ensures { IsTrue result ↔ IsExported (record_of self.now) (EntityIndex.Memory i) }
    {
        self.exports_entity(i.into())
    }

    /// Whether a global is exported.
    pub fn is_exported_global(&self, i: GlobalIndex) -> bool
        ensures { IsTrue result ↔ IsExported (record_of self.now) (EntityIndex.Global i) }
    {
        self.exports_entity(i.into())
    }

    fn exports_entity(&self, e: EntityIndex) -> bool
        ensures { IsTrue result ↔ IsExported (record_of self.now) e }
    {
        self.exports.values().any(|exported| *exported == e)
    }

    /// How many functions the module defines.
    pub fn num_defined_funcs(&self) -> usize
        requires { self.now.num_imported_funcs ≤ length self.now.functions }
        ensures count { result ≡ length self.now.functions - self.now.num_imported_funcs }
        ensures below { result < u32.MAX }
    {
        self.functions.len() - self.num_imported_funcs
    }

    /// How many tables the module defines.
    pub fn num_defined_tables(&self) -> usize
        requires { self.now.num_imported_tables ≤ length self.now.tables }
        ensures count { result ≡ length self.now.tables - self.now.num_imported_tables }
        ensures below { result < u32.MAX }
    {
        self.tables.len() - self.num_imported_tables
    }

    /// How many memories the module defines.
    pub fn num_defined_memories(&self) -> usize
        requires { self.now.num_imported_memories ≤ length self.now.memories }
        ensures count { result ≡ length self.now.memories - self.now.num_imported_memories }
        ensures below { result < u32.MAX }
    {
        self.memories.len() - self.num_imported_memories
    }

    /// How many globals the module defines.
    pub fn num_defined_globals(&self) -> usize
        requires { self.now.num_imported_globals ≤ length self.now.globals }
        ensures count { result ≡ length self.now.globals - self.now.num_imported_globals }
        ensures below { result < u32.MAX }
    {
        self.globals.len() - self.num_imported_globals
    }

    /// How many tags the module defines.
    pub fn num_defined_tags(&self) -> usize
        requires { self.now.num_imported_tags ≤ length self.now.tags }
        ensures count { result ≡ length self.now.tags - self.now.num_imported_tags }
        ensures below { result < u32.MAX }
    {
        self.tags.len() - self.num_imported_tags
    }
}
