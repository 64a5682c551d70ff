//! The record of a module: calls that the planner does not make, once each.

ghost use Rattle.std.specs.Prelude.{◌≡◌, ◌<◌, ◌+◌, [], length, IsSome, IfOk, OnOk, slice_get};
ghost use Rattle.entity_map.specs.Pool.{atom_number};

use entity_map::{Atom, EntityRef, OutOfMemory, ReservedValue, StringPool};
use std::alloc::Global as Heap;
use std::process::Abort;
use std::test::Fail;
use wasm_convert::{ConstExpr, ConstOp};
use wasm_index::{
    DefinedFuncIndex, DefinedGlobalIndex, DefinedMemoryIndex, DefinedTableIndex, DefinedTagIndex,
    FuncIndex, GlobalIndex, MemoryIndex, ModuleInternedTypeIndex, StaticModuleIndex, TableIndex,
    TagIndex, VMSharedTypeIndex,
};
use wasm_module::{
    FuncRefIndex, FunctionType, Initializer, MemoryInitialization, Module, ModuleStartup,
    TableSegmentElements,
};
use wasm_trace::TypeTrace;
use wasm_types::{
    EngineOrModuleTypeIndex, EntityIndex, EntityType, Global, IndexType, Limits, Memory, Table,
    WasmHeapType, WasmRefType, WasmValType,
};

fn new_module(alloc: Heap) -> Result<Module, OutOfMemory>
    ensures strings { IfOk result (λ m. m.strings ≡ []) }
    ensures initializers { IfOk result (λ m. m.initializers.items ≡ []) }
    ensures functions { IfOk result (λ m. m.functions ≡ []) }
    ensures tables { IfOk result (λ m. m.tables ≡ []) }
    ensures memories { IfOk result (λ m. m.memories ≡ []) }
    ensures globals { IfOk result (λ m. m.globals ≡ []) }
    ensures tags { IfOk result (λ m. m.tags ≡ []) }
    ensures no_imports { IfOk result (λ m. (m.num_imported_funcs ≡ 0) × (m.num_imported_tags ≡ 0)) }
{
    let module = Module::new(alloc, StaticModuleIndex::from_u32(7))?;
    Ok(module)
}

fn module_type(number: u32) -> EngineOrModuleTypeIndex
    requires { number < u32.MAX }
{
    EngineOrModuleTypeIndex::Module(ModuleInternedTypeIndex::from_u32(number))
}

fn reference_type(number: u32) -> WasmRefType
    requires { number < u32.MAX }
{
    WasmRefType {
        nullable: true,
        heap_type: WasmHeapType::ConcreteFunc(module_type(number)),
    }
}

const UNSHARED: Memory = Memory {
    idx_type: IndexType::I32,
    limits: Limits { min: 1, max: None },
    shared: false,
    page_size_log2: 16,
};

const SHARED: Memory = Memory {
    idx_type: IndexType::I32,
    limits: Limits {
        min: 1,
        max: Some(2),
    },
    shared: true,
    page_size_log2: 16,
};

// A record is dropped once in each of the two tests, at the end: what looks at it borrows it.

#[test]
fn import_has_names_and_a_type(rt: HostRuntime) -> Result<(), Fail> {
    let mut module = new_module(rt.alloc())?;
    import_a_function(&rt, &mut module)
}

#[test]
fn small_record_is_as_made(rt: HostRuntime) -> Result<(), Fail> {
    let mut module = new_module(rt.alloc())?;
    fill_and_look(&rt, &mut module)
}

// A function that is imported, and a tag.
fn import_a_function(rt: &impl Abort, module: &mut Module) -> Result<(), Fail>
    requires strings { module.old.strings ≡ [] }
    requires initializers { module.old.initializers.items ≡ [] }
    requires functions { module.old.functions ≡ [] }
    requires tags { module.old.tags ≡ [] }
    requires no_imports { (module.old.num_imported_funcs ≡ 0) × (module.old.num_imported_tags ≡ 0) }
{
    let index = module.push_function(module_type(4))?;
    assert!(rt; index == FuncIndex::new(0));
    let tag = module.push_tag(module_type(0), module_type(1))?;
    assert!(rt; tag == TagIndex::new(0));
    assert!(rt; module.num_defined_funcs() == 1);
    assert!(rt; module.num_defined_tags() == 1);
    let (name, field) = insert_texts(&mut module.strings, "env", "run")?;
    module.initializers.push(Initializer::Import {
        name,
        field,
        index: index.into(),
    })?;
    assert!(rt; module.is_valid(index.into()));
    let Some((from, own, ty)) = module.import(0) else {
        return Err(Fail::from("no import"));
    };
    assert!(rt; from == "env");
    assert!(rt; own == "run");
    let EntityType::Function(signature) = ty else {
        return Err(Fail::from("not a function"));
    };
    assert!(rt; signature == module_type(4));
    assert!(rt; module.import(1).is_none());
    Ok(())
}

// Appends a function, a table, a memory, a global and a tag, which name types from a number on.
fn push_each(small: &mut Module, first: u32, memory: Memory) -> Result<(), OutOfMemory>
    requires types { first < 100 }
    requires functions { length small.old.functions < 100 }
    requires tables { length small.old.tables < 100 }
    requires memories { length small.old.memories < 100 }
    requires globals { length small.old.globals < 100 }
    requires tags { length small.old.tags < 100 }
    ensures functions { OnOk result (length small.new.functions ≡ length small.old.functions + 1) }
    ensures tables { OnOk result (length small.new.tables ≡ length small.old.tables + 1) }
    ensures memories { OnOk result (length small.new.memories ≡ length small.old.memories + 1) }
    ensures globals { OnOk result (length small.new.globals ≡ length small.old.globals + 1) }
    ensures tags { OnOk result (length small.new.tags ≡ length small.old.tags + 1) }
{
    small.push_function(module_type(first))?;
    small.tables.push(Table {
        idx_type: IndexType::I32,
        limits: Limits { min: 0, max: None },
        ref_type: reference_type(first + 1),
    })?;
    small.memories.push(memory)?;
    small.globals.push(Global {
        wasm_ty: WasmValType::Ref(reference_type(first + 2)),
        mutability: false,
    })?;
    small.push_tag(module_type(first + 3), module_type(first + 4))?;
    Ok(())
}

fn insert_texts(
    strings: &mut StringPool,
    first: &str,
    second: &str,
) -> Result<(Atom, Atom), OutOfMemory>
    requires { length strings.old < 100 }
    ensures first { IfOk result (λ atoms. IsSome (slice_get strings.new (atom_number atoms.0))) }
    ensures second { IfOk result (λ atoms. IsSome (slice_get strings.new (atom_number atoms.1))) }
{
    let first = strings.insert(first)?;
    let second = strings.insert(second)?;
    Ok((first, second))
}

// One import and two definitions of each kind. The imports are a function, a table, a memory, a
// global, a tag and the function again; the last table, the first memory and the last global are
// exported.
fn fill(module: &mut Module) -> Result<(), OutOfMemory>
    requires strings { module.old.strings ≡ [] }
    requires initializers { module.old.initializers.items ≡ [] }
    requires functions { module.old.functions ≡ [] }
    requires tables { module.old.tables ≡ [] }
    requires memories { module.old.memories ≡ [] }
    requires globals { module.old.globals ≡ [] }
    requires tags { module.old.tags ≡ [] }
{
    let third = module.strings.insert("third")?;
    let (name, field) = insert_texts(&mut module.strings, "env", "run")?;
    push_each(module, 0, UNSHARED)?;
    push_each(module, 10, SHARED)?;
    push_each(module, 20, UNSHARED)?;
    for index in first_of_each_kind() {
        module
            .initializers
            .push(Initializer::Import { name, field, index })?;
    }
    module.initializers.push(Initializer::Import {
        name,
        field,
        index: FuncIndex::new(0).into(),
    })?;
    module.exports.insert(name, TableIndex::new(2).into())?;
    module.exports.insert(field, MemoryIndex::new(0).into())?;
    module.exports.insert(third, GlobalIndex::new(2).into())?;
    module.num_imported_funcs = 1;
    module.num_imported_tables = 1;
    module.num_imported_memories = 1;
    module.num_imported_globals = 1;
    module.num_imported_tags = 1;
    Ok(())
}

fn fill_and_look(rt: &impl Abort, module: &mut Module) -> Result<(), Fail>
    requires strings { module.old.strings ≡ [] }
    requires initializers { module.old.initializers.items ≡ [] }
    requires functions { module.old.functions ≡ [] }
    requires tables { module.old.tables ≡ [] }
    requires memories { module.old.memories ≡ [] }
    requires globals { module.old.globals ≡ [] }
    requires tags { module.old.tags ≡ [] }
{
    fill(module)?;
    defined_entities_follow_the_imported(rt, module);
    entities_are_counted(rt, module);
    first_entities_are_imported(rt, module);
    entities_are_exported(rt, module);
    edges_become_the_engines(rt, module);
    Ok(())
}

fn first_of_each_kind() -> [EntityIndex; 5] {
    [
        FuncIndex::new(0).into(),
        TableIndex::new(0).into(),
        MemoryIndex::new(0).into(),
        GlobalIndex::new(0).into(),
        TagIndex::new(0).into(),
    ]
}

fn last_of_each_kind() -> [EntityIndex; 5] {
    [
        FuncIndex::new(2).into(),
        TableIndex::new(2).into(),
        MemoryIndex::new(2).into(),
        GlobalIndex::new(2).into(),
        TagIndex::new(2).into(),
    ]
}

fn defined_entities_follow_the_imported(rt: &impl Abort, module: &Module) {
    assert!(rt; module.num_imported_funcs == 1);
    assert!(rt; module.num_imported_tables == 1);
    assert!(rt; module.num_imported_memories == 1);
    assert!(rt; module.num_imported_globals == 1);
    assert!(rt; module.num_imported_tags == 1);
    for (kind, index, import, first_defined) in [
        (
            "functions",
            module.func_index(DefinedFuncIndex::new(1)).index(),
            module
                .defined_func_index(FuncIndex::new(0))
                .map(|i| i.index()),
            module
                .defined_func_index(FuncIndex::new(1))
                .map(|i| i.index()),
        ),
        (
            "tables",
            module.table_index(DefinedTableIndex::new(1)).index(),
            module
                .defined_table_index(TableIndex::new(0))
                .map(|i| i.index()),
            module
                .defined_table_index(TableIndex::new(1))
                .map(|i| i.index()),
        ),
        (
            "memories",
            module.memory_index(DefinedMemoryIndex::new(1)).index(),
            module
                .defined_memory_index(MemoryIndex::new(0))
                .map(|i| i.index()),
            module
                .defined_memory_index(MemoryIndex::new(1))
                .map(|i| i.index()),
        ),
        (
            "globals",
            module.global_index(DefinedGlobalIndex::new(1)).index(),
            module
                .defined_global_index(GlobalIndex::new(0))
                .map(|i| i.index()),
            module
                .defined_global_index(GlobalIndex::new(1))
                .map(|i| i.index()),
        ),
        (
            "tags",
            module.tag_index(DefinedTagIndex::new(1)).index(),
            module
                .defined_tag_index(TagIndex::new(0))
                .map(|i| i.index()),
            module
                .defined_tag_index(TagIndex::new(1))
                .map(|i| i.index()),
        ),
    ] {
        assert!(rt; index == 2, "{kind}");
        assert!(rt; import == None, "{kind}");
        assert!(rt; first_defined == Some(0), "{kind}");
    }
}

fn entities_are_counted(rt: &impl Abort, module: &Module) {
    assert!(rt; module.num_imported_funcs <= module.functions.len());
    assert!(rt; module.num_imported_tables <= module.tables.len());
    assert!(rt; module.num_imported_memories <= module.memories.len());
    assert!(rt; module.memories.len() - module.num_imported_memories > 1);
    assert!(rt; module.num_imported_globals <= module.globals.len());
    assert!(rt; module.num_imported_tags <= module.tags.len());
    for count in [
        module.num_defined_funcs(),
        module.num_defined_tables(),
        module.num_defined_memories(),
        module.num_defined_globals(),
        module.num_defined_tags(),
    ] {
        assert!(rt; count == 2);
    }
    let last = module.defined_func_indices().last();
    assert!(rt; last == Some(DefinedFuncIndex::new(1)));
    // The memory before it is shared.
    assert!(rt;
        module
            .owned_memory_index(DefinedMemoryIndex::new(1))
            .index()
            == 0
    );
}

fn first_entities_are_imported(rt: &impl Abort, module: &Module) {
    for (place, entity) in first_of_each_kind().iter().enumerate() {
        assert!(rt; module.is_imported(*entity));
        assert!(rt; module.is_valid(*entity));
        assert!(rt; module.import_index(place) == Some(*entity));
        assert!(rt; module.import_position(*entity) == Some(place));
    }
    for entity in last_of_each_kind().iter() {
        assert!(rt; !module.is_imported(*entity));
        assert!(rt; module.is_valid(*entity));
        assert!(rt; module.import_position(*entity) == None);
    }
    assert!(rt; !module.is_valid(FuncIndex::new(3).into()));
    assert!(rt; module.import_index(6) == None);
}

fn entities_are_exported(rt: &impl Abort, module: &Module) {
    for (place, table, memory, global) in [(0, false, true, false), (2, true, false, true)] {
        assert!(rt; module.is_exported_table(TableIndex::from_u32(place)) == table);
        assert!(rt; module.is_exported_memory(MemoryIndex::from_u32(place)) == memory);
        assert!(rt; module.is_exported_global(GlobalIndex::from_u32(place)) == global);
    }
}

fn edges_become_the_engines(rt: &impl Abort, module: &mut Module) {
    module.startup = ModuleStartup::Always(module_type(60));
    assert!(rt; module.memory_initialization.is_segmented());
    assert!(rt; !module.is_canonicalized_for_runtime_usage());
    let answer = module.trace_mut(&mut |edge: &mut EngineOrModuleTypeIndex| -> Result<(), ()> {
        *edge = EngineOrModuleTypeIndex::Engine(VMSharedTypeIndex::new(9));
        Ok(())
    });
    assert!(rt; answer.is_ok());
    assert!(rt; module.is_canonicalized_for_runtime_usage());
}
