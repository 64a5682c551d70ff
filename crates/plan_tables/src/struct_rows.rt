//! Rows of where the fields of the structs begin that compiled code reads, with C's layout;
//! `embed/generate` reads them as those of `rows`.
//!
//! Each number is in bytes. Where a field begins is counted from the beginning of its struct.

/// Where the fields of an imported function begin,
/// and their sizes, in bytes: `bobbinazure_function_import_layout`.
#[repr(C)]
#[derive(Clone, Copy)]
pub struct FunctionImportLayout {
    /// Its size.
    pub size: u32,
    /// The pointer to its code for calls from compiled code.
    pub wasm_call: u32,
    /// The size of `wasm_call`.
    pub wasm_call_size: u32,
    /// The pointer to its code for calls with an array of values.
    pub array_call: u32,
    /// The size of `array_call`.
    pub array_call_size: u32,
    /// The pointer to its context.
    pub vmctx: u32,
    /// The size of `vmctx`.
    pub vmctx_size: u32,
}

/// Where the fields of an imported table begin,
/// and their sizes, in bytes: `bobbinazure_table_import_layout`.
#[repr(C)]
#[derive(Clone, Copy)]
pub struct TableImportLayout {
    /// Its size.
    pub size: u32,
    /// The pointer to its definition.
    pub from: u32,
    /// The size of `from`.
    pub from_size: u32,
    /// The pointer to the context that has it.
    pub vmctx: u32,
    /// The size of `vmctx`.
    pub vmctx_size: u32,
    /// Its index in that context.
    pub index: u32,
    /// The size of `index`.
    pub index_size: u32,
}

/// Where the fields of an imported memory begin,
/// and their sizes, in bytes: `bobbinazure_memory_import_layout`.
#[repr(C)]
#[derive(Clone, Copy)]
pub struct MemoryImportLayout {
    /// Its size.
    pub size: u32,
    /// The pointer to its definition.
    pub from: u32,
    /// The size of `from`.
    pub from_size: u32,
    /// The pointer to the context that has it.
    pub vmctx: u32,
    /// The size of `vmctx`.
    pub vmctx_size: u32,
    /// Its index in that context.
    pub index: u32,
    /// The size of `index`.
    pub index_size: u32,
}

/// Where the fields of an imported tag begin,
/// and their sizes, in bytes: `bobbinazure_tag_import_layout`.
#[repr(C)]
#[derive(Clone, Copy)]
pub struct TagImportLayout {
    /// Its size.
    pub size: u32,
    /// The pointer to its definition.
    pub from: u32,
    /// The size of `from`.
    pub from_size: u32,
    /// The pointer to the context that has it.
    pub vmctx: u32,
    /// The size of `vmctx`.
    pub vmctx_size: u32,
    /// Its index in that context.
    pub index: u32,
    /// The size of `index`.
    pub index_size: u32,
}

/// Where the fields of an imported global begin,
/// and their sizes, in bytes: `bobbinazure_global_import_layout`.
#[repr(C)]
#[derive(Clone, Copy)]
pub struct GlobalImportLayout {
    /// Its size.
    pub size: u32,
    /// The pointer to its definition.
    pub from: u32,
    /// The size of `from`.
    pub from_size: u32,
    /// The pointer to the context that has it.
    pub vmctx: u32,
    /// The size of `vmctx`.
    pub vmctx_size: u32,
    /// What that context is, a number of 32 bits of the engine's choice, and a payload of 32 bits.
    pub kind: u32,
    /// The size of `kind`.
    pub kind_size: u32,
}

/// Where the fields of a memory begin,
/// and their sizes, in bytes: `bobbinazure_memory_definition_layout`.
#[repr(C)]
#[derive(Clone, Copy)]
pub struct MemoryDefinitionLayout {
    /// Its size.
    pub size: u32,
    /// The pointer to its first byte.
    pub base: u32,
    /// The size of `base`.
    pub base_size: u32,
    /// The number of its bytes, as wide as a pointer.
    pub current_length: u32,
    /// The size of `current_length`.
    pub current_length_size: u32,
}

/// Where the fields of a table begin,
/// and their sizes, in bytes: `bobbinazure_table_definition_layout`.
#[repr(C)]
#[derive(Clone, Copy)]
pub struct TableDefinitionLayout {
    /// Its size.
    pub size: u32,
    /// The pointer to its first cell.
    pub base: u32,
    /// The size of `base`.
    pub base_size: u32,
    /// The number of its cells, as wide as a pointer.
    pub current_elements: u32,
    /// The size of `current_elements`.
    pub current_elements_size: u32,
}

/// Where the fields of a global begin,
/// and their sizes, in bytes: `bobbinazure_global_definition_layout`.
#[repr(C)]
#[derive(Clone, Copy)]
pub struct GlobalDefinitionLayout {
    /// Its size.
    pub size: u32,
    /// Its value, in 16 bytes.
    pub storage: u32,
    /// The size of `storage`.
    pub storage_size: u32,
}

/// Where the fields of a tag begin,
/// and their sizes, in bytes: `bobbinazure_tag_definition_layout`.
#[repr(C)]
#[derive(Clone, Copy)]
pub struct TagDefinitionLayout {
    /// Its size.
    pub size: u32,
    /// Its type, by the index of the engine.
    pub type_index: u32,
    /// The size of `type_index`.
    pub type_index_size: u32,
}

/// Where the fields of a reference to a function begin,
/// and their sizes, in bytes: `bobbinazure_func_ref_layout`.
#[repr(C)]
#[derive(Clone, Copy)]
pub struct FuncRefLayout {
    /// Its size.
    pub size: u32,
    /// The pointer to its code for calls with an array of values.
    pub array_call: u32,
    /// The size of `array_call`.
    pub array_call_size: u32,
    /// The pointer to its code for calls from compiled code.
    pub wasm_call: u32,
    /// The size of `wasm_call`.
    pub wasm_call_size: u32,
    /// Its type, by the index of the engine.
    pub type_index: u32,
    /// The size of `type_index`.
    pub type_index_size: u32,
    /// The pointer to its context.
    pub vmctx: u32,
    /// The size of `vmctx`.
    pub vmctx_size: u32,
}

/// Where the fields of the context of a store begin,
/// and their sizes, in bytes: `bobbinazure_store_context_layout`.
#[repr(C)]
#[derive(Clone, Copy)]
pub struct StoreContextLayout {
    /// Its size.
    pub size: u32,
    /// The fuel that was consumed.
    pub fuel_consumed: u32,
    /// The size of `fuel_consumed`.
    pub fuel_consumed_size: u32,
    /// The deadline, a number of epochs.
    pub epoch_deadline: u32,
    /// The size of `epoch_deadline`.
    pub epoch_deadline_size: u32,
    /// The limit of the stack.
    pub stack_limit: u32,
    /// The size of `stack_limit`.
    pub stack_limit_size: u32,
    /// The memory of the collected heap, as `memory_definition`.
    pub gc_heap: u32,
    /// The size of `gc_heap`.
    pub gc_heap_size: u32,
    /// The frame pointer of the last trampoline out of compiled code.
    pub last_wasm_exit_trampoline_fp: u32,
    /// The size of `last_wasm_exit_trampoline_fp`.
    pub last_wasm_exit_trampoline_fp_size: u32,
}

/// Where the fields of the part of a context that all modules have begin,
/// and their sizes, in bytes: `bobbinazure_static_context_layout`.
#[repr(C)]
#[derive(Clone, Copy)]
pub struct StaticContextLayout {
    /// Where what depends on the module begins.
    pub size: u32,
    /// The number by which the engine recognises a context, of its choice.
    pub magic: u32,
    /// The size of `magic`.
    pub magic_size: u32,
    /// The pointer to the context of the store.
    pub store_context: u32,
    /// The size of `store_context`.
    pub store_context_size: u32,
    /// The pointer to the built-in functions.
    pub builtin_functions: u32,
    /// The size of `builtin_functions`.
    pub builtin_functions_size: u32,
    /// The pointer to the current epoch.
    pub epoch_ptr: u32,
    /// The size of `epoch_ptr`.
    pub epoch_ptr_size: u32,
    /// The pointer to the data of the collector.
    pub gc_heap_data: u32,
    /// The size of `gc_heap_data`.
    pub gc_heap_data_size: u32,
    /// The pointer to the indices of the types.
    pub type_ids: u32,
    /// The size of `type_ids`.
    pub type_ids_size: u32,
}

/// The structs that compiled code reads: `bobbinazure_structs`.
#[repr(C)]
#[derive(Clone, Copy)]
pub struct Structs {
    pub function_import: FunctionImportLayout,
    pub table_import: TableImportLayout,
    pub memory_import: MemoryImportLayout,
    pub tag_import: TagImportLayout,
    pub global_import: GlobalImportLayout,
    pub memory_definition: MemoryDefinitionLayout,
    pub table_definition: TableDefinitionLayout,
    pub global_definition: GlobalDefinitionLayout,
    pub tag_definition: TagDefinitionLayout,
    pub func_ref: FuncRefLayout,
    pub store_context: StoreContextLayout,
    pub static_context: StaticContextLayout,
}
