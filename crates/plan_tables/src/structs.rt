//! The structs that compiled code reads, and their fields, at the plan's size of pointers.

ghost use Rattle.vm_structs.specs.Fields.{IsPointerSize};
ghost use Rattle.vm_offsets.specs.Layouts.{pointer_of};
ghost use Rattle.plan_tables.specs.Structs.{TellsFunctionImport, TellsTableImport, TellsMemoryImport, TellsTagImport, TellsGlobalImport, TellsMemoryDefinition, TellsTableDefinition, TellsGlobalDefinition, TellsTagDefinition, TellsFuncRef, TellsStoreContext, TellsStaticContext, TellsStructs};

use crate::struct_rows::{
    FuncRefLayout, FunctionImportLayout, GlobalDefinitionLayout, GlobalImportLayout,
    MemoryDefinitionLayout, MemoryImportLayout, StaticContextLayout, StoreContextLayout, Structs,
    TableDefinitionLayout, TableImportLayout, TagDefinitionLayout, TagImportLayout,
};
use vm_offsets::VMOffsets;
use vm_structs::PtrSize;

/// The size and the fields of each struct.
pub(crate) fn structs_row(offsets: &VMOffsets<u8>) -> Structs
    ensures { TellsStructs (pointer_of offsets.now) result }
{
    let pointer = *offsets.ptr();
    Structs {
        function_import: function_import_layout(pointer),
        table_import: table_import_layout(pointer),
        memory_import: memory_import_layout(pointer),
        tag_import: tag_import_layout(pointer),
        global_import: global_import_layout(pointer),
        memory_definition: memory_definition_layout(pointer),
        table_definition: table_definition_layout(pointer),
        global_definition: global_definition_layout(pointer),
        tag_definition: tag_definition_layout(pointer),
        func_ref: func_ref_layout(pointer),
        store_context: store_context_layout(pointer),
        static_context: static_context_layout(pointer),
    }
}

fn function_import_layout(pointer: u8) -> FunctionImportLayout
    requires { IsPointerSize pointer }
    ensures { TellsFunctionImport pointer result }
{
    let layout = pointer.vm_function_import();
    FunctionImportLayout {
        size: u32::from(layout.size()),
        wasm_call: u32::from(layout.wasm_call()),
        wasm_call_size: u32::from(pointer),
        array_call: u32::from(layout.array_call()),
        array_call_size: u32::from(pointer),
        vmctx: u32::from(layout.vmctx()),
        vmctx_size: u32::from(pointer),
    }
}

fn table_import_layout(pointer: u8) -> TableImportLayout
    requires { IsPointerSize pointer }
    ensures { TellsTableImport pointer result }
{
    let layout = pointer.vm_table_import();
    TableImportLayout {
        size: u32::from(layout.size()),
        from: u32::from(layout.from()),
        from_size: u32::from(pointer),
        vmctx: u32::from(layout.vmctx()),
        vmctx_size: u32::from(pointer),
        index: u32::from(layout.index()),
        index_size: 4,
    }
}

fn memory_import_layout(pointer: u8) -> MemoryImportLayout
    requires { IsPointerSize pointer }
    ensures { TellsMemoryImport pointer result }
{
    let layout = pointer.vm_memory_import();
    MemoryImportLayout {
        size: u32::from(layout.size()),
        from: u32::from(layout.from()),
        from_size: u32::from(pointer),
        vmctx: u32::from(layout.vmctx()),
        vmctx_size: u32::from(pointer),
        index: u32::from(layout.index()),
        index_size: 4,
    }
}

fn tag_import_layout(pointer: u8) -> TagImportLayout
    requires { IsPointerSize pointer }
    ensures { TellsTagImport pointer result }
{
    let layout = pointer.vm_tag_import();
    TagImportLayout {
        size: u32::from(layout.size()),
        from: u32::from(layout.from()),
        from_size: u32::from(pointer),
        vmctx: u32::from(layout.vmctx()),
        vmctx_size: u32::from(pointer),
        index: u32::from(layout.index()),
        index_size: 4,
    }
}

fn global_import_layout(pointer: u8) -> GlobalImportLayout
    requires { IsPointerSize pointer }
    ensures { TellsGlobalImport pointer result }
{
    let layout = pointer.vm_global_import();
    GlobalImportLayout {
        size: u32::from(layout.size()),
        from: u32::from(layout.from()),
        from_size: u32::from(pointer),
        vmctx: u32::from(layout.vmctx()),
        vmctx_size: u32::from(pointer),
        kind: u32::from(layout.kind()),
        kind_size: 8,
    }
}

fn memory_definition_layout(pointer: u8) -> MemoryDefinitionLayout
    requires { IsPointerSize pointer }
    ensures { TellsMemoryDefinition pointer result }
{
    let layout = pointer.vm_memory_definition();
    MemoryDefinitionLayout {
        size: u32::from(layout.size()),
        base: u32::from(layout.base()),
        base_size: u32::from(pointer),
        current_length: u32::from(layout.current_length()),
        current_length_size: u32::from(pointer),
    }
}

fn table_definition_layout(pointer: u8) -> TableDefinitionLayout
    requires { IsPointerSize pointer }
    ensures { TellsTableDefinition pointer result }
{
    let layout = pointer.vm_table_definition();
    TableDefinitionLayout {
        size: u32::from(layout.size()),
        base: u32::from(layout.base()),
        base_size: u32::from(pointer),
        current_elements: u32::from(layout.current_elements()),
        current_elements_size: u32::from(pointer),
    }
}

fn global_definition_layout(pointer: u8) -> GlobalDefinitionLayout
    requires { IsPointerSize pointer }
    ensures { TellsGlobalDefinition pointer result }
{
    let layout = pointer.vm_global_definition();
    GlobalDefinitionLayout {
        size: u32::from(layout.size()),
        storage: u32::from(layout.storage()),
        storage_size: 16,
    }
}

fn tag_definition_layout(pointer: u8) -> TagDefinitionLayout
    requires { IsPointerSize pointer }
    ensures { TellsTagDefinition pointer result }
{
    let layout = pointer.vm_tag_definition();
    TagDefinitionLayout {
        size: u32::from(layout.size()),
        type_index: u32::from(layout.type_index()),
        type_index_size: 4,
    }
}

fn func_ref_layout(pointer: u8) -> FuncRefLayout
    requires { IsPointerSize pointer }
    ensures { TellsFuncRef pointer result }
{
    let layout = pointer.vm_func_ref();
    FuncRefLayout {
        size: u32::from(layout.size()),
        array_call: u32::from(layout.array_call()),
        array_call_size: u32::from(pointer),
        wasm_call: u32::from(layout.wasm_call()),
        wasm_call_size: u32::from(pointer),
        type_index: u32::from(layout.type_index()),
        type_index_size: 4,
        vmctx: u32::from(layout.vmctx()),
        vmctx_size: u32::from(pointer),
    }
}

fn store_context_layout(pointer: u8) -> StoreContextLayout
    requires { IsPointerSize pointer }
    ensures { TellsStoreContext pointer result }
{
    let layout = pointer.vm_store_context();
    StoreContextLayout {
        size: u32::from(layout.size()),
        fuel_consumed: u32::from(layout.fuel_consumed()),
        fuel_consumed_size: 8,
        epoch_deadline: u32::from(layout.epoch_deadline()),
        epoch_deadline_size: 8,
        stack_limit: u32::from(layout.stack_limit()),
        stack_limit_size: u32::from(pointer),
        gc_heap: u32::from(layout.gc_heap()),
        gc_heap_size: u32::from(pointer.vm_memory_definition().size()),
        last_wasm_exit_trampoline_fp: u32::from(layout.last_wasm_exit_trampoline_fp()),
        last_wasm_exit_trampoline_fp_size: u32::from(pointer),
    }
}

fn static_context_layout(pointer: u8) -> StaticContextLayout
    requires { IsPointerSize pointer }
    ensures { TellsStaticContext pointer result }
{
    let layout = pointer.vmctx();
    StaticContextLayout {
        size: u32::from(layout.end_of_static_fields()),
        magic: u32::from(layout.magic()),
        magic_size: 4,
        store_context: u32::from(layout.store_context()),
        store_context_size: u32::from(pointer),
        builtin_functions: u32::from(layout.builtin_functions()),
        builtin_functions_size: u32::from(pointer),
        epoch_ptr: u32::from(layout.epoch_ptr()),
        epoch_ptr_size: u32::from(pointer),
        gc_heap_data: u32::from(layout.gc_heap_data()),
        gc_heap_data_size: u32::from(pointer),
        type_ids: u32::from(layout.type_ids()),
        type_ids_size: u32::from(pointer),
    }
}
