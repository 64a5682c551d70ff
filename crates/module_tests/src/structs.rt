//! The table of the structs, at both sizes of pointers.

ghost use Rattle.vm_structs.specs.Fields.{IsPointerSize};

use vm_structs::{HostPtr, PtrSize};

fn import_offsets<P: PtrSize>(ptr: &P) -> [u8; 15]
    requires { IsPointerSize (P.pointer_size ptr.now) }
{
    let function = ptr.vm_function_import();
    let table = ptr.vm_table_import();
    let memory = ptr.vm_memory_import();
    let tag = ptr.vm_tag_import();
    let global = ptr.vm_global_import();
    [
        function.wasm_call(),
        function.array_call(),
        function.vmctx(),
        table.from(),
        table.vmctx(),
        table.index(),
        memory.from(),
        memory.vmctx(),
        memory.index(),
        tag.from(),
        tag.vmctx(),
        tag.index(),
        global.from(),
        global.vmctx(),
        global.kind(),
    ]
}

fn definition_offsets<P: PtrSize>(ptr: &P) -> [u8; 10]
    requires { IsPointerSize (P.pointer_size ptr.now) }
{
    let memory = ptr.vm_memory_definition();
    let table = ptr.vm_table_definition();
    let func_ref = ptr.vm_func_ref();
    [
        memory.base(),
        memory.current_length(),
        table.base(),
        table.current_elements(),
        ptr.vm_global_definition().storage(),
        ptr.vm_tag_definition().type_index(),
        func_ref.array_call(),
        func_ref.wasm_call(),
        func_ref.type_index(),
        func_ref.vmctx(),
    ]
}

fn context_offsets<P: PtrSize>(ptr: &P) -> [u8; 14]
    requires { IsPointerSize (P.pointer_size ptr.now) }
{
    let store = ptr.vm_store_context();
    let context = ptr.vmctx();
    [
        store.fuel_consumed(),
        store.epoch_deadline(),
        store.stack_limit(),
        store.gc_heap(),
        store.gc_heap_base(),
        store.gc_heap_current_length(),
        store.last_wasm_exit_trampoline_fp(),
        context.magic(),
        context.store_context(),
        context.builtin_functions(),
        context.epoch_ptr(),
        context.gc_heap_data(),
        context.type_ids(),
        context.end_of_static_fields(),
    ]
}

fn sizes<P: PtrSize>(ptr: &P) -> [u8; 11]
    requires { IsPointerSize (P.pointer_size ptr.now) }
{
    [
        ptr.vm_function_import().size(),
        ptr.vm_table_import().size(),
        ptr.vm_memory_import().size(),
        ptr.vm_tag_import().size(),
        ptr.vm_global_import().size(),
        ptr.vm_memory_definition().size(),
        ptr.vm_table_definition().size(),
        ptr.vm_global_definition().size(),
        ptr.vm_tag_definition().size(),
        ptr.vm_func_ref().size(),
        ptr.vm_store_context().size(),
    ]
}

fn aligns<P: PtrSize>(ptr: &P) -> [u8; 11]
    requires { IsPointerSize (P.pointer_size ptr.now) }
{
    [
        ptr.vm_function_import().align(),
        ptr.vm_table_import().align(),
        ptr.vm_memory_import().align(),
        ptr.vm_tag_import().align(),
        ptr.vm_global_import().align(),
        ptr.vm_memory_definition().align(),
        ptr.vm_table_definition().align(),
        ptr.vm_global_definition().align(),
        ptr.vm_tag_definition().align(),
        ptr.vm_func_ref().align(),
        ptr.vm_store_context().align(),
    ]
}

fn words<P: PtrSize>(ptr: &P) -> [u8; 10]
    requires { IsPointerSize (P.pointer_size ptr.now) }
{
    [
        ptr.size(),
        ptr.size_of_vmshared_type_index(),
        ptr.align_of_vmshared_type_index(),
        ptr.maximum_value_size(),
        ptr.size_of_vmmemory_pointer(),
        ptr.vmarray_call_host_func_context_func_ref(),
        ptr.size_of_vmstack_chain(),
        ptr.vmcontobj_contref(),
        ptr.vmcontobj_revision(),
        ptr.size_of_vmcontobj(),
    ]
}

#[test]
fn structs_with_pointers_of_8_bytes(rt: HostRuntime) {
    assert!(rt; import_offsets(&HostPtr) == [0, 8, 16, 0, 8, 16, 0, 8, 16, 0, 8, 16, 0, 8, 16]);
    assert!(rt; definition_offsets(&8u8) == [0, 8, 0, 8, 0, 0, 0, 8, 16, 24]);
    assert!(rt; context_offsets(&8u8) == [0, 8, 16, 24, 24, 32, 40, 0, 8, 16, 24, 32, 40, 48]);
    assert!(rt; sizes(&8u8) == [24, 24, 24, 24, 24, 16, 16, 16, 4, 32, 48]);
    assert!(rt; aligns(&8u8) == [8, 8, 8, 8, 8, 8, 8, 16, 4, 8, 8]);
    assert!(rt; words(&&8u8) == [8, 4, 4, 16, 8, 8, 16, 0, 8, 16]);
}

#[test]
fn structs_with_pointers_of_4_bytes(rt: HostRuntime) {
    assert!(rt; import_offsets(&4u8) == [0, 4, 8, 0, 4, 8, 0, 4, 8, 0, 4, 8, 0, 4, 8]);
    assert!(rt; definition_offsets(&4u8) == [0, 4, 0, 4, 0, 0, 0, 4, 8, 12]);
    assert!(rt; context_offsets(&4u8) == [0, 8, 16, 20, 20, 24, 28, 0, 4, 8, 12, 16, 20, 24]);
    assert!(rt; sizes(&4u8) == [12, 12, 12, 12, 16, 8, 8, 16, 4, 16, 32]);
    assert!(rt; aligns(&4u8) == [4, 4, 4, 4, 4, 4, 4, 16, 4, 4, 8]);
    assert!(rt; words(&4u8) == [4, 4, 4, 16, 4, 4, 8, 0, 4, 8]);
}
