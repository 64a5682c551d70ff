//! Contexts: the layout of one, and its counts.

use entity_map::EntityRef;
use vm_offsets::{ArrayOffsets, GetPtrSize, VMOffsets, VMOffsetsFields, VmctxArrayIndex};
use vm_structs::{HostPtr, PtrSize};
use wasm_index::{DefinedMemoryIndex, ModuleInternedTypeIndex};

const EMPTY: VMOffsetsFields<u8> = VMOffsetsFields {
    ptr: 8,
    num_imported_functions: 0,
    num_imported_tables: 0,
    num_imported_memories: 0,
    num_imported_globals: 0,
    num_imported_tags: 0,
    num_defined_tables: 0,
    num_defined_memories: 0,
    num_owned_memories: 0,
    num_defined_globals: 0,
    num_defined_tags: 0,
    num_escaped_funcs: 0,
    num_runtime_data: 0,
    has_startup_func: false,
};

const LINKED_PROGRAM: VMOffsetsFields<u8> = VMOffsetsFields {
    num_defined_tables: 1,
    num_defined_memories: 1,
    num_owned_memories: 1,
    num_defined_globals: 1,
    num_escaped_funcs: 2,
    num_runtime_data: 1,
    has_startup_func: true,
    ..EMPTY
};

#[test]
fn arrays_follow_one_another(rt: HostRuntime) {
    let fields = VMOffsetsFields {
        num_imported_functions: 1,
        num_imported_tables: 2,
        num_imported_memories: 3,
        num_imported_globals: 4,
        num_imported_tags: 5,
        num_defined_tags: 6,
        ..LINKED_PROGRAM
    };
    let offsets = VMOffsets::try_from_fields(fields).expect(&rt, "the context fits");
    let arrays_wanted = [
        (48, 24, 3),
        (120, 8, 1),
        (128, 16, 1),
        (144, 24, 1),
        (168, 24, 2),
        (216, 24, 4),
        (312, 24, 5),
        (432, 16, 1),
        (448, 16, 1),
        (464, 4, 6),
        (488, 32, 2),
        (584, 8, 1),
        (592, 4, 1),
    ];
    assert!(rt; arrays(&offsets) == arrays_wanted);
    assert!(rt; offsets.has_startup_func());
    assert!(rt; offsets.startup_func_ref() == 552);
    assert!(rt; offsets.size_of_vmctx() == 596);
}

// The arrays in their order.
fn arrays(offsets: &VMOffsets<u8>) -> [(u32, u32, u32); 13] {
    [
        parts(offsets.imported_memories()),
        parts(offsets.memories()),
        parts(offsets.owned_memories()),
        parts(offsets.imported_functions()),
        parts(offsets.imported_tables()),
        parts(offsets.imported_globals()),
        parts(offsets.imported_tags()),
        parts(offsets.tables()),
        parts(offsets.globals()),
        parts(offsets.tags()),
        parts(offsets.func_refs()),
        parts(offsets.runtime_data_bases()),
        parts(offsets.runtime_data_lengths()),
    ]
}

fn parts<I>(array: ArrayOffsets<I>) -> (u32, u32, u32) {
    (array.begin(), array.stride(), array.count())
}

#[test]
fn layout_has_its_counts(rt: HostRuntime) {
    let offsets = VMOffsets::try_from_fields(LINKED_PROGRAM).expect(&rt, "the context fits");
    assert!(rt; counts(&offsets) == [0, 0, 0, 0, 0, 1, 1, 1, 1, 0, 2, 1]);
    assert!(rt; offsets.has_startup_func());
    assert!(rt; *offsets.ptr() == 8);
    assert!(rt; *offsets.get_ptr_size() == 8);
    assert!(rt; HostPtr.get_ptr_size().size() == 8);
    assert!(rt; sizes(&offsets) == [8, 8, 8, 4]);
}

fn counts(offsets: &VMOffsets<u8>) -> [u32; 12] {
    [
        offsets.num_imported_functions(),
        offsets.num_imported_tables(),
        offsets.num_imported_memories(),
        offsets.num_imported_globals(),
        offsets.num_imported_tags(),
        offsets.num_defined_tables(),
        offsets.num_defined_memories(),
        offsets.num_owned_memories(),
        offsets.num_defined_globals(),
        offsets.num_defined_tags(),
        offsets.num_escaped_funcs(),
        offsets.num_runtime_data(),
    ]
}

fn sizes(offsets: &VMOffsets<u8>) -> [u8; 4] {
    [
        offsets.pointer_size(),
        offsets.size_of_vmfunction_body_ptr(),
        offsets.size_of_vmtable_definition_current_elements(),
        offsets.size_of_vmshared_type_index(),
    ]
}

#[test]
fn elements_are_a_stride_apart(rt: HostRuntime) {
    let array: ArrayOffsets<DefinedMemoryIndex> = ArrayOffsets::new(120, 8, 3);
    assert!(rt; array.at(DefinedMemoryIndex::new(2)) == 136);
    assert!(rt; ModuleInternedTypeIndex::new(5).vmctx_array_index() == 5);
}
