//! Calls of types that the planner does not make, and copies.

ghost use Rattle.std.specs.Prelude.{◌≡◌, ◌<◌};

use entity_map::{EntityRef, OutOfMemory};
use std::alloc::Global as Heap;
use std::process::Abort;
use std::test::Fail;
use wasm_index::ModuleInternedTypeIndex;
use wasm_types::*;

const ANYREF: WasmValType = WasmValType::Ref(WasmRefType {
    nullable: true,
    heap_type: WasmHeapType::Any,
});

const MUTABLE_I8: WasmFieldType = WasmFieldType {
    element_type: WasmStorageType::I8,
    mutable: true,
};

const CONST_I64: WasmFieldType = WasmFieldType {
    element_type: WasmStorageType::Val(WasmValType::I64),
    mutable: false,
};

fn module_type(number: u32) -> EngineOrModuleTypeIndex
    requires { number < u32.MAX }
{
    ModuleInternedTypeIndex::from_u32(number).into()
}

fn array_reference(number: u32) -> WasmValType
    requires { number < u32.MAX }
{
    WasmValType::Ref(WasmRefType {
        nullable: false,
        heap_type: WasmHeapType::ConcreteArray(module_type(number)),
    })
}

// Parameters i32, i32, anyref and anyref; results i32 and anyref.
fn mixed_func(alloc: Heap) -> Result<WasmFuncType, OutOfMemory> {
    WasmFuncType::new(
        alloc,
        &[WasmValType::I32, WasmValType::I32, ANYREF, ANYREF],
        &[WasmValType::I32, ANYREF],
    )
}

#[test]
fn function_type_counts_objects(rt: HostRuntime) -> Result<(), Fail> {
    let func = mixed_func(rt.alloc())?;
    assert!(rt; func.non_i31_gc_ref_params_count() == 2);
    assert!(rt; func.non_i31_gc_ref_results_count() == 1);
    assert!(rt; func.params().len() == 4);
    assert!(rt; func.results() == [WasmValType::I32, ANYREF].as_slice());
    Ok(())
}

fn copy_of_sub_type_is_equal(rt: &impl Abort, alloc: Heap) -> Result<(), OutOfMemory> {
    let func = mixed_func(alloc)?;
    let wrapped = WasmSubType {
        is_final: true,
        supertype: None,
        composite_type: WasmCompositeType {
            inner: WasmCompositeInnerType::Func(func),
            shared: false,
        },
    };
    let copy = wrapped.try_clone(alloc)?;
    assert!(rt; copy == wrapped);
    Ok(())
}

fn copy_of_exception_type_is_equal(rt: &impl Abort, alloc: Heap) -> Result<(), OutOfMemory> {
    let exn = WasmExnType {
        func_ty: module_type(3),
        fields: Vec::from_slice(alloc, &[CONST_I64])?,
    };
    let exn = WasmCompositeInnerType::Exn(exn);
    let copy = exn.try_clone(alloc)?;
    assert!(rt; copy == exn);
    Ok(())
}

fn copy_of_struct_type_is_equal(rt: &impl Abort, alloc: Heap) -> Result<(), OutOfMemory> {
    let fields = Vec::from_slice(alloc, &[MUTABLE_I8, CONST_I64])?;
    let pair = WasmStructType { fields };
    let copy = pair.try_clone(alloc)?;
    assert!(rt; copy == pair);
    assert!(rt; copy.fields.as_slice() == [MUTABLE_I8, CONST_I64].as_slice());
    Ok(())
}

// A function for each copy, so that none holds what the others made.
#[test]
fn copies_equal_their_sources(rt: HostRuntime) -> Result<(), Fail> {
    copy_of_sub_type_is_equal(&rt, rt.alloc())?;
    copy_of_exception_type_is_equal(&rt, rt.alloc())?;
    copy_of_struct_type_is_equal(&rt, rt.alloc())?;
    Ok(())
}

#[test]
fn indices_are_written_in_place(rt: HostRuntime) -> Result<(), Fail> {
    let mut func = WasmFuncType::new(
        rt.alloc(),
        &[WasmValType::I32, array_reference(1)],
        &[array_reference(1)],
    )?;
    assert!(rt; func.index_mut(0).is_none());
    if let Some(index) = func.index_mut(2) {
        *index = module_type(9);
    }
    assert!(rt; func.params() == [WasmValType::I32, array_reference(1)].as_slice());
    assert!(rt; func.results() == [array_reference(9)].as_slice());
    let mut cont = WasmContType::new(module_type(4));
    *cont.index_mut() = module_type(5);
    assert!(rt; cont.index() == module_type(5));
    Ok(())
}

fn memory(idx_type: IndexType, min: u64, page_size_log2: u8) -> Memory
    ensures { result.page_size_log2 ≡ page_size_log2 }
{
    Memory {
        idx_type,
        limits: Limits { min, max: None },
        shared: false,
        page_size_log2,
    }
}

#[test]
fn sizes_and_growth_of_memories(rt: HostRuntime) -> Result<(), Fail> {
    let bytes = memory(IndexType::I32, 0, 0);
    assert!(rt; bytes.allow_growth_to(4294967294));
    assert!(rt; !bytes.allow_growth_to(4294967295));
    let full = memory(IndexType::I32, 65536, 16);
    assert!(rt; full.static_heap_size() == Some(4294967296));
    let huge = memory(IndexType::I64, 281474976710656, 16);
    assert!(rt; huge.minimum_byte_size().is_err());
    let text = format!(in rt.alloc(); "{SizeOverflow}")?;
    assert!(rt; text.as_str() == "size overflow calculating memory size");
    Ok(())
}
