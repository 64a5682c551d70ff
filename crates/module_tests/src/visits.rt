//! Visits of a few types.

ghost use Rattle.std.specs.Prelude.{◌≡◌, ◌<◌, ◌+◌, [], ◌∷◌, IfOk};
ghost use Rattle.type_spec.specs.Names.{index_of as index_in};
ghost use Rattle.wasm_index.specs.Index.{index_of};
ghost use Rattle.wasm_spec.specs.TypeData.{value_edges, sub_type_edges, group_edges};
ghost use Rattle.wasm_types.specs.TypeViews.{sub_type_of, group_of};
ghost use Rattle.wasm_types.specs.ValueViews.{value_of};
ghost use Rattle.wasm_types.specs.declared.heap.WasmHeapType.TheVariants.{ConcreteStruct};
ghost use Rattle.wasm_types.specs.declared.index.EngineOrModuleTypeIndex.TheVariants.{Module};

use entity_map::EntityRef;
use std::alloc::{AllocError, Global as Heap};
use std::ops::Range;
use std::process::Abort;
use std::test::Fail;
use wasm_index::{ModuleInternedTypeIndex, RecGroupRelativeTypeIndex, VMSharedTypeIndex};
use wasm_trace::TypeTrace;
use wasm_types::{
    EngineOrModuleTypeIndex, Tag, WasmCompositeInnerType, WasmCompositeType, WasmExnType,
    WasmFieldType, WasmFuncType, WasmHeapType, WasmRecGroup, WasmRefType, WasmStorageType,
    WasmStructType, WasmSubType, WasmValType,
};

fn module_type(number: u32) -> EngineOrModuleTypeIndex
    requires { number < u32.MAX }
    ensures { result ≡ Module (index_of number) }
{
    EngineOrModuleTypeIndex::Module(ModuleInternedTypeIndex::from_u32(number))
}

fn reference_type(number: u32) -> WasmRefType
    requires { number < u32.MAX }
    ensures { result.heap_type ≡ ConcreteStruct (Module (index_of number)) }
{
    WasmRefType {
        nullable: true,
        heap_type: WasmHeapType::ConcreteStruct(module_type(number)),
    }
}

fn reference(number: u32) -> WasmValType
    requires { number < u32.MAX }
    ensures { value_edges index_in (value_of result) ≡ Module (index_of number) ∷ [] }
{
    WasmValType::Ref(reference_type(number))
}

// Two references to functions, of the types 0 and 1, which must not be null.
fn two_functions() -> [WasmValType; 2] {
    [function_reference(0), function_reference(1)]
}

fn function_reference(number: u32) -> WasmValType
    requires { number < u32.MAX }
{
    WasmValType::Ref(WasmRefType {
        nullable: false,
        heap_type: WasmHeapType::ConcreteFunc(module_type(number)),
    })
}

// The edges of a value, in the order in which they are visited.
fn visited<T: TypeTrace>(
    alloc: Heap,
    value: &T,
) -> Result<Vec<EngineOrModuleTypeIndex>, AllocError> {
    let mut edges = Vec::new(alloc);
    value.trace(&mut |edge: EngineOrModuleTypeIndex| -> Result<(), AllocError> {
        edges.push(edge)?;
        Ok(())
    })?;
    Ok(edges)
}

// How many edges of a type are visited up to one at which the visit stops.
fn visits_up_to(func: &WasmFuncType, last: EngineOrModuleTypeIndex) -> Option<u32> {
    let mut visits = 0u32;
    let answer = func.trace(&mut |edge: EngineOrModuleTypeIndex| -> Result<(), ()> {
        visits = visits.saturating_add(1);
        if edge == last {
            return Err(());
        }
        Ok(())
    });
    answer.is_err().then_some(visits)
}

#[test]
fn stop_ends_the_visits(rt: HostRuntime) -> Result<(), Fail> {
    let two = WasmFuncType::new(rt.alloc(), &two_functions(), &[])?;
    assert!(rt; visits_up_to(&two, module_type(1)) == Some(2));
    assert!(rt; visits_up_to(&two, module_type(2)) == None);
    let three = WasmFuncType::new(rt.alloc(), &two_functions(), &[function_reference(2)])?;
    assert!(rt; visits_up_to(&three, module_type(1)) == Some(2));
    Ok(())
}

#[test]
fn stop_leaves_the_first_rewritten(rt: HostRuntime) -> Result<(), Fail> {
    let mut func = WasmFuncType::new(rt.alloc(), &two_functions(), &[])?;
    let answer = func.trace_mut(&mut |edge: &mut EngineOrModuleTypeIndex| {
        if *edge == module_type(1) {
            return Err(());
        }
        *edge = module_type(9);
        Ok(())
    });
    assert!(rt; answer.is_err());
    let left = [function_reference(9), function_reference(1)];
    assert!(rt; func.params() == left.as_slice());
    assert!(rt; func.results().len() == 0);
    Ok(())
}

// An exception type of the function type 2 with a field of the struct type 3, under the type 1.
fn exception(alloc: Heap) -> Result<WasmSubType, AllocError> {
    let mut fields = Vec::new(alloc);
    fields.push(WasmFieldType {
        element_type: WasmStorageType::Val(reference(3)),
        mutable: true,
    })?;
    Ok(WasmSubType {
        is_final: false,
        supertype: Some(module_type(1)),
        composite_type: WasmCompositeType {
            inner: WasmCompositeInnerType::Exn(WasmExnType {
                func_ty: module_type(2),
                fields,
            }),
            shared: false,
        },
    })
}

fn visits_in_order<T: TypeTrace>(
    rt: &impl Abort,
    alloc: Heap,
    value: &T,
    numbers: &[u32],
) -> Result<(), AllocError> {
    let edges = visited(alloc, value)?;
    assert!(rt; edges.len() == numbers.len());
    for (edge, number) in edges.iter().zip(numbers) {
        assert!(rt; edge.as_module_type_index().map(|index| index.as_u32()) == Some(*number));
    }
    Ok(())
}

#[test]
fn edges_are_visited_in_order(rt: HostRuntime) -> Result<(), Fail> {
    let alloc = rt.alloc();
    let func = WasmFuncType::new(alloc, &[reference(6), reference(7)], &[reference(8)])?;
    visits_in_order(&rt, alloc, &func, &[6, 7, 8])?;
    let mut types = Vec::new(alloc);
    types.push(exception(alloc)?)?;
    types.push(exception(alloc)?)?;
    visits_in_order(&rt, alloc, &WasmRecGroup { types }, &[1, 2, 3, 1, 2, 3])?;
    Ok(())
}

// The engine's index of each of a module's types: a hundred more.
fn engine_type(index: ModuleInternedTypeIndex) -> VMSharedTypeIndex {
    VMSharedTypeIndex::new(index.as_u32().min(99) + 100)
}

// The range of a group of two types.
fn two_from(start: u32) -> Range<ModuleInternedTypeIndex>
    requires { start + 2 < u32.MAX }
    ensures { result ≡ record { start = index_of start; end = index_of (start + 2) } }
{
    ModuleInternedTypeIndex::from_u32(start)..ModuleInternedTypeIndex::from_u32(start + 2)
}

#[test]
fn group_of_a_range_becomes_relative(rt: HostRuntime) -> Result<(), Fail> {
    let mut tag = Tag {
        signature: module_type(4),
        exception: module_type(5),
    };
    tag.canonicalize_for_hash_consing(two_from(5), &engine_type);
    assert!(rt; tag.signature == EngineOrModuleTypeIndex::Engine(VMSharedTypeIndex::new(104)));
    assert!(rt;
        tag.exception == EngineOrModuleTypeIndex::RecGroup(RecGroupRelativeTypeIndex::from_u32(0))
    );
    assert!(rt; tag.is_canonicalized_for_hash_consing());
    assert!(rt; !tag.is_canonicalized_for_runtime_usage());
    Ok(())
}

// A struct type under the type 2, with a field of the struct type of this number.
fn struct_of_one(alloc: Heap, number: u32) -> Result<WasmSubType, AllocError>
    requires { number < u32.MAX }
    ensures { IfOk result (λ t. sub_type_edges index_in (sub_type_of t) ≡ Module (index_of 2) ∷ Module (index_of number) ∷ []) }
{
    let mut fields = Vec::new(alloc);
    fields.push(WasmFieldType {
        element_type: WasmStorageType::Val(reference(number)),
        mutable: true,
    })?;
    Ok(WasmSubType {
        is_final: true,
        supertype: Some(module_type(2)),
        composite_type: WasmCompositeType {
            inner: WasmCompositeInnerType::Struct(WasmStructType { fields }),
            shared: false,
        },
    })
}

// The group of two struct types from `start` on, each with a field of the other.
fn mutual_structs(alloc: Heap, start: u32) -> Result<WasmRecGroup, AllocError>
    requires { start + 1 < u32.MAX }
    ensures { IfOk result (λ g. group_edges index_in (group_of g) ≡ Module (index_of 2) ∷ Module (index_of (start + 1))
        ∷ Module (index_of 2) ∷ Module (index_of start) ∷ []) }
{
    let mut types = Vec::new(alloc);
    types.push(struct_of_one(alloc, start + 1)?)?;
    types.push(struct_of_one(alloc, start)?)?;
    Ok(WasmRecGroup { types })
}

#[test]
fn group_at_two_places_becomes_one(rt: HostRuntime) -> Result<(), Fail> {
    let alloc = rt.alloc();
    let mut first = mutual_structs(alloc, 5)?;
    let mut second = mutual_structs(alloc, 8)?;
    assert!(rt; first != second);
    first.canonicalize_for_hash_consing(two_from(5), &engine_type);
    second.canonicalize_for_hash_consing(two_from(8), &engine_type);
    assert!(rt; first == second);
    assert!(rt; first.is_canonicalized_for_hash_consing());
    assert!(rt; second.is_canonicalized_for_hash_consing());
    Ok(())
}

#[test]
fn engine_edges_stay(rt: HostRuntime) -> Result<(), Fail> {
    let mut tag = Tag {
        signature: EngineOrModuleTypeIndex::Engine(VMSharedTypeIndex::new(3)),
        exception: module_type(5),
    };
    assert!(rt; !tag.is_canonicalized_for_runtime_usage());
    let mut engine_visits = 0u32;
    let answer = tag.trace_engine_indices(&mut |index: VMSharedTypeIndex| -> Result<(), ()> {
        engine_visits = engine_visits.saturating_add(index.bits());
        Ok(())
    });
    assert!(rt; answer.is_ok());
    assert!(rt; engine_visits == 3);
    tag.canonicalize_for_runtime_usage(&engine_type);
    assert!(rt; tag.signature == EngineOrModuleTypeIndex::Engine(VMSharedTypeIndex::new(3)));
    assert!(rt; tag.exception == EngineOrModuleTypeIndex::Engine(VMSharedTypeIndex::new(105)));
    assert!(rt; tag.is_canonicalized_for_runtime_usage());
    Ok(())
}
