//! Worked examples of the definitions: each clause computes.

ghost use Rattle.std.specs.Prelude.{◌≡◌, ◌+◌, [], ◌∷◌, true, false, Some};
ghost use Rattle.wasm_spec.specs.TypeData.{sub_type_edges, map_function};
ghost use Rattle.type_spec.specs.Names.{index_of as index_in, named};
ghost use Rattle.wasm_index.specs.Index.{index_of, number_of};
ghost use Rattle.wasm_types.specs.EntityData.{tag_edges, map_entity, entity_edges};
ghost use Rattle.wasm_types.specs.EntityViews.{tag_of, entity_of};
ghost use Rattle.wasm_types.specs.TypeViews.{function_of, sub_type_of};
ghost use Rattle.wasm_trace.specs.Canonical.{engine_edges, runtime_edge, consed_edge};

use wasm_types::{
    EngineOrModuleTypeIndex, EntityType, WasmCompositeInnerType, WasmHeapType, WasmValType,
};

/// The edges of a type: its supertype, then its function type; of a tag: its signature, then its exception.
pub fn worked_edges()
    ensures exception { sub_type_edges index_in (sub_type_of (record {
      is_final = false;
      supertype = Some (EngineOrModuleTypeIndex.Module (index_of 1));
      composite_type = record {
        shared = false;
        inner = WasmCompositeInnerType.Exn (record { func_ty = EngineOrModuleTypeIndex.Engine (index_of 2); fields = [] });
      };
    })) ≡ EngineOrModuleTypeIndex.Module (index_of 1) ∷ EngineOrModuleTypeIndex.Engine (index_of 2) ∷ [] }
    ensures tag { tag_edges (tag_of (record {
      signature = EngineOrModuleTypeIndex.Module (index_of 5);
      exception = EngineOrModuleTypeIndex.Module (index_of 4);
    })) ≡ EngineOrModuleTypeIndex.Module (index_of 5) ∷ EngineOrModuleTypeIndex.Module (index_of 4) ∷ [] }
    ensures entity { entity_edges index_in (entity_of (EntityType.Global (record {
      wasm_ty = WasmValType.Ref (record { nullable = true; heap_type = WasmHeapType.ConcreteCont (EngineOrModuleTypeIndex.Module (index_of 3)) });
      mutability = true;
    }))) ≡ EngineOrModuleTypeIndex.Module (index_of 3) ∷ [] }
    ensures of_engine { engine_edges (EngineOrModuleTypeIndex.Module (index_of 3) ∷ EngineOrModuleTypeIndex.Engine (index_of 8) ∷ [])
        ≡ index_of 8 ∷ [] }
{}

/// The two canonical forms, where the engine's index is a hundred more. A group begins at 5.
pub fn worked_canonical_forms()
    ensures runtime { map_function (named (runtime_edge (λ i. index_of (number_of i + 100)))) (function_of (record {
      params = WasmValType.Ref (record { nullable = true; heap_type = WasmHeapType.ConcreteFunc (EngineOrModuleTypeIndex.Module (index_of 5)) }) ∷ [];
      results = WasmValType.I32 ∷ [];
    })) ≡ function_of (record {
      params = WasmValType.Ref (record { nullable = true; heap_type = WasmHeapType.ConcreteFunc (EngineOrModuleTypeIndex.Engine (index_of 105)) }) ∷ [];
      results = WasmValType.I32 ∷ [];
    }) }
    ensures compared { map_function (named (consed_edge (λ i. index_of (number_of i + 100)) 5)) (function_of (record {
      params = WasmValType.Ref (record { nullable = true; heap_type = WasmHeapType.ConcreteFunc (EngineOrModuleTypeIndex.Module (index_of 4)) })
          ∷ WasmValType.Ref (record { nullable = true; heap_type = WasmHeapType.ConcreteStruct (EngineOrModuleTypeIndex.Module (index_of 5)) }) ∷ [];
      results = WasmValType.Ref (record { nullable = true; heap_type = WasmHeapType.ConcreteStruct (EngineOrModuleTypeIndex.Module (index_of 7)) }) ∷ [];
    })) ≡ function_of (record {
      params = WasmValType.Ref (record { nullable = true; heap_type = WasmHeapType.ConcreteFunc (EngineOrModuleTypeIndex.Engine (index_of 104)) })
          ∷ WasmValType.Ref (record { nullable = true; heap_type = WasmHeapType.ConcreteStruct (EngineOrModuleTypeIndex.RecGroup (index_of 0)) }) ∷ [];
      results = WasmValType.Ref (record { nullable = true; heap_type = WasmHeapType.ConcreteStruct (EngineOrModuleTypeIndex.RecGroup (index_of 2)) }) ∷ [];
    }) }
    ensures entity { map_entity (named (consed_edge (λ i. index_of (number_of i + 100)) 5)) (consed_edge (λ i. index_of (number_of i + 100)) 5)
        (entity_of (EntityType.Tag (record {
          signature = EngineOrModuleTypeIndex.Module (index_of 4);
          exception = EngineOrModuleTypeIndex.Engine (index_of 7);
        }))) ≡ entity_of (EntityType.Tag (record {
          signature = EngineOrModuleTypeIndex.Engine (index_of 104);
          exception = EngineOrModuleTypeIndex.Engine (index_of 7);
        })) }
{}
