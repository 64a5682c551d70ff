//! Worked examples of the definitions: each clause computes.

ghost use Rattle.std.specs.Prelude.{◌≡◌, [], ◌∷◌, codes, Bool, true, false, Some, None};
ghost use Rattle.wasm_index.specs.Index.{index_of};
ghost use Rattle.wasm_index.specs.declared.index.Index.{Index};
ghost use Rattle.wasm_index.specs.declared.spaces.DefinedFuncSpace.{DefinedFuncSpace};
ghost use Rattle.wasm_index.specs.declared.spaces.FuncSpace.{FuncSpace};
ghost use Rattle.wasm_types.specs.declared.memory.Memory.{Memory};
ghost use Rattle.type_spec.specs.Names.{Named, by_name};
ghost use Rattle.wasm_module.specs.declared.module.Module.{Module};
ghost use Rattle.wasm_types.specs.declared.index.EngineOrModuleTypeIndex.{EngineOrModuleTypeIndex};
ghost use Rattle.wasm_module.specs.ModuleData.{ModuleData, AlwaysStarts};
ghost use Rattle.wasm_module.specs.ModuleShapes.{module_shape};
ghost use Rattle.wasm_module.specs.Entities.{entity_type, owned_memories};
ghost use Rattle.wasm_module.specs.Imports.{imports_of, entity_at};
ghost use Rattle.wasm_module.specs.Record.{empty_record};
ghost use Rattle.wasm_module.specs.Spaces.{index_after, defined_at, first_indices};

use crate::initializer::Initializer;
use wasm_types::{EngineOrModuleTypeIndex, EntityIndex, EntityType, IndexType};

/// Two functions are imported: the defined ones have the indices from 2 on.
pub fn worked_spaces()
    ensures index { index_after {Space = FuncSpace} {Defined = DefinedFuncSpace} 2 (index_of 3) ≡ index_of 5 }
    ensures last_import { defined_at {Space = FuncSpace} {Defined = DefinedFuncSpace} 2 (index_of 1) ≡ None }
    ensures first_defined { defined_at {Space = FuncSpace} {Defined = DefinedFuncSpace} 2 (index_of 2) ≡ Some (index_of 0) }
    ensures indices { first_indices {Space = DefinedFuncSpace} 2 ≡ index_of 0 ∷ index_of 1 ∷ [] }
{}

/// One memory is imported, and of the three defined ones the first is shared.
pub fn worked_owned_memories()
    ensures before_last { let memory : Bool → Memory = λ (shared : Bool). record {
      idx_type = IndexType.I32;
      limits = record { min = 1; max = None };
      shared = shared;
      page_size_log2 = 16;
    } in owned_memories (record (empty_record (index_of 0)) {
      num_imported_memories = 1;
      memories = memory false ∷ memory true ∷ memory false ∷ memory false ∷ [];
    }) 2 ≡ 1 }
{}

/// A function of type 4 is imported as `run` from `env`.
pub fn worked_imports()
    ensures import { imports_of (record (empty_record (index_of 0)) {
      strings = codes "env" ∷ codes "run" ∷ [];
      functions = record { signature = EngineOrModuleTypeIndex.Module (index_of 4); func_ref = index_of 0 } ∷ [];
    }) (Initializer.Import (record { 0 = 0 }) (record { 0 = 1 }) (EntityIndex.Function (index_of 0)) ∷ [])
        ≡ (codes "env", codes "run", EntityType.Function (EngineOrModuleTypeIndex.Module (index_of 4))) ∷ [] }
    ensures past_the_end { entity_at (empty_record (index_of 0)) 0 ≡ None }
    ensures no_type { entity_type (empty_record (index_of 0)) (EntityIndex.Function (index_of 0)) ≡ None }
{}

/// The types of a module come first, then its functions' and tags', and the startup's last.
pub fn worked_edges()
    ensures { (rest : Module) → let «data» : ModuleData (Named EngineOrModuleTypeIndex) EngineOrModuleTypeIndex = (
      EngineOrModuleTypeIndex.Module (index_of 1) ∷ [],
      (
        record { signature = EngineOrModuleTypeIndex.Module (index_of 2); func_ref = index_of 0 } ∷ [],
        (
          [],
          (
            [],
            (
              record { signature = EngineOrModuleTypeIndex.Module (index_of 3); exception = EngineOrModuleTypeIndex.Module (index_of 4) } ∷ [],
              (AlwaysStarts (EngineOrModuleTypeIndex.Module (index_of 5)), rest),
            ),
          ),
        ),
      ),
    ) in (by_name module_shape).edges «data»
        ≡ EngineOrModuleTypeIndex.Module (index_of 1) ∷ EngineOrModuleTypeIndex.Module (index_of 2) ∷ EngineOrModuleTypeIndex.Module (index_of 3)
        ∷ EngineOrModuleTypeIndex.Module (index_of 4) ∷ EngineOrModuleTypeIndex.Module (index_of 5) ∷ [] }
{}
