//! Worked examples of the definitions: each clause computes.

ghost use Rattle.std.specs.Prelude.{◌≡◌, [], ◌∷◌, true, false, Some, None, codes, count_by};
ghost use Rattle.wasm_index.specs.Index.{index_of};
ghost use Rattle.wasm_types.specs.Collected.{val_is_object, val_is_collected};
ghost use Rattle.wasm_types.specs.Indices.{func_with_index};
ghost use Rattle.wasm_types.specs.Memories.{minimum_bytes};
ghost use Rattle.wasm_types.specs.Sizes.{maximum_bytes};
ghost use Rattle.wasm_types.specs.Texts.{ref_text, group_text, subtyping_text, field_text, exn_text};
ghost use Rattle.wasm_types.specs.Trampolines.{trampoline_of};

use crate::field::{WasmFieldType, WasmStorageType};
use crate::heap::WasmHeapType;
use crate::index::EngineOrModuleTypeIndex;
use crate::limits::IndexType;
use crate::value::{WasmRefType, WasmValType};

/// The texts of a few types.
pub fn worked_texts()
    ensures concrete { ref_text (record {
      nullable = true;
      heap_type = WasmHeapType.ConcreteFunc (EngineOrModuleTypeIndex.Module (index_of 70));
    }) ≡ codes "(ref null func (module 70))" }
    ensures short { ref_text (record { nullable = true; heap_type = WasmHeapType.Func }) ≡ codes "funcref" }
    ensures not_short { ref_text (record { nullable = false; heap_type = WasmHeapType.Func }) ≡ codes "(ref func)" }
    ensures group { group_text (codes "param") (WasmValType.I32 ∷ WasmValType.F64 ∷ []) ≡ codes " (param i32 f64)" }
    ensures no_group { group_text (codes "param") [] ≡ [] }
    ensures field { field_text (record { element_type = WasmStorageType.I8; mutable = true }) ≡ codes "(mut i8)" }
    ensures exception { exn_text (record {
      func_ty = EngineOrModuleTypeIndex.Module (index_of 3);
      fields = (record { element_type = WasmStorageType.Val WasmValType.I32; mutable = false }) ∷ [];
    }) ≡ codes "(exn ((module 3)) i32)" }
    ensures final_subtype { subtyping_text true (Some (EngineOrModuleTypeIndex.Module (index_of 3))) (codes "(struct)")
        ≡ codes "(sub final (module 3) (struct))" }
{}

/// A reference to an i31 is collected and is not an object; in a trampoline it is a nullable
/// reference to anything.
pub fn worked_references()
    ensures collected { val_is_collected (WasmValType.Ref (record { nullable = false; heap_type = WasmHeapType.I31 })) ≡ true }
    ensures no_object { val_is_object (WasmValType.Ref (record { nullable = false; heap_type = WasmHeapType.I31 })) ≡ false }
    ensures trampoline { trampoline_of (record {
      params = WasmValType.I32 ∷ WasmValType.Ref (record { nullable = false; heap_type = WasmHeapType.I31 }) ∷ [];
      results = [];
    }) ≡ record {
      params = WasmValType.I32 ∷ WasmValType.Ref (record { nullable = true; heap_type = WasmHeapType.Any }) ∷ [];
      results = [];
    } }
    ensures second_index { func_with_index (record {
      params = WasmValType.I32 ∷ [];
      results = WasmValType.Ref (record {
        nullable = true;
        heap_type = WasmHeapType.ConcreteStruct (EngineOrModuleTypeIndex.Module (index_of 3));
      }) ∷ [];
    }) 1 (EngineOrModuleTypeIndex.Engine (index_of 8)) ≡ record {
      params = WasmValType.I32 ∷ [];
      results = WasmValType.Ref (record {
        nullable = true;
        heap_type = WasmHeapType.ConcreteStruct (EngineOrModuleTypeIndex.Engine (index_of 8));
      }) ∷ [];
    } }
{}

/// Sizes of a few memories.
pub fn worked_sizes()
    ensures minimum { minimum_bytes (record {
      idx_type = IndexType.I32;
      limits = record { min = 65536; max = None };
      shared = false;
      page_size_log2 = 16;
    }) ≡ 4294967296 }
    ensures no_maximum { maximum_bytes (record {
      idx_type = IndexType.I32;
      limits = record { min = 1; max = None };
      shared = false;
      page_size_log2 = 16;
    }) ≡ 4294967296 }
    ensures wide { maximum_bytes (record {
      idx_type = IndexType.I64;
      limits = record { min = 1; max = None };
      shared = false;
      page_size_log2 = 0;
    }) ≡ 18446744073709551615 }
    ensures not_wrapped { minimum_bytes (record {
      idx_type = IndexType.I64;
      limits = record { min = 281474976710656; max = None };
      shared = false;
      page_size_log2 = 16;
    }) ≡ 18446744073709551616 }
{}

/// The named reference types.
pub fn worked_names() -> (WasmRefType, WasmRefType, WasmValType)
    ensures funcref { result.0 ≡ record { nullable = true; heap_type = WasmHeapType.Func } }
    ensures externref { result.1 ≡ record { nullable = true; heap_type = WasmHeapType.Extern } }
    ensures value { result.2 ≡ WasmValType.Ref (record { nullable = true; heap_type = WasmHeapType.Func }) }
{
    (
        WasmRefType::FUNCREF,
        WasmRefType::EXTERNREF,
        WasmValType::FUNCREF,
    )
}
