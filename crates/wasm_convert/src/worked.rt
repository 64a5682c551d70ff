//! Worked examples of the definitions: each clause computes.

ghost use Rattle.std.specs.Prelude.{◌≡◌, [], ◌∷◌, false, true, Some, None, pos, negsuc, refl};
ghost use Rattle.wasm_index.specs.Index.{index_of};
ghost use Rattle.wasm_types.specs.Indices.{cont_of};
ghost use Rattle.wasm_spec.specs.TypeData as read;
ghost use Rattle.wasm_spec.specs.TypeData.{map_reference, map_field, map_composite};
ghost use Rattle.type_spec.specs.Names.{FuncName, StructName};
ghost use Rattle.wasm_types.specs.EntityData.{map_table};
ghost use Rattle.wasm_types.specs.EntityViews.{table_of};
ghost use Rattle.wasm_types.specs.TypeViews.{composite_of};
ghost use Rattle.wasm_types.specs.ValueViews.{reference_of, field_of};
ghost use Rattle.wasm_convert.specs.Conversion.{heap_type_of, table_type_of};
ghost use Rattle.wasm_convert.specs.Operators.{const_op_of, operator_of, operands_of, place_of_operator, plain_result};
ghost use Rattle.replay_spec.specs.Values.{const_value};
ghost use Rattle.wasm_convert.specs.Constants.{functions_of, plain_value_of, expression_of, IsNonzeroI32};

use crate::operands::Operands;
use crate::operators::ConstOp;
use crate::values::GlobalConstValue;
use wasm_spec::{AbstractHeapType, HeapType, Operator, StorageType, UnpackedIndex};
use wasm_types::{
    EngineOrModuleTypeIndex, IndexType, WasmCompositeInnerType, WasmHeapType, WasmStorageType,
};

/// Types over a look-up that maps each index to the function type 7.
#[tactic(auto, using(crate::proofs::HeapTypes::heap_converted))]
pub fn worked_conversions()
    ensures reference { map_reference (λ i. record { kind = FuncName; index = EngineOrModuleTypeIndex.Module (index_of 7) })
        (read.reference_of (record { nullable = false; heap = HeapType.Concrete (UnpackedIndex.Module 3) }))
        ≡ reference_of (record { nullable = false; heap_type = WasmHeapType.ConcreteFunc (EngineOrModuleTypeIndex.Module (index_of 7)) }) }
    ensures continuation { map_composite {H = UnpackedIndex} (λ i. record { kind = FuncName; index = EngineOrModuleTypeIndex.Module (index_of 7) })
        (λ i. EngineOrModuleTypeIndex.Module (index_of 7)) (read.Cont (UnpackedIndex.Module 3))
        ≡ composite_of (WasmCompositeInnerType.Cont (cont_of (EngineOrModuleTypeIndex.Module (index_of 7)))) }
    ensures field { map_field (λ i. record { kind = FuncName; index = EngineOrModuleTypeIndex.Module (index_of 7) })
        (read.field_of (record { element_type = StorageType.I8; mutable = true }))
        ≡ field_of (record { element_type = WasmStorageType.I8; mutable = true }) }
    ensures table { map_table (λ i. record { kind = FuncName; index = EngineOrModuleTypeIndex.Module (index_of 7) }) (table_type_of (record {
      element_type = record { nullable = true; heap = HeapType.Abstract AbstractHeapType.Extern };
      table64 = true;
      initial = 2;
      maximum = None;
    })) ≡ table_of (record {
      idx_type = IndexType.I64;
      limits = record { min = 2; max = None };
      ref_type = record { nullable = true; heap_type = WasmHeapType.Extern };
    }) }
    ensures null { heap_type_of (λ i. record { kind = StructName; index = EngineOrModuleTypeIndex.Module (index_of 7) })
        (HeapType.Concrete (UnpackedIndex.Module 3)) ≡ WasmHeapType.ConcreteStruct (EngineOrModuleTypeIndex.Module (index_of 7)) }
{}

/// Operators and the values of expressions.
pub fn worked_constants()
    ensures function { const_op_of (λ i. record { kind = FuncName; index = EngineOrModuleTypeIndex.Module (index_of 7) }) (Operator.RefFunc 4) ≡ ConstOp.RefFunc (index_of 4) }
    ensures any_null { operator_of (ConstOp.RefNull WasmHeapType.Func) ≡ Operator.RefNull (HeapType.Abstract AbstractHeapType.Any) }
    ensures escaped { functions_of (Operator.RefFunc 4 ∷ Operator.RefI31 ∷ Operator.RefFunc 2 ∷ []) ≡ index_of 4 ∷ index_of 2 ∷ [] }
    ensures sum { const_value (expression_of (ConstOp.I32Const (pos 2147483647) ∷ ConstOp.I32Const (pos 1) ∷ ConstOp.I32Add ∷ []))
        ≡ Some (plain_value_of (GlobalConstValue.I32 (negsuc 2147483647))) }
    ensures two_constants { const_value (expression_of (ConstOp.I32Const (pos 1) ∷ ConstOp.I32Const (pos 2) ∷ [])) ≡ None }
    ensures operands { operands_of (ConstOp.ArrayNewFixed (index_of 3) 5) ≡ Operands.IndexAndSize 3 5 }
    ensures last { place_of_operator ConstOp.AnyConvertExtern ≡ 21 }
    ensures product { plain_result ConstOp.I64Mul (plain_value_of (GlobalConstValue.I64 (negsuc 2)) ∷ plain_value_of (GlobalConstValue.I64 (pos 5)) ∷ [])
        ≡ Some (plain_value_of (GlobalConstValue.I64 (negsuc 14))) }
    ensures other_type { plain_result ConstOp.I64Mul (plain_value_of (GlobalConstValue.I32 (pos 3)) ∷ plain_value_of (GlobalConstValue.I64 (pos 5)) ∷ []) ≡ None }
    ensures below_zero { IsNonzeroI32 (ConstOp.I32Const (negsuc 0) ∷ []) }
{}
