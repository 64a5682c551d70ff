//! Operators of constant expressions as they were read, as rows.

ghost use Rattle.std.specs.Prelude.{◌≡◌, ◌++◌, ⊤, map, OnOk};
ghost use Rattle.wasm_spec.specs.declared.operators.Operator.TheVariants.{RefNull};
ghost use Rattle.wasm_spec.specs.declared.types.HeapType.{HeapType};
ghost use Rattle.wasm_convert.specs.Operators.{KnowsOperator};
ghost use Rattle.plan_tables.specs.Operators as rows;
ghost use Rattle.segment_tables.specs.Operators.{one_type, converted, operator_row};

use entity_map::{EntityRef, OutOfMemory};
use plan_tables::{
    OperatorRow, operator_row as row_of, read_heap_number, read_index_list, read_index_number,
};
use wasm_convert::{ConstOp, TypeConvert};
use wasm_index::ModuleInternedTypeIndex;
use wasm_spec::{HeapType, Operator, UnpackedIndex};
use wasm_types::{EngineOrModuleTypeIndex, WasmHeapType};

/// Knows each index of a type, as the function type 0.
struct PlaceholderType;

impl TypeConvert for PlaceholderType {
    ghost knows = { λ _ i. ⊤ };

    ghost look_up = { λ _. one_type };

    fn lookup_heap_type(&self, index: UnpackedIndex) -> WasmHeapType {
        WasmHeapType::ConcreteFunc(self.lookup_type_index(index))
    }

    fn lookup_type_index(&self, _: UnpackedIndex) -> EngineOrModuleTypeIndex {
        EngineOrModuleTypeIndex::Module(ModuleInternedTypeIndex::from_u32(0))
    }
}

/// The operator with the index 0, which can be converted, and its index. A null reference becomes
/// another operator.
fn without_index(op: Operator) -> (Operator, u32)
    ensures known { KnowsOperator (λ i. ⊤) result.0 }
    ensures row { ((h : HeapType) → op ≡ RefNull h → ⊥) → record (rows.operator_row (converted result.0)) { index = result.1 } ≡ operator_row op }
{
    match op {
        Operator::GlobalGet { global_index } => (
            Operator::GlobalGet { global_index: 0 },
            global_index,
        ),
        Operator::RefFunc { function_index } => (
            Operator::RefFunc { function_index: 0 },
            function_index,
        ),
        Operator::StructNew { struct_type_index } => (
            Operator::StructNew {
                struct_type_index: 0,
            },
            struct_type_index,
        ),
        Operator::StructNewDefault { struct_type_index } => (
            Operator::StructNewDefault {
                struct_type_index: 0,
            },
            struct_type_index,
        ),
        Operator::ArrayNew { array_type_index } => (
            Operator::ArrayNew {
                array_type_index: 0,
            },
            array_type_index,
        ),
        Operator::ArrayNewDefault { array_type_index } => (
            Operator::ArrayNewDefault {
                array_type_index: 0,
            },
            array_type_index,
        ),
        Operator::ArrayNewFixed {
            array_type_index,
            array_size,
        } => (
            Operator::ArrayNewFixed {
                array_type_index: 0,
                array_size,
            },
            array_type_index,
        ),
        Operator::RefNull { .. } => (Operator::RefI31, 0),
        other => (other, 0),
    }
}

/// A null reference.
fn null_row(ty: &HeapType) -> OperatorRow
    ensures { result ≡ operator_row (RefNull ty.now) }
{
    OperatorRow {
        code: ConstOp::RefNull(WasmHeapType::Any).number(),
        heap: read_heap_number(ty),
        list: read_index_list(ty),
        index: read_index_number(ty),
        low: 0,
        high: 0,
    }
}

/// An operator.
fn operator_row(op: &Operator) -> OperatorRow
    ensures { result ≡ operator_row op.now }
{
    if let Operator::RefNull { hty } = op {
        return null_row(hty);
    }
    let (bare, index) = without_index(*op);
    let mut row = row_of(&ConstOp::from_wasmparser(&PlaceholderType, &bare));
    row.index = index;
    row
}

/// Appends operators.
pub(crate) fn push_operators(
    rows: &mut Vec<OperatorRow>,
    operators: &[Operator],
) -> Result<(), OutOfMemory>
    ensures { OnOk result (rows.new.items ≡ rows.old.items ++ map operator_row operators.now) }
{
    for operator in operators {
        rows.push(operator_row(operator))?;
    }
    Ok(())
}
