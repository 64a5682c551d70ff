//! Value types as numbers.

ghost use Rattle.std.specs.Prelude.{◌≡◌};
ghost use Rattle.wasm_types.specs.Indices.{heap_index};
ghost use Rattle.plan_tables.specs.Values.{heap_number, index_list, index_number, ref_row, value_row, plain_row};

use crate::numbers::{bit, listed_number};
use crate::rows::ValueRow;
use wasm_types::{EngineOrModuleTypeIndex, WasmHeapType, WasmRefType, WasmValType};

/// The number of a heap type, in the order of the enumeration.
pub(crate) fn heap_number(ty: &WasmHeapType) -> u8
    ensures { result ≡ heap_number ty.now }
{
    match ty {
        WasmHeapType::Extern => 0,
        WasmHeapType::NoExtern => 1,
        WasmHeapType::Func => 2,
        WasmHeapType::ConcreteFunc(_) => 3,
        WasmHeapType::NoFunc => 4,
        WasmHeapType::Exn => 5,
        WasmHeapType::ConcreteExn(_) => 6,
        WasmHeapType::NoExn => 7,
        WasmHeapType::Cont => 8,
        WasmHeapType::ConcreteCont(_) => 9,
        WasmHeapType::NoCont => 10,
        WasmHeapType::Any => 11,
        WasmHeapType::Eq => 12,
        WasmHeapType::I31 => 13,
        WasmHeapType::Array => 14,
        WasmHeapType::ConcreteArray(_) => 15,
        WasmHeapType::Struct => 16,
        WasmHeapType::ConcreteStruct(_) => 17,
        WasmHeapType::None => 18,
    }
}

/// The index in a heap type.
pub(crate) fn heap_index(ty: &WasmHeapType) -> Option<EngineOrModuleTypeIndex>
    ensures { result ≡ heap_index ty.now }
{
    match ty {
        WasmHeapType::ConcreteFunc(index)
        | WasmHeapType::ConcreteExn(index)
        | WasmHeapType::ConcreteCont(index)
        | WasmHeapType::ConcreteArray(index)
        | WasmHeapType::ConcreteStruct(index) => Some(*index),
        _ => None,
    }
}

/// Which list an index is of; 0 without an index.
pub(crate) fn index_list(index: &Option<EngineOrModuleTypeIndex>) -> u8
    ensures { result ≡ index_list index.now }
{
    match index {
        None => 0,
        Some(EngineOrModuleTypeIndex::Engine(_)) => 1,
        Some(EngineOrModuleTypeIndex::Module(_)) => 2,
        Some(EngineOrModuleTypeIndex::RecGroup(_)) => 3,
    }
}

/// The number of an index; 0 without an index.
pub(crate) fn index_number(index: &Option<EngineOrModuleTypeIndex>) -> u32
    ensures { result ≡ index_number index.now }
{
    match index {
        None => 0,
        Some(index) => listed_number(*index),
    }
}

/// A reference type.
pub(crate) fn ref_row(ty: WasmRefType) -> ValueRow
    ensures { result ≡ ref_row ty }
{
    let index = heap_index(&ty.heap_type);
    ValueRow {
        kind: 5,
        nullable: bit(ty.nullable),
        heap: heap_number(&ty.heap_type),
        list: index_list(&index),
        index: index_number(&index),
    }
}

/// A type without parts, by its kind.
pub(crate) fn plain_row(kind: u8) -> ValueRow
    ensures { result ≡ plain_row kind }
{
    ValueRow {
        kind,
        nullable: 0,
        heap: 0,
        list: 0,
        index: 0,
    }
}

/// A value type.
pub(crate) fn value_row(ty: WasmValType) -> ValueRow
    ensures { result ≡ value_row ty }
{
    match ty {
        WasmValType::I32 => plain_row(0),
        WasmValType::I64 => plain_row(1),
        WasmValType::F32 => plain_row(2),
        WasmValType::F64 => plain_row(3),
        WasmValType::V128 => plain_row(4),
        WasmValType::Ref(ty) => ref_row(ty),
    }
}
