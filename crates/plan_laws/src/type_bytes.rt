//! How many bytes the texts of types have: the number of an index has at most ten digits.

ghost use Rattle.std.specs.Prelude.{◌≡◌, ◌<◌, ◌≤◌, ◌+◌, ◌*◌, ◌^◌, All, IfSome, length};
ghost use Rattle.wasm_types.specs.Texts.{
  index_text,
  heap_text,
  ref_text,
  val_text,
  storage_text,
  field_text,
  array_text,
  func_text,
  struct_text,
  cont_text,
  exn_text,
  inner_text,
  sub_text,
};
ghost use Rattle.plan_lines.specs.TypeLines.{listed_number};
ghost use Rattle.plan_laws.specs.TextCosts.{parts_of, type_parts};

use entity_map::EntityRef;
use wasm_types::{
    EngineOrModuleTypeIndex, WasmArrayType, WasmCompositeInnerType, WasmContType, WasmExnType,
    WasmFieldType, WasmFuncType, WasmHeapType, WasmRefType, WasmStorageType, WasmStructType,
    WasmSubType, WasmValType,
};

fn listed_number(index: EngineOrModuleTypeIndex) -> u32
    ensures { result ≡ listed_number index }
{
    match index {
        EngineOrModuleTypeIndex::Engine(index) => index.as_u32(),
        EngineOrModuleTypeIndex::Module(index) => index.as_u32(),
        EngineOrModuleTypeIndex::RecGroup(index) => index.as_u32(),
    }
}

/// An index: its number has at most ten digits.
pub(crate) fn index(index: EngineOrModuleTypeIndex)
    ensures number { listed_number index < 2 ^ 32 }
    ensures text { length (index_text index) ≤ 21 }
{
    let _number = listed_number(index);
}

/// A heap type.
pub(crate) fn heap(ty: &WasmHeapType)
    ensures { length (heap_text ty.now) ≤ 28 }
{
    match ty {
        WasmHeapType::ConcreteFunc(i) => index(*i),
        WasmHeapType::ConcreteExn(i) => index(*i),
        WasmHeapType::ConcreteCont(i) => index(*i),
        WasmHeapType::ConcreteArray(i) => index(*i),
        WasmHeapType::ConcreteStruct(i) => index(*i),
        WasmHeapType::Extern
        | WasmHeapType::NoExtern
        | WasmHeapType::Func
        | WasmHeapType::NoFunc
        | WasmHeapType::Exn
        | WasmHeapType::NoExn
        | WasmHeapType::Cont
        | WasmHeapType::NoCont
        | WasmHeapType::Any
        | WasmHeapType::Eq
        | WasmHeapType::I31
        | WasmHeapType::Array
        | WasmHeapType::Struct
        | WasmHeapType::None => {}
    }
}

/// A reference type.
pub(crate) fn reference(ty: &WasmRefType)
    ensures { length (ref_text ty.now) ≤ 39 }
{
    heap(&ty.heap_type);
}

fn value(ty: &WasmValType)
    ensures { length (val_text ty.now) ≤ 39 }
{
    match ty {
        WasmValType::Ref(ty) => reference(ty),
        WasmValType::I32
        | WasmValType::I64
        | WasmValType::F32
        | WasmValType::F64
        | WasmValType::V128 => {}
    }
}

fn storage(ty: &WasmStorageType)
    ensures { length (storage_text ty.now) ≤ 39 }
{
    match ty {
        WasmStorageType::Val(ty) => value(ty),
        WasmStorageType::I8 | WasmStorageType::I16 => {}
    }
}

fn field(ty: &WasmFieldType)
    ensures { length (field_text ty.now) ≤ 45 }
{
    storage(&ty.element_type);
}

fn values(types: &[WasmValType])
    ensures { All (λ ty. length (val_text ty) ≤ 39) types.now }
{
    for ty in types {
        value(ty);
    }
}

fn fields(types: &[WasmFieldType])
    ensures { All (λ ty. length (field_text ty) ≤ 45) types.now }
{
    for ty in types {
        field(ty);
    }
}

fn function(ty: &WasmFuncType)
    ensures { length (func_text ty.now) ≤ 23 + 40 * (length ty.now.params + length ty.now.results) }
{
    values(ty.params());
    values(ty.results());
}

fn exception(ty: &WasmExnType)
    ensures { length (exn_text ty.now) ≤ 29 + 46 * length ty.now.fields }
{
    index(ty.func_ty);
    fields(ty.fields.as_slice());
}

fn structure(ty: &WasmStructType)
    ensures { length (struct_text ty.now) ≤ 8 + 46 * length ty.now }
{
    fields(ty.fields.as_slice());
}

fn array(ty: &WasmArrayType)
    ensures { length (array_text ty.now) ≤ 53 }
{
    field(&ty.0);
}

fn continuation(ty: &WasmContType)
    ensures { length (cont_text ty.now) ≤ 28 }
{
    index(ty.index());
}

fn inner(ty: &WasmCompositeInnerType)
    ensures { length (inner_text ty.now) ≤ 29 + 46 * parts_of ty.now }
{
    match ty {
        WasmCompositeInnerType::Array(ty) => array(ty),
        WasmCompositeInnerType::Func(ty) => function(ty),
        WasmCompositeInnerType::Struct(ty) => structure(ty),
        WasmCompositeInnerType::Cont(ty) => continuation(ty),
        WasmCompositeInnerType::Exn(ty) => exception(ty),
    }
}

fn supertype(ty: Option<EngineOrModuleTypeIndex>)
    ensures { IfSome ty (λ i. length (index_text i) ≤ 21) }
{
    match ty {
        Some(ty) => index(ty),
        None => {}
    }
}

/// A subtype, without its parts.
pub(crate) fn subtype(ty: &WasmSubType)
    ensures { length (sub_text ty.now) ≤ 72 + 46 * type_parts ty.now }
{
    supertype(ty.supertype);
    inner(&ty.composite_type.inner);
}
