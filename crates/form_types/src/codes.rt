//! The frames of types as bytes.

ghost use Rattle.std.specs.Prelude.{◌≡◌, ◌<◌, ◌≤◌, ◌+◌, [], IfSome};
ghost use Rattle.std.specs.Option.{option_to_list};
ghost use Rattle.wasm_spec.specs.TypeData.{heap_of, reference_of, value_of, storage_of, value_edges};
ghost use Rattle.type_spec.specs.Same.{heap_byte};
ghost use Rattle.form_types.specs.Codes.{heap_code, reference_code, value_code, storage_code, flag};

use wasm_spec::{AbstractHeapType, HeapType, RefType, StorageType, UnpackedIndex, ValType};

/// The mark after a list of values or fields.
pub const END: u8 = 0x0B;

/// The byte of a heap type that names a declared type.
const CONCRETE: u8 = 0x60;

/// The byte of `i32`.
pub const I32: u8 = 0x7F;

/// What is added to a byte where the reference cannot be null.
const NOT_NULL: u8 = 128;

fn abstract_code(heap: AbstractHeapType) -> u8
    ensures code { result ≡ heap_byte heap }
    ensures below { result < 128 }
{
    match heap {
        AbstractHeapType::NoExn => 0x74,
        AbstractHeapType::NoFunc => 0x73,
        AbstractHeapType::NoExtern => 0x72,
        AbstractHeapType::None => 0x71,
        AbstractHeapType::Func => 0x70,
        AbstractHeapType::Extern => 0x6F,
        AbstractHeapType::Any => 0x6E,
        AbstractHeapType::Eq => 0x6D,
        AbstractHeapType::I31 => 0x6C,
        AbstractHeapType::Struct => 0x6B,
        AbstractHeapType::Array => 0x6A,
        AbstractHeapType::Exn => 0x69,
        AbstractHeapType::NoCont => 0x75,
        AbstractHeapType::Cont => 0x68,
    }
}

fn heap_code(heap: &HeapType) -> u8
    ensures code { result ≡ heap_code (heap_of heap.now) }
    ensures below { result < 128 }
{
    match heap {
        HeapType::Concrete(_) => CONCRETE,
        HeapType::Abstract(heap) => abstract_code(*heap),
    }
}

fn reference_code(ty: &RefType) -> u8
    ensures { result ≡ reference_code (reference_of ty.now) }
{
    let code = heap_code(&ty.heap);
    if ty.nullable { code } else { code + NOT_NULL }
}

/// The byte of a value type.
#[inline]
pub fn value_code(ty: &ValType) -> u8
    ensures { result ≡ value_code (value_of ty.now) }
{
    match ty {
        ValType::I32 => 0x7F,
        ValType::I64 => 0x7E,
        ValType::F32 => 0x7D,
        ValType::F64 => 0x7C,
        ValType::V128 => 0x7B,
        ValType::Ref(ty) => reference_code(ty),
    }
}

/// How far the byte of a value type that is no reference is below that of `i32`. It is the place of
/// the variant, so nothing is looked up for it.
#[inline(always)]
pub fn below_i32(ty: &ValType) -> Option<u8>
    ensures code { IfSome result (λ below. value_code (value_of ty.now) + below ≡ 0x7F) }
    ensures few { IfSome result (λ below. below ≤ 4) }
    ensures names { IfSome result (λ below. value_edges (λ i. i) (value_of ty.now) ≡ []) }
{
    match ty {
        ValType::I32 => Some(0),
        ValType::I64 => Some(1),
        ValType::F32 => Some(2),
        ValType::F64 => Some(3),
        ValType::V128 => Some(4),
        ValType::Ref(_) => None,
    }
}

/// What a value type names, if it names a type.
#[inline]
pub fn named_by(ty: &ValType) -> Option<UnpackedIndex>
    ensures { option_to_list result ≡ value_edges (λ i. i) (value_of ty.now) }
{
    match ty {
        ValType::Ref(
            RefType {
                heap: HeapType::Concrete(index),
                ..
            },
        ) => Some(*index),
        _ => None,
    }
}

/// The byte of a storage type.
pub fn storage_code(ty: &StorageType) -> u8
    ensures { result ≡ storage_code (storage_of ty.now) }
{
    match ty {
        StorageType::I8 => 0x78,
        StorageType::I16 => 0x77,
        StorageType::Val(ty) => value_code(ty),
    }
}

/// The byte of a flag.
pub fn flag(set: bool) -> u8
    ensures { result ≡ flag set }
{
    if set { 1 } else { 0 }
}
