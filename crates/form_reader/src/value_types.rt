//! Heap, reference and value types (core specification, 5.3, value types).

ghost use Rattle.std.specs.Prelude.{◌≡◌};
ghost use Rattle.wasm_spec.specs.declared.types.ValType as declared;
ghost use Rattle.wasm_spec.specs.TypeGrammar.{named_by, number_types, abstract_heap as spec_abstract_heap};
ghost use Rattle.form_reader.specs.Reading.{Reads};
ghost use Rattle.form_reader.specs.TypeRows.{heap_type, reference_after, reference_type, value_after, value_type};

use crate::cursor::Cursor;
use crate::error::ReadError;
use crate::vectors::Entry;
use std::alloc::Global;
use wasm_spec::{AbstractHeapType, HeapType, RefType, UnpackedIndex, ValType, What};

/// The byte before a shared type.
pub const SHARED: u8 = 0x65;

/// The bytes before the heap type of a reference that may be null, and of one that may not.
pub const NULLABLE: u8 = 0x63;

pub const NOT_NULLABLE: u8 = 0x64;

/// The byte of the first abstract heap type; the others follow it in order.
const FIRST_HEAP_TYPE: u8 = 0x68;

const HEAP_TYPES: [AbstractHeapType; 14] = [
    AbstractHeapType::Cont,
    AbstractHeapType::Exn,
    AbstractHeapType::Array,
    AbstractHeapType::Struct,
    AbstractHeapType::I31,
    AbstractHeapType::Eq,
    AbstractHeapType::Any,
    AbstractHeapType::Extern,
    AbstractHeapType::Func,
    AbstractHeapType::None,
    AbstractHeapType::NoExtern,
    AbstractHeapType::NoFunc,
    AbstractHeapType::NoExn,
    AbstractHeapType::NoCont,
];

/// The byte of the vector type; the number types follow it in order.
pub const FIRST_NUMBER_TYPE: u8 = 0x7B;

fn abstract_heap(byte: u8) -> Option<AbstractHeapType>
    ensures { result ≡ spec_abstract_heap byte }
{
    let place = byte.checked_sub(FIRST_HEAP_TYPE)?;
    HEAP_TYPES.get(usize::from(place)).copied()
}

/// The number or vector type of a byte.
#[inline(always)]
pub fn number_type(byte: u8) -> Option<ValType>
    ensures { result ≡ named_by 0x7B number_types byte }
{
    match byte {
        FIRST_NUMBER_TYPE => Some(ValType::V128),
        0x7C => Some(ValType::F64),
        0x7D => Some(ValType::F32),
        0x7E => Some(ValType::I64),
        0x7F => Some(ValType::I32),
        _ => None,
    }
}

impl<'d> Entry<'d> for ValType {
    type Value = ValType;

    ghost Data = { declared.ValType };

    ghost form = { value_type.read };

    ghost view = { λ x. x };

    #[inline]
    fn read(_alloc: Global, cursor: &mut Cursor<'d>) -> Result<ValType, ReadError> {
        cursor.value_type()
    }
}

impl<'d> Cursor<'d> {
    /// The byte of an abstract heap type, or a type index.
    #[tactic(auto, unfolding(crate::specs::TypeRows::heap_type, crate::specs::TypeRows::concrete))]
    pub fn heap_type(&mut self) -> Result<HeapType, ReadError>
        ensures { Reads heap_type.read (λ x. x) self.old.rest.now self.new.rest.now result }
    {
        let before = self.rest;
        let first = self.byte()?;
        if let Some(heap) = abstract_heap(first) {
            return Ok(HeapType::Abstract(heap));
        }
        if first == SHARED {
            return Err(ReadError::Unsupported(What::Shared));
        }
        // The byte is the first of the index.
        self.rest = before;
        let index = self.non_negative_s33()?;
        Ok(HeapType::Concrete(UnpackedIndex::Module(index)))
    }

    /// What follows the first byte of a reference type; that of an abstract heap type alone is its
    /// nullable reference.
    #[tactic(auto, unfolding(crate::specs::TypeRows::reference_after))]
    pub fn reference_after(&mut self, first: u8) -> Result<RefType, ReadError>
        ensures { Reads (reference_after first).read (λ x. x) self.old.rest.now self.new.rest.now result }
    {
        if first == NULLABLE || first == NOT_NULLABLE {
            let heap = self.heap_type()?;
            let nullable = first == NULLABLE;
            return Ok(RefType { nullable, heap });
        }
        let Some(heap) = abstract_heap(first) else {
            return Err(ReadError::Malformed);
        };
        let heap = HeapType::Abstract(heap);
        Ok(RefType {
            nullable: true,
            heap,
        })
    }

    /// A reference type.
    #[tactic(auto, unfolding(crate::specs::TypeRows::reference_type))]
    pub fn reference_type(&mut self) -> Result<RefType, ReadError>
        ensures { Reads reference_type.read (λ x. x) self.old.rest.now self.new.rest.now result }
    {
        let first = self.byte()?;
        self.reference_after(first)
    }

    /// What follows the first byte of a value type.
    #[tactic(auto, unfolding(crate::specs::TypeRows::value_after))]
    pub fn value_after(&mut self, first: u8) -> Result<ValType, ReadError>
        ensures { Reads (value_after first).read (λ x. x) self.old.rest.now self.new.rest.now result }
    {
        if let Some(number) = number_type(first) {
            return Ok(number);
        }
        if first == SHARED {
            return Err(ReadError::Unsupported(What::Shared));
        }
        let reference = self.reference_after(first)?;
        Ok(ValType::Ref(reference))
    }

    /// A value type. Most are number types, so there is a separate path for them.
    #[inline]
    #[tactic(auto, unfolding(crate::specs::TypeRows::value_type, crate::specs::TypeRows::value_after))]
    pub fn value_type(&mut self) -> Result<ValType, ReadError>
        ensures { Reads value_type.read (λ x. x) self.old.rest.now self.new.rest.now result }
    {
        let first = self.byte()?;
        if let Some(number) = number_type(first) {
            return Ok(number);
        }
        self.value_after(first)
    }
}
