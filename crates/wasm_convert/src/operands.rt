//! The operands of the operators of a constant expression.

use wasm_types::WasmHeapType;

/// The operands of an operator of a constant expression, by their kind.
#[derive(Clone, Copy, Debug)]
pub enum Operands {
    /// No operands.
    None,
    /// An integer of 32 bits.
    I32(i32),
    /// An integer of 64 bits.
    I64(i64),
    /// The bits of a float of 32 bits.
    Bits32(u32),
    /// The bits of a float of 64 bits.
    Bits64(u64),
    /// The bits of a vector.
    Bits128(u128),
    /// The index of a global, a function or a type.
    Index(u32),
    /// A heap type.
    Heap(WasmHeapType),
    /// The index of a type, and the number of elements.
    IndexAndSize { index: u32, size: u32 },
}
