//! Operators of constant expressions as numbers.

ghost use Rattle.std.specs.Prelude.{◌≡◌, ◌++◌, map, OnOk};
ghost use Rattle.plan_tables.specs.Operators.{index_operand, low_operand, high_operand, heap_operand, list_operand, operator_row};

use crate::rows::OperatorRow;
use crate::values::{heap_index, heap_number, index_list, index_number};
use entity_map::OutOfMemory;
use wasm_convert::{ConstOp, Operands};

/// One above the greatest number of 64 bits.
const HALF: u128 = 18446744073709551616;

fn index_operand(operands: &Operands) -> u32
    ensures { result ≡ index_operand operands.now }
{
    match operands {
        Operands::Index(index) | Operands::IndexAndSize { index, .. } => *index,
        Operands::Heap(ty) => index_number(&heap_index(ty)),
        _ => 0,
    }
}

fn low_operand(operands: &Operands) -> u64
    ensures { result ≡ low_operand operands.now }
{
    match operands {
        Operands::I32(number) => u64::from(number.cast_unsigned()),
        Operands::I64(number) => number.cast_unsigned(),
        Operands::Bits32(bits) => u64::from(*bits),
        Operands::Bits64(bits) => *bits,
        Operands::Bits128(bits) => (*bits % HALF) as u64,
        Operands::IndexAndSize { size, .. } => u64::from(*size),
        _ => 0,
    }
}

fn high_operand(operands: &Operands) -> u64
    ensures { result ≡ high_operand operands.now }
{
    match operands {
        Operands::Bits128(bits) => (*bits / HALF) as u64,
        _ => 0,
    }
}

fn heap_operand(operands: &Operands) -> u8
    ensures { result ≡ heap_operand operands.now }
{
    match operands {
        Operands::Heap(ty) => heap_number(ty),
        _ => 0,
    }
}

fn list_operand(operands: &Operands) -> u8
    ensures { result ≡ list_operand operands.now }
{
    match operands {
        Operands::Heap(ty) => index_list(&heap_index(ty)),
        _ => 0,
    }
}

/// An operator.
pub fn operator_row(operator: &ConstOp) -> OperatorRow
    ensures { result ≡ operator_row operator.now }
{
    let operands = operator.operands();
    OperatorRow {
        code: operator.number(),
        heap: heap_operand(&operands),
        list: list_operand(&operands),
        index: index_operand(&operands),
        low: low_operand(&operands),
        high: high_operand(&operands),
    }
}

/// Appends operators.
pub(crate) fn push_operators(
    rows: &mut Vec<OperatorRow>,
    operators: &[ConstOp],
) -> Result<(), OutOfMemory>
    ensures { OnOk result (rows.new.items ≡ rows.old.items ++ map operator_row operators.now) }
{
    for operator in operators {
        rows.push(operator_row(operator))?;
    }
    Ok(())
}
