//! Operators of constant expressions.

ghost use Rattle.std.specs.Prelude.{◌≡◌, [], ◌∷◌, pos};
ghost use Rattle.std.specs.Int.{cast_unsigned, w32, w64};
ghost use Rattle.std.specs.Option.{option_map};
ghost use Rattle.replay_spec.specs.Values as plain;
ghost use Rattle.replay_spec.specs.Values.{action};
ghost use Rattle.wasm_convert.specs.declared.operators.ConstOp.TheVariants.{I32Const};
ghost use Rattle.wasm_convert.specs.Constants.{plain_value_of};
ghost use Rattle.wasm_convert.specs.Operators.{operator_of, const_op_of, name_of_operator, operands_of, place_of_operator, plain_result, KnowsOperator};

use crate::convert::TypeConvert;
use crate::operands::Operands;
use crate::values::GlobalConstValue;
use entity_map::EntityRef;
use wasm_index::{FuncIndex, GlobalIndex, TypeIndex};
use wasm_spec::{AbstractHeapType, HeapType, Operator};
use wasm_types::WasmHeapType;

/// An operator of a constant expression (core specification, 3.4, constant expressions). Floats and
/// vectors are stored as their bits.
#[derive(Clone, Copy, Debug, PartialEq, Eq, Hash)]
pub enum ConstOp {
    I32Const(i32),
    I64Const(i64),
    F32Const(u32),
    F64Const(u64),
    V128Const(u128),
    GlobalGet(GlobalIndex),
    RefI31,
    RefNull(WasmHeapType),
    RefFunc(FuncIndex),
    I32Add,
    I32Sub,
    I32Mul,
    I64Add,
    I64Sub,
    I64Mul,
    StructNew {
        struct_type_index: TypeIndex,
    },
    StructNewDefault {
        struct_type_index: TypeIndex,
    },
    ArrayNew {
        array_type_index: TypeIndex,
    },
    ArrayNewDefault {
        array_type_index: TypeIndex,
    },
    ArrayNewFixed {
        array_type_index: TypeIndex,
        array_size: u32,
    },
    ExternConvertAny,
    AnyConvertExtern,
}

/// The constant 0, which fills the unused capacity of a short list.
impl Default for ConstOp {
    ghost is_default = { λ op. op ≡ I32Const (pos 0) };

    fn default() -> Self {
        ConstOp::I32Const(0)
    }
}

impl ConstOp {
    /// The operator that was read, with its heap type converted. Its indices must be below `u32::MAX`.
    #[inline(always)]
    pub fn from_wasmparser(env: &dyn TypeConvert, op: &Operator) -> ConstOp
        requires { KnowsOperator (knows env.now) op.now }
        ensures { result ≡ const_op_of (look_up env.now) op.now }
    {
        match *op {
            Operator::I32Const { value } => ConstOp::I32Const(value),
            Operator::I64Const { value } => ConstOp::I64Const(value),
            Operator::F32Const { bits } => ConstOp::F32Const(bits),
            Operator::F64Const { bits } => ConstOp::F64Const(bits),
            Operator::V128Const { value } => ConstOp::V128Const(value),
            Operator::GlobalGet { global_index } => {
                ConstOp::GlobalGet(GlobalIndex::from_u32(global_index))
            }
            Operator::RefI31 => ConstOp::RefI31,
            Operator::RefNull { hty } => ConstOp::RefNull(env.convert_heap_type(hty)),
            Operator::RefFunc { function_index } => {
                ConstOp::RefFunc(FuncIndex::from_u32(function_index))
            }
            Operator::I32Add => ConstOp::I32Add,
            Operator::I32Sub => ConstOp::I32Sub,
            Operator::I32Mul => ConstOp::I32Mul,
            Operator::I64Add => ConstOp::I64Add,
            Operator::I64Sub => ConstOp::I64Sub,
            Operator::I64Mul => ConstOp::I64Mul,
            Operator::StructNew { struct_type_index } => ConstOp::StructNew {
                struct_type_index: TypeIndex::from_u32(struct_type_index),
            },
            Operator::StructNewDefault { struct_type_index } => ConstOp::StructNewDefault {
                struct_type_index: TypeIndex::from_u32(struct_type_index),
            },
            Operator::ArrayNew { array_type_index } => ConstOp::ArrayNew {
                array_type_index: TypeIndex::from_u32(array_type_index),
            },
            Operator::ArrayNewDefault { array_type_index } => ConstOp::ArrayNewDefault {
                array_type_index: TypeIndex::from_u32(array_type_index),
            },
            Operator::ArrayNewFixed {
                array_type_index,
                array_size,
            } => ConstOp::ArrayNewFixed {
                array_type_index: TypeIndex::from_u32(array_type_index),
                array_size,
            },
            Operator::ExternConvertAny => ConstOp::ExternConvertAny,
            Operator::AnyConvertExtern => ConstOp::AnyConvertExtern,
        }
    }

    /// The operator as it is read. The heap type of a null reference is lost: it becomes `any`.
    pub fn to_operator(&self) -> Operator
        ensures { result ≡ operator_of self.now }
    {
        match *self {
            ConstOp::I32Const(value) => Operator::I32Const { value },
            ConstOp::I64Const(value) => Operator::I64Const { value },
            ConstOp::F32Const(bits) => Operator::F32Const { bits },
            ConstOp::F64Const(bits) => Operator::F64Const { bits },
            ConstOp::V128Const(value) => Operator::V128Const { value },
            ConstOp::GlobalGet(index) => Operator::GlobalGet {
                global_index: index.as_u32(),
            },
            ConstOp::RefI31 => Operator::RefI31,
            ConstOp::RefNull(_) => Operator::RefNull {
                hty: HeapType::Abstract(AbstractHeapType::Any),
            },
            ConstOp::RefFunc(index) => Operator::RefFunc {
                function_index: index.as_u32(),
            },
            ConstOp::I32Add => Operator::I32Add,
            ConstOp::I32Sub => Operator::I32Sub,
            ConstOp::I32Mul => Operator::I32Mul,
            ConstOp::I64Add => Operator::I64Add,
            ConstOp::I64Sub => Operator::I64Sub,
            ConstOp::I64Mul => Operator::I64Mul,
            ConstOp::StructNew { struct_type_index } => Operator::StructNew {
                struct_type_index: struct_type_index.as_u32(),
            },
            ConstOp::StructNewDefault { struct_type_index } => Operator::StructNewDefault {
                struct_type_index: struct_type_index.as_u32(),
            },
            ConstOp::ArrayNew { array_type_index } => Operator::ArrayNew {
                array_type_index: array_type_index.as_u32(),
            },
            ConstOp::ArrayNewDefault { array_type_index } => Operator::ArrayNewDefault {
                array_type_index: array_type_index.as_u32(),
            },
            ConstOp::ArrayNewFixed {
                array_type_index,
                array_size,
            } => Operator::ArrayNewFixed {
                array_type_index: array_type_index.as_u32(),
                array_size,
            },
            ConstOp::ExternConvertAny => Operator::ExternConvertAny,
            ConstOp::AnyConvertExtern => Operator::AnyConvertExtern,
        }
    }

    /// Its name in the text format (core specification, 6.5, instructions).
    #[inline(always)]
    pub fn name(&self) -> &'static str
        ensures { result.now ≡ name_of_operator self.now }
    {
        match self {
            ConstOp::I32Const(_) => "i32.const",
            ConstOp::I64Const(_) => "i64.const",
            ConstOp::F32Const(_) => "f32.const",
            ConstOp::F64Const(_) => "f64.const",
            ConstOp::V128Const(_) => "v128.const",
            ConstOp::GlobalGet(_) => "global.get",
            ConstOp::RefI31 => "ref.i31",
            ConstOp::RefNull(_) => "ref.null",
            ConstOp::RefFunc(_) => "ref.func",
            ConstOp::I32Add => "i32.add",
            ConstOp::I32Sub => "i32.sub",
            ConstOp::I32Mul => "i32.mul",
            ConstOp::I64Add => "i64.add",
            ConstOp::I64Sub => "i64.sub",
            ConstOp::I64Mul => "i64.mul",
            ConstOp::StructNew { .. } => "struct.new",
            ConstOp::StructNewDefault { .. } => "struct.new_default",
            ConstOp::ArrayNew { .. } => "array.new",
            ConstOp::ArrayNewDefault { .. } => "array.new_default",
            ConstOp::ArrayNewFixed { .. } => "array.new_fixed",
            ConstOp::ExternConvertAny => "extern.convert_any",
            ConstOp::AnyConvertExtern => "any.convert_extern",
        }
    }

    /// What follows the name.
    #[inline(always)]
    pub fn operands(&self) -> Operands
        ensures { result ≡ operands_of self.now }
    {
        match self {
            ConstOp::I32Const(value) => Operands::I32(*value),
            ConstOp::I64Const(value) => Operands::I64(*value),
            ConstOp::F32Const(bits) => Operands::Bits32(*bits),
            ConstOp::F64Const(bits) => Operands::Bits64(*bits),
            ConstOp::V128Const(bits) => Operands::Bits128(*bits),
            ConstOp::GlobalGet(index) => Operands::Index(index.as_u32()),
            ConstOp::RefNull(heap_type) => Operands::Heap(*heap_type),
            ConstOp::RefFunc(index) => Operands::Index(index.as_u32()),
            ConstOp::StructNew { struct_type_index }
            | ConstOp::StructNewDefault { struct_type_index } => {
                Operands::Index(struct_type_index.as_u32())
            }
            ConstOp::ArrayNew { array_type_index }
            | ConstOp::ArrayNewDefault { array_type_index } => {
                Operands::Index(array_type_index.as_u32())
            }
            ConstOp::ArrayNewFixed {
                array_type_index,
                array_size,
            } => Operands::IndexAndSize {
                index: array_type_index.as_u32(),
                size: *array_size,
            },
            _ => Operands::None,
        }
    }

    /// Its position in the enumeration, from 0.
    pub fn number(&self) -> u8
        ensures { result ≡ place_of_operator self.now }
    {
        match self {
            ConstOp::I32Const(_) => 0,
            ConstOp::I64Const(_) => 1,
            ConstOp::F32Const(_) => 2,
            ConstOp::F64Const(_) => 3,
            ConstOp::V128Const(_) => 4,
            ConstOp::GlobalGet(_) => 5,
            ConstOp::RefI31 => 6,
            ConstOp::RefNull(_) => 7,
            ConstOp::RefFunc(_) => 8,
            ConstOp::I32Add => 9,
            ConstOp::I32Sub => 10,
            ConstOp::I32Mul => 11,
            ConstOp::I64Add => 12,
            ConstOp::I64Sub => 13,
            ConstOp::I64Mul => 14,
            ConstOp::StructNew { .. } => 15,
            ConstOp::StructNewDefault { .. } => 16,
            ConstOp::ArrayNew { .. } => 17,
            ConstOp::ArrayNewDefault { .. } => 18,
            ConstOp::ArrayNewFixed { .. } => 19,
            ConstOp::ExternConvertAny => 20,
            ConstOp::AnyConvertExtern => 21,
        }
    }

    /// How many values it pops from the stack; for `struct.new` the fields of its type are not
    /// counted.
    pub fn takes(&self) -> usize
        ensures { result ≡ (action [] (λ t. 0) (operator_of self.now)).takes }
    {
        match self {
            ConstOp::ArrayNewFixed { array_size, .. } => *array_size as usize,
            ConstOp::I32Add
            | ConstOp::I32Sub
            | ConstOp::I32Mul
            | ConstOp::I64Add
            | ConstOp::I64Sub
            | ConstOp::I64Mul
            | ConstOp::ArrayNew { .. } => 2,
            ConstOp::RefI31
            | ConstOp::ArrayNewDefault { .. }
            | ConstOp::ExternConvertAny
            | ConstOp::AnyConvertExtern => 1,
            _ => 0,
        }
    }

    /// The value of a constant; none for another operator.
    pub fn constant(&self) -> Option<GlobalConstValue>
        ensures { option_map plain_value_of result ≡ plain_result self.now [] }
    {
        match self {
            ConstOp::I32Const(value) => Some(GlobalConstValue::I32(*value)),
            ConstOp::I64Const(value) => Some(GlobalConstValue::I64(*value)),
            ConstOp::F32Const(bits) => Some(GlobalConstValue::F32(*bits)),
            ConstOp::F64Const(bits) => Some(GlobalConstValue::F64(*bits)),
            ConstOp::V128Const(bits) => Some(GlobalConstValue::V128(*bits)),
            _ => None,
        }
    }

    /// The result of a sum, a difference or a product of two values; none for another operator or
    /// other values.
    pub fn joined(
        &self,
        first: GlobalConstValue,
        second: GlobalConstValue,
    ) -> Option<GlobalConstValue>
        ensures { option_map plain_value_of result ≡ plain_result self.now (plain_value_of first ∷ plain_value_of second ∷ []) }
    {
        match (first, second) {
            (GlobalConstValue::I32(a), GlobalConstValue::I32(b)) => self.joined_i32(a, b),
            (GlobalConstValue::I64(a), GlobalConstValue::I64(b)) => self.joined_i64(a, b),
            _ => None,
        }
    }

    fn joined_i32(&self, a: i32, b: i32) -> Option<GlobalConstValue>
        ensures { option_map plain_value_of result
            ≡ plain_result self.now (plain.I32 (cast_unsigned w32 a) ∷ plain.I32 (cast_unsigned w32 b) ∷ []) }
    {
        match self {
            ConstOp::I32Add => Some(GlobalConstValue::I32(a.wrapping_add(b))),
            ConstOp::I32Sub => Some(GlobalConstValue::I32(a.wrapping_sub(b))),
            ConstOp::I32Mul => Some(GlobalConstValue::I32(a.wrapping_mul(b))),
            _ => None,
        }
    }

    fn joined_i64(&self, a: i64, b: i64) -> Option<GlobalConstValue>
        ensures { option_map plain_value_of result
            ≡ plain_result self.now (plain.I64 (cast_unsigned w64 a) ∷ plain.I64 (cast_unsigned w64 b) ∷ []) }
    {
        match self {
            ConstOp::I64Add => Some(GlobalConstValue::I64(a.wrapping_add(b))),
            ConstOp::I64Sub => Some(GlobalConstValue::I64(a.wrapping_sub(b))),
            ConstOp::I64Mul => Some(GlobalConstValue::I64(a.wrapping_mul(b))),
            _ => None,
        }
    }
}
