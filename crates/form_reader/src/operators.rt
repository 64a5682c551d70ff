//! Operators of constant expressions (core specification, 5.4, instructions).

ghost use Rattle.form_reader.specs.Reading.{Reads};
ghost use Rattle.form_reader.specs.ExpressionRows.{operator_after, constant_after, arithmetic_after, object_operator, vector_operator};

use crate::cursor::Cursor;
use crate::error::ReadError;
use wasm_spec::{Operator, What};

/// The byte after the last operator.
pub const END: u8 = 0x0B;

/// The first byte of an `i32.const`.
pub const I32_CONST: u8 = 0x41;

impl<'d> Cursor<'d> {
    /// The operator, after its first byte.
    #[tactic(auto, unfolding(crate::specs::ExpressionRows::operator_after, crate::specs::ExpressionRows::indexed))]
    pub fn operator(&mut self, first: u8) -> Result<Operator, ReadError>
        ensures { Reads (operator_after first).read (λ x. x) self.old.rest.now self.new.rest.now result }
    {
        match first {
            END => Err(ReadError::Malformed),
            0x23 => Ok(Operator::GlobalGet {
                global_index: self.u32()?,
            }),
            0xD0 => Ok(Operator::RefNull {
                hty: self.heap_type()?,
            }),
            0xD2 => Ok(Operator::RefFunc {
                function_index: self.u32()?,
            }),
            0xFB => {
                let number = self.u32()?;
                self.object_operator(number)
            }
            _ => self.constant(first),
        }
    }

    /// A constant, or arithmetic, after its first byte. The bits of a float are in little-endian
    /// order.
    #[tactic(auto, unfolding(crate::specs::ExpressionRows::constant_after))]
    fn constant(&mut self, first: u8) -> Result<Operator, ReadError>
        ensures { Reads (constant_after first).read (λ x. x) self.old.rest.now self.new.rest.now result }
    {
        match first {
            I32_CONST => Ok(Operator::I32Const { value: self.s32()? }),
            0x42 => Ok(Operator::I64Const { value: self.s64()? }),
            0x43 => {
                let bits = u32::from_le_bytes(self.byte_array()?);
                Ok(Operator::F32Const { bits })
            }
            0x44 => {
                let bits = u64::from_le_bytes(self.byte_array()?);
                Ok(Operator::F64Const { bits })
            }
            0xFD => {
                let number = self.u32()?;
                self.vector_operator(number)
            }
            _ => self.arithmetic(first),
        }
    }

    /// An operator on objects, after its number.
    #[tactic(auto, unfolding(crate::specs::ExpressionRows::object_operator, crate::specs::ExpressionRows::indexed))]
    fn object_operator(&mut self, number: u32) -> Result<Operator, ReadError>
        ensures { Reads (object_operator number).read (λ x. x) self.old.rest.now self.new.rest.now result }
    {
        match number {
            0 => Ok(Operator::StructNew {
                struct_type_index: self.u32()?,
            }),
            1 => Ok(Operator::StructNewDefault {
                struct_type_index: self.u32()?,
            }),
            6 => Ok(Operator::ArrayNew {
                array_type_index: self.u32()?,
            }),
            7 => Ok(Operator::ArrayNewDefault {
                array_type_index: self.u32()?,
            }),
            8 => Ok(Operator::ArrayNewFixed {
                array_type_index: self.u32()?,
                array_size: self.u32()?,
            }),
            26 => Ok(Operator::AnyConvertExtern),
            27 => Ok(Operator::ExternConvertAny),
            28 => Ok(Operator::RefI31),
            _ => Err(ReadError::Unsupported(What::Operator)),
        }
    }

    /// A vector, after its number.
    #[tactic(auto, unfolding(crate::specs::ExpressionRows::vector_operator))]
    fn vector_operator(&mut self, number: u32) -> Result<Operator, ReadError>
        ensures { Reads (vector_operator number).read (λ x. x) self.old.rest.now self.new.rest.now result }
    {
        if number != 12 {
            return Err(ReadError::Unsupported(What::Operator));
        }
        let value = u128::from_le_bytes(self.byte_array()?);
        Ok(Operator::V128Const { value })
    }

    /// An arithmetic operator, which is one byte.
    #[tactic(auto, unfolding(crate::specs::ExpressionRows::arithmetic_after))]
    fn arithmetic(&mut self, first: u8) -> Result<Operator, ReadError>
        ensures { Reads (arithmetic_after first).read (λ x. x) self.old.rest.now self.new.rest.now result }
    {
        match first {
            0x6A => Ok(Operator::I32Add),
            0x6B => Ok(Operator::I32Sub),
            0x6C => Ok(Operator::I32Mul),
            0x7C => Ok(Operator::I64Add),
            0x7D => Ok(Operator::I64Sub),
            0x7E => Ok(Operator::I64Mul),
            _ => Err(ReadError::Unsupported(What::Operator)),
        }
    }
}
