//! Conversion of types and constant expressions from those that were read, for the translation.
//!
//! A conversion replaces type indices by a look-up and changes nothing else. `const_eval` returns
//! the exact value of an expression of constants and wrapping arithmetic, at most 16 values deep.
//!
//! ```
//! let sum = [ConstOp::I32Const(10), ConstOp::I32Const(6), ConstOp::I32Add];
//! let offset = ConstExpr::new(alloc, &sum)?;
//! let value = offset.const_eval(); // Some(GlobalConstValue::I32(16))
//! let heap = converter.convert_heap_type(ty);
//! ```
//!
//! An expression of one or two operators needs no allocation. Only longer expressions, and types
//! with lists, can return `OutOfMemory`.
//!
//! Read on: `convert` has the trait, `constants` and `operators` the expressions; `module_types`
//! has the look-up.
#![tactic(auto)]

mod constants;
mod convert;
mod evaluation;
mod laws;
mod operands;
mod operators;
mod values;
mod worked;

pub use constants::ConstExpr;
pub use convert::TypeConvert;
pub use laws::back_conversion_law;
pub use operands::Operands;
pub use operators::ConstOp;
pub use values::GlobalConstValue;
pub use worked::{worked_constants, worked_conversions};
