//! Values of constant expressions.

ghost use Rattle.std.specs.Prelude.{◌≡◌, pos};
ghost use Rattle.wasm_convert.specs.declared.values.GlobalConstValue.TheVariants.{I32};

/// The value of a global that is known before any code runs. Floats and vectors are stored as their
/// bits.
#[derive(Clone, Copy, Debug)]
pub enum GlobalConstValue {
    I32(i32),
    I64(i64),
    F32(u32),
    F64(u64),
    V128(u128),
}

/// The constant 0, which fills the unused capacity of a stack.
impl Default for GlobalConstValue {
    ghost is_default = { λ value. value ≡ I32 (pos 0) };

    fn default() -> Self {
        GlobalConstValue::I32(0)
    }
}
