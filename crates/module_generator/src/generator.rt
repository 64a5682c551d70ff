//! A module of a number.

ghost use Rattle.std.specs.Prelude.{◌≡◌, ◌≤◌, IfOk};
ghost use Rattle.module_generator.specs.Generated.{generated_module};

use crate::bytes::push_section;
use crate::sections::{data_section, element_section, table_section, type_section};
use entity_map::OutOfMemory;
use std::alloc::Global;

/// The module of `n` types, `n` functions in its table and `n` segments of data.
///
/// # Errors
/// `OutOfMemory` where the bytes find no memory.
#[tactic(auto, unfolding(crate::specs::Generated::generated_module))]
pub fn generate(alloc: Global, n: u32) -> Result<Vec<u8>, OutOfMemory>
    requires { (1 ≤ n) × (n ≤ 100000) }
    ensures { IfOk result (λ bytes. bytes.items ≡ generated_module n) }
{
    let mut bytes = Vec::new(alloc);
    bytes.extend_from_slice(b"\0asm\x01\0\0\0")?;
    push_section(&mut bytes, 1, &type_section(alloc, n)?)?;
    push_section(&mut bytes, 3, &[1, 0])?;
    push_section(&mut bytes, 4, &table_section(alloc, n)?)?;
    push_section(&mut bytes, 5, &[1, 0, 0x20])?;
    push_section(&mut bytes, 9, &element_section(alloc, n)?)?;
    push_section(&mut bytes, 10, &[1, 2, 0, 0x0B])?;
    push_section(&mut bytes, 11, &data_section(alloc, n)?)?;
    Ok(bytes)
}
