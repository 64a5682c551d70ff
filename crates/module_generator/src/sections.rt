//! The contents of the sections whose size grows with the module.

ghost use Rattle.std.specs.Prelude.{◌≡◌, ◌<◌, ◌≤◌, ◌++◌, ◌∷◌, [], IfOk, OnOk};
ghost use Rattle.module_generator.specs.Spelling.{vector};
ghost use Rattle.module_generator.specs.Generated.{parameter, function_type, segment, table_contents, element_contents};

use crate::bytes::{push_signed, push_unsigned};
use entity_map::OutOfMemory;
use std::alloc::Global;

#[tactic(auto, using(crate::proofs::Places::one_more), unfolding(crate::specs::Spelling::vector))]
pub(crate) fn type_section(alloc: Global, n: u32) -> Result<Vec<u8>, OutOfMemory>
    ensures { IfOk result (λ contents. contents.items ≡ vector n function_type) }
{
    let mut contents = Vec::new(alloc);
    push_unsigned(&mut contents, u64::from(n))?;
    for k in 0..n {
        push_type(&mut contents, k)?;
    }
    Ok(contents)
}

/// Appends a function type of sixteen parameters and no results.
#[tactic(auto, using(crate::proofs::Places::one_number_more), unfolding(crate::specs::Generated::function_type))]
fn push_type(bytes: &mut Vec<u8>, k: u32) -> Result<(), OutOfMemory>
    ensures { OnOk result (bytes.new.items ≡ bytes.old.items ++ function_type k) }
{
    bytes.extend_from_slice(&[0x60, 16])?;
    for j in 0..16 {
        bytes.push(parameter_type(k, j))?;
    }
    bytes.push(0)?;
    Ok(())
}

/// The type of a parameter: `i64` where binary digit `j` of half of `k` is 1, otherwise `i32`.
#[tactic(auto, unfolding(crate::specs::Generated::parameter))]
fn parameter_type(k: u32, j: u32) -> u8
    requires { j < 16 }
    ensures { result ≡ parameter k j }
{
    if (k / 2 >> j) % 2 == 1 { 0x7E } else { 0x7F }
}

/// The contents of the table section: a table of `n` functions.
#[tactic(auto, unfolding(crate::specs::Generated::table_contents))]
pub(crate) fn table_section(alloc: Global, n: u32) -> Result<Vec<u8>, OutOfMemory>
    ensures { IfOk result (λ contents. contents.items ≡ table_contents n) }
{
    let mut contents = Vec::new(alloc);
    contents.extend_from_slice(&[1, 0x70, 0])?;
    push_unsigned(&mut contents, u64::from(n))?;
    Ok(contents)
}

/// The contents of the element section: the one function, `n` times.
#[tactic(auto, using(crate::proofs::Places::one_more), unfolding(crate::specs::Generated::element_contents, crate::specs::Spelling::vector))]
pub(crate) fn element_section(alloc: Global, n: u32) -> Result<Vec<u8>, OutOfMemory>
    ensures { IfOk result (λ contents. contents.items ≡ element_contents n) }
{
    let mut contents = Vec::new(alloc);
    contents.extend_from_slice(&[1, 0, 0x41, 0, 0x0B])?;
    push_unsigned(&mut contents, u64::from(n))?;
    for _ in 0..n {
        contents.push(0)?;
    }
    Ok(contents)
}

#[tactic(auto, using(crate::proofs::Places::one_more), unfolding(crate::specs::Spelling::vector))]
pub(crate) fn data_section(alloc: Global, n: u32) -> Result<Vec<u8>, OutOfMemory>
    requires { n ≤ 100000 }
    ensures { IfOk result (λ contents. contents.items ≡ vector n segment) }
{
    let mut contents = Vec::new(alloc);
    push_unsigned(&mut contents, u64::from(n))?;
    for k in 0..n {
        push_segment(&mut contents, k)?;
    }
    Ok(contents)
}

/// Appends a segment of twelve bytes, twenty bytes after the one before it.
#[tactic(auto, unfolding(crate::specs::Generated::segment))]
fn push_segment(bytes: &mut Vec<u8>, k: u32) -> Result<(), OutOfMemory>
    requires { k < 100000 }
    ensures { OnOk result (bytes.new.items ≡ bytes.old.items ++ segment k) }
{
    bytes.extend_from_slice(&[0, 0x41])?;
    push_signed(bytes, u64::from(20 * k))?;
    bytes.extend_from_slice(&[0x0B, 12])?;
    bytes.extend_from_slice(&[(k % 255) as u8 + 1; 12])?;
    Ok(())
}
