//! Modules of types alone.

use std::alloc::{AllocError, Global};

/// The header of a module, and the number of its type section.
const FRONT: [u8; 9] = [0x00, 0x61, 0x73, 0x6D, 0x01, 0x00, 0x00, 0x00, 0x01];

/// A number, in five bytes.
fn push_number(bytes: &mut Vec<u8>, number: u32) -> Result<(), AllocError> {
    for shift in [0u32, 7, 14, 21] {
        bytes.push(((number >> shift) % 128) as u8 + 128)?;
    }
    bytes.push((number >> 28) as u8)?;
    Ok(())
}

/// A function type of 64 parameters. The last 17 spell a number in binary, an `i64` for each one.
fn push_long_type(bytes: &mut Vec<u8>, number: u32) -> Result<(), AllocError> {
    bytes.extend_from_slice(&[0x60, 64])?;
    bytes.extend_from_slice(&[0x7F; 47])?;
    for digit in 0..17u32 {
        bytes.push(0x7F - ((number >> digit) % 2) as u8)?;
    }
    bytes.push(0)?;
    Ok(())
}

/// 100,000 function types of 64 parameters, which differ late.
pub fn long_types(alloc: Global) -> Result<Vec<u8>, AllocError> {
    let mut bytes = Vec::with_capacity(alloc, 6_700_019)?;
    bytes.extend_from_slice(&FRONT)?;
    push_number(&mut bytes, 6_700_005)?;
    push_number(&mut bytes, 100_000)?;
    for place in 0..100_000 {
        push_long_type(&mut bytes, place)?;
    }
    Ok(bytes)
}

/// A group of 200,000 function types, each of whose parameters refers to a member.
pub fn wide_group(alloc: Global) -> Result<Vec<u8>, AllocError> {
    let mut bytes = Vec::with_capacity(alloc, 1_800_021)?;
    bytes.extend_from_slice(&FRONT)?;
    push_number(&mut bytes, 1_800_007)?;
    bytes.extend_from_slice(&[1, 0x4E])?;
    push_number(&mut bytes, 200_000)?;
    for place in 0..200_000u32 {
        bytes.extend_from_slice(&[0x60, 1, 0x63])?;
        push_number(&mut bytes, 7 * place % 200_000)?;
        bytes.push(0)?;
    }
    Ok(bytes)
}
