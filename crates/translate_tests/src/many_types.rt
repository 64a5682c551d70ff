//! A plan of a hundred thousand types.

use entity_map::EntityRef;
use std::alloc::{AllocError, Global};
use std::test::Fail;
use translate::{Command, plan_of, summary_text};

const COUNT: u32 = 100_000;

/// The header, the head of the section of the types, and their number.
const HEAD: [u8; 16] = [
    0x00, 0x61, 0x73, 0x6D, 0x01, 0x00, 0x00, 0x00, 0x01, 0xE3, 0xF7, 0x98, 0x03, 0xA0, 0x8D, 0x06,
];

/// A function type of 64 parameters, the last 17 of which give its number: an i64 for each binary
/// digit 1, the lowest first, an i32 for 0.
fn push_type(bytes: &mut Vec<u8>, number: u32) -> Result<(), AllocError> {
    bytes.extend_from_slice(&[0x60, 0x40])?;
    for _ in 0..47 {
        bytes.push(0x7F)?;
    }
    let mut rest = number;
    for _ in 0..17 {
        bytes.push(if rest % 2 == 1 { 0x7E } else { 0x7F })?;
        rest /= 2;
    }
    bytes.push(0x00)?;
    Ok(())
}

/// The module of `COUNT` types, no two of which are equal.
fn many_types(alloc: Global) -> Result<Vec<u8>, AllocError> {
    let mut bytes = Vec::with_capacity(alloc, 6_700_016)?;
    bytes.extend_from_slice(&HEAD)?;
    for number in 0..COUNT {
        push_type(&mut bytes, number)?;
    }
    Ok(bytes)
}

/// The numbers of the plan that the test looks at.
#[derive(Debug, PartialEq, Eq, Clone, Copy)]
struct PlanNumbers {
    bytes: usize,
    types: usize,
    /// The interned type of the last type, and the trampoline of that.
    last: Option<u32>,
    trampoline: Option<u32>,
}

/// The numbers of the plan, and its summary.
fn look_at_plan(alloc: Global) -> Result<(PlanNumbers, Vec<u8>), Fail> {
    let bytes = many_types(alloc)?;
    let plan = plan_of(alloc, &Command::PLAIN, &bytes)?;
    let mut last = None;
    for (place, index) in plan.translation.module.types.values().enumerate() {
        if place == 99_999 {
            last = index.as_module_type_index().map(|index| index.as_u32());
        }
    }
    let mut trampoline = None;
    for (function, called) in plan.types.trampoline_types() {
        if function.as_u32() == 99_999 {
            trampoline = Some(called.as_u32());
        }
    }
    let types = plan.types.len_types();
    let summary = summary_text(alloc, COUNT, bytes.len() as u64, &plan);
    drop(plan);
    let numbers = PlanNumbers {
        bytes: bytes.len(),
        types,
        last,
        trampoline,
    };
    Ok((numbers, summary?))
}

#[test]
fn types_are_found_without_a_walk_through_all(rt: HostRuntime) -> Result<(), Fail> {
    let want = PlanNumbers {
        bytes: 6_700_016,
        types: 100_000,
        last: Some(99_999),
        trampoline: Some(99_999),
    };
    let (numbers, summary) = look_at_plan(rt.alloc())?;
    assert_eq!(rt; numbers, want);
    assert_eq!(rt;
        summary.as_slice(),
        b"generated 100000\nbytes 6700016\ntypes 100000\nruntime 0\nstartup none\ncontext 48\n".as_slice()
    );
    Ok(())
}
