//! The ids and groups of declared types.

use crate::bytes::{long_types, wide_group};
use std::alloc::Global;
use std::test::Fail;
use wasm_form::{Types, Validator, check, read_module};

/// The id of each declared type, with the number of its group.
fn numbers_of(alloc: Global, bytes: &[u8]) -> Result<Vec<(u32, u32)>, Fail> {
    let form = read_module(alloc, bytes)?;
    check(alloc, &form)?;
    let types = Types::build(alloc, &Validator::new(7), &form)?;
    let mut numbers = Vec::new(alloc);
    for index in 0..types.core_type_count_in_module() {
        let id = types.core_type_at_in_module(index);
        numbers.push((id.0, types.rec_group_id_of(id).0))?;
    }
    Ok(numbers)
}

#[test]
fn types_that_differ_late_have_an_id_each(rt: HostRuntime) -> Result<(), Fail> {
    let bytes = long_types(rt.alloc())?;
    let numbers = numbers_of(rt.alloc(), &bytes)?;
    assert_eq!(rt; numbers.len(), 100_000);
    for place in 0..100_000u32 {
        assert_eq!(rt; numbers.get(place as usize), Some(&(place, place)));
    }
    Ok(())
}

#[test]
fn members_of_a_wide_group_have_an_id_each(rt: HostRuntime) -> Result<(), Fail> {
    let bytes = wide_group(rt.alloc())?;
    let numbers = numbers_of(rt.alloc(), &bytes)?;
    assert_eq!(rt; numbers.len(), 200_000);
    for place in 0..200_000u32 {
        assert_eq!(rt; numbers.get(place as usize), Some(&(place, 0)));
    }
    Ok(())
}
