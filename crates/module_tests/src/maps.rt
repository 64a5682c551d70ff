//! Calls of the maps that the planner does not make, at index types.

use entity_map::{EntityRef, EntitySet, PackedOption, PrimaryMap, ReservedValue};
use std::test::Fail;
use wasm_index::{FuncIndex, MemoryIndex, TypeIndex};

#[test]
fn list_keeps_what_is_written(rt: HostRuntime) -> Result<(), Fail> {
    let mut sizes: PrimaryMap<MemoryIndex, u32> = PrimaryMap::new(rt.alloc());
    let first = sizes.push(7)?;
    sizes.push(8)?;
    if let Some(size) = sizes.get_mut(first) {
        *size = 9;
    }
    for size in sizes.values_mut() {
        *size = size.saturating_mul(2);
    }
    for size in sizes.as_mut_slice().iter_mut() {
        *size = size.saturating_add(1);
    }
    assert!(rt; sizes.get(first).copied() == Some(19));
    assert!(rt; sizes.values().copied().last() == Some(17));
    Ok(())
}

#[test]
fn set_takes_an_index_once(rt: HostRuntime) -> Result<(), Fail> {
    let mut seen: EntitySet<FuncIndex> = EntitySet::new(rt.alloc());
    assert!(rt; seen.insert(FuncIndex::new(3))?);
    assert!(rt; !seen.insert(FuncIndex::new(3))?);
    assert!(rt; seen.contains(FuncIndex::new(3)));
    assert!(rt; !seen.contains(FuncIndex::new(2)));
    Ok(())
}

#[test]
fn reserved_index_is_no_index(rt: HostRuntime) {
    let some: PackedOption<TypeIndex> = TypeIndex::new(4).into();
    let none: PackedOption<TypeIndex> = None.into();
    assert!(rt; some.is_some());
    assert!(rt; some.expand() == Some(TypeIndex::new(4)));
    assert!(rt; none.is_none());
    assert!(rt; none.expand() == None);
    assert!(rt; TypeIndex::reserved_value().is_reserved_value());
    assert!(rt; TypeIndex::reserved_value().as_u32() == u32::MAX);
}
