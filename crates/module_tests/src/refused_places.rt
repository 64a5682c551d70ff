//! Places of refusals: each call of `refusal_place` on small inputs, with ample memory.

use refusal_place::{
    Fault, Place, SectionKind, SectionPlace, contents_place, entry_place, locate, section_places,
};
use std::test::Fail;

/// Two memories, of which the second has flags that no memory type has.
const MEMORIES: [u8; 15] = [
    0x00, 0x61, 0x73, 0x6D, 0x01, 0x00, 0x00, 0x00, 0x05, 0x05, 0x02, 0x00, 0x01, 0x10, 0x01,
];

/// A memory section of three bytes, of which one is there.
const CUT: [u8; 11] = [
    0x00, 0x61, 0x73, 0x6D, 0x01, 0x00, 0x00, 0x00, 0x05, 0x03, 0x01,
];

#[test]
fn places_are_found(rt: HostRuntime) -> Result<(), Fail> {
    let alloc = rt.alloc();
    assert!(rt; locate(alloc, &MEMORIES[..8])?.is_none());
    let memory = Place {
        section: Some(SectionKind::Memory),
        section_start: 8,
        entry: Some(1),
        byte: 13,
        fault: Fault::Entry,
        decided: Some(15),
    };
    assert!(rt; locate(alloc, &MEMORIES)? == Some(memory));
    let cut = Place {
        section: Some(SectionKind::Memory),
        section_start: 8,
        entry: None,
        byte: 11,
        fault: Fault::SectionEnd(13),
        decided: None,
    };
    assert!(rt; locate(alloc, &CUT)? == Some(cut));
    Ok(())
}

#[test]
fn entries_are_found(rt: HostRuntime) -> Result<(), Fail> {
    let alloc = rt.alloc();
    assert!(rt; entry_place(alloc, &MEMORIES, SectionKind::Memory, 1)? == Some(13));
    assert!(rt; entry_place(alloc, &MEMORIES, SectionKind::Memory, 2)?.is_none());
    Ok(())
}

#[test]
fn contents_are_found(rt: HostRuntime) -> Result<(), Fail> {
    let alloc = rt.alloc();
    assert!(rt; contents_place(alloc, &MEMORIES, SectionKind::Memory)? == Some(10));
    assert!(rt; contents_place(alloc, &MEMORIES, SectionKind::Start)?.is_none());
    assert!(rt; contents_place(alloc, &CUT, SectionKind::Memory)?.is_none());
    Ok(())
}

/// A custom section with the name "a" and a byte after it, and the memory section of one memory.
const SECTIONS: [u8; 18] = [
    0x00, 0x61, 0x73, 0x6D, 0x01, 0x00, 0x00, 0x00, 0x00, 0x03, 0x01, 0x61, 0x05, 0x05, 0x03, 0x01,
    0x00, 0x01,
];

#[test]
fn sections_are_listed(rt: HostRuntime) -> Result<(), Fail> {
    let places = section_places(rt.alloc(), &SECTIONS)?;
    let custom = SectionPlace {
        id: 0,
        start: 8,
        contents: 10,
        size: 3,
        name: Some("a"),
    };
    let memory = SectionPlace {
        id: 5,
        start: 13,
        contents: 15,
        size: 3,
        name: None,
    };
    assert!(rt; places[..] == [custom, memory]);
    Ok(())
}

#[test]
fn cut_sections_are_not_listed(rt: HostRuntime) -> Result<(), Fail> {
    let alloc = rt.alloc();
    assert!(rt; section_places(alloc, &SECTIONS[..17])?.len() == 1);
    assert!(rt; section_places(alloc, &SECTIONS[..7])?.is_empty());
    Ok(())
}
