//! What makes a module too large: each public call of `plan_excess` once, with ample memory.

use command_words::Command;
use plan_excess::{Excess, ExcessKind, locate_excess};
use refusal_place::SectionKind;
use rule_breaks::EntryPlace;
use std::test::Fail;
use wasm_types::Tunables;

/// What is too large, where data segments become images, and images of up to 8 GiB are always made.
fn excess_of(rt: &HostRuntime, bytes: &[u8]) -> Result<Option<Excess>, Fail> {
    let command = Command {
        tunables: Tunables {
            memory_init_cow: true,
            ..Command::PLAIN.tunables
        },
        max_image: 8_589_934_592,
        ..Command::PLAIN
    };
    Ok(locate_excess(rt.alloc(), &command, bytes)?)
}

/// Two memories of 65536 pages. The first has a byte at 0, and the second at 4096 and at 2^32 - 1.
const TWO_MEMORIES: [u8; 43] = [
    0x00, 0x61, 0x73, 0x6D, 0x01, 0x00, 0x00, 0x00, 0x05, 0x09, 0x02, 0x00, 0x80, 0x80, 0x04, 0x00,
    0x80, 0x80, 0x04, 0x0B, 0x16, 0x03, 0x00, 0x41, 0x00, 0x0B, 0x01, 0x01, 0x02, 0x01, 0x41, 0x80,
    0x20, 0x0B, 0x01, 0x01, 0x02, 0x01, 0x41, 0x7F, 0x0B, 0x01, 0x01,
];

/// The images have 4096 bytes and 2^32 - 4096.
#[test]
fn the_second_image_passes(rt: HostRuntime) -> Result<(), Fail> {
    let place = EntryPlace {
        section: SectionKind::Memory,
        section_entry: 1,
        byte: 15,
    };
    let expected = Excess {
        kind: ExcessKind::Image { memory: 1 },
        place: Some(place),
    };
    let found = excess_of(&rt, &TWO_MEMORIES)?;
    assert!(rt; found == Some(expected));
    let text = format!(in rt.alloc(); "{expected}")?;
    assert!(rt;
        text.as_str()
            == "memory section, entry 1: with the image of memory 1, the runtime data have more than 4294967295 bytes"
    );
    Ok(())
}

/// An exception type of one parameter, and a memory of one page.
const SMALL: [u8; 25] = [
    0x00, 0x61, 0x73, 0x6D, 0x01, 0x00, 0x00, 0x00, 0x01, 0x05, 0x01, 0x60, 0x01, 0x7F, 0x00, 0x05,
    0x03, 0x01, 0x00, 0x01, 0x0D, 0x03, 0x01, 0x00, 0x00,
];

#[test]
fn a_small_module_has_none(rt: HostRuntime) -> Result<(), Fail> {
    assert!(rt; excess_of(&rt, &SMALL)? == None);
    Ok(())
}

#[test]
fn an_excess_names_its_section(rt: HostRuntime) -> Result<(), Fail> {
    let place = EntryPlace {
        section: SectionKind::Type,
        section_entry: 2,
        byte: 40,
    };
    let object = Excess {
        kind: ExcessKind::Object { type_index: 5 },
        place: Some(place),
    };
    let text = format!(in rt.alloc(); "{object}")?;
    assert!(rt;
        text.as_str() == "type section, entry 2: an object of type 5 has more than 4294967295 bytes"
    );
    let context = Excess {
        kind: ExcessKind::Context,
        place: None,
    };
    let text = format!(in rt.alloc(); "{context}")?;
    assert!(rt; text.as_str() == "the context of an instance has more than 4294967295 bytes");
    Ok(())
}
