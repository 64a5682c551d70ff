//! The names of a module.

use name_maps::{GLOBALS, LOCALS, MODULE, NameEntry, name_maps};
use std::test::Fail;

/// A module with the name "m", the name "x" of local 0 of function 3, and the names of two globals,
/// of which the second is cut.
const NAMED: [u8; 35] = [
    0x00, 0x61, 0x73, 0x6D, 0x01, 0x00, 0x00, 0x00, 0x00, 0x19, 0x04, 0x6E, 0x61, 0x6D, 0x65, 0x00,
    0x02, 0x01, 0x6D, 0x02, 0x06, 0x01, 0x03, 0x01, 0x00, 0x01, 0x78, 0x07, 0x06, 0x02, 0x00, 0x01,
    0x61, 0x01, 0x05,
];

#[test]
fn names_are_listed(rt: HostRuntime) -> Result<(), Fail> {
    let entries = name_maps(rt.alloc(), &NAMED)?;
    let module = NameEntry {
        subsection: MODULE,
        index: 0,
        inner: None,
        name: "m",
    };
    let local = NameEntry {
        subsection: LOCALS,
        index: 3,
        inner: Some(0),
        name: "x",
    };
    let global = NameEntry {
        subsection: GLOBALS,
        index: 0,
        inner: None,
        name: "a",
    };
    assert!(rt; entries[..] == [module, local, global]);
    Ok(())
}
