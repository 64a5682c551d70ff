//! What runs of small modules give.

ghost use Rattle.std.specs.Prelude.{◌<◌};

use crate::laying::picture;
use crate::row::{ModuleRow, NOTHING, Picture, ROW};
use entity_map::EntityRef;
use plan_run::{Value, Way};
use std::alloc::Global;
use std::process::Abort;
use std::test::Fail;
use wasm_index::FuncIndex;

/// Runs a row, and expects what is seen of it.
fn expect(rt: &impl Abort, alloc: Global, row: ModuleRow, want: Picture) -> Result<(), Fail> {
    let seen = picture(alloc, &row)?;
    assert_eq!(rt; seen, Some(want));
    Ok(())
}

/// One memory of one page, with the bytes 1, 2, 3 at 16 and then 9 at 17.
const OVERLAP: ModuleRow = ModuleRow {
    sections: &[
        0x05, 0x03, 0x01, 0x00, 0x01, 0x0B, 0x0F, 0x02, 0x00, 0x41, 0x10, 0x0B, 0x03, 0x01, 0x02,
        0x03, 0x00, 0x41, 0x11, 0x0B, 0x01, 0x09,
    ],
    images: true,
    places: [(0, 16), (0, 17), (0, 18), (0, 15), (0, 65535), (0, 65536)],
    ..ROW
};

const OVERLAID: Picture = Picture {
    bytes: [Some(1), Some(9), Some(3), Some(0), Some(0), None],
    shared: [Some(1), None],
    planned: Some(9),
    ..NOTHING
};

#[test]
fn an_image_is_lent_or_copied(rt: HostRuntime) -> Result<(), Fail> {
    let alloc = rt.alloc();
    expect(&rt, alloc, OVERLAP, OVERLAID)?;
    let row = ModuleRow {
        written: Some((17, 4)),
        ..OVERLAP
    };
    let want = Picture {
        bytes: [Some(1), Some(4), Some(3), Some(0), Some(0), None],
        shared: [Some(0), None],
        ..OVERLAID
    };
    expect(&rt, alloc, row, want)?;
    let row = ModuleRow {
        way: Way::Copy,
        ..OVERLAP
    };
    let want = Picture {
        shared: [Some(0), None],
        ..OVERLAID
    };
    expect(&rt, alloc, row, want)
}

/// Two memories, of which the first is imported: 10, 11, 12, 13 are written to it from 14 on,
/// across the second of its borrowed pages and one that is zero. 5, 6 are written to the other from
/// 16 on.
const TWO_MEMORIES: ModuleRow = ModuleRow {
    sections: &[
        0x02, 0x08, 0x01, 0x01, 0x6D, 0x01, 0x61, 0x02, 0x00, 0x00, 0x05, 0x03, 0x01, 0x00, 0x01,
        0x0B, 0x12, 0x02, 0x00, 0x41, 0x0E, 0x0B, 0x04, 0x0A, 0x0B, 0x0C, 0x0D, 0x02, 0x01, 0x41,
        0x10, 0x0B, 0x02, 0x05, 0x06,
    ],
    images: true,
    memory: true,
    places: [(0, 13), (0, 14), (0, 17), (0, 18), (1, 16), (1, 17)],
    ..ROW
};

/// One memory, and three segments that are kept: 1, 2, 3 at 16; 9, 9 at 65535, which does not fit;
/// 4 at 20.
const TRAP: ModuleRow = ModuleRow {
    sections: &[
        0x05, 0x03, 0x01, 0x00, 0x01, 0x0B, 0x18, 0x03, 0x00, 0x41, 0x10, 0x0B, 0x03, 0x01, 0x02,
        0x03, 0x00, 0x41, 0xFF, 0xFF, 0x03, 0x0B, 0x02, 0x09, 0x09, 0x00, 0x41, 0x14, 0x0B, 0x01,
        0x04,
    ],
    places: [(0, 16), (0, 17), (0, 18), (0, 20), (0, 65535), (1, 0)],
    ..ROW
};

/// The segments of `OVERLAP`, and an empty one at an offset of -1, which is 4294967295 and does not
/// fit.
const LAST_TRAP: ModuleRow = ModuleRow {
    sections: &[
        0x05, 0x03, 0x01, 0x00, 0x01, 0x0B, 0x14, 0x03, 0x00, 0x41, 0x10, 0x0B, 0x03, 0x01, 0x02,
        0x03, 0x00, 0x41, 0x11, 0x0B, 0x01, 0x09, 0x00, 0x41, 0x7F, 0x0B, 0x00,
    ],
    ..OVERLAP
};

#[test]
fn segments_are_written_up_to_the_trap(rt: HostRuntime) -> Result<(), Fail> {
    let alloc = rt.alloc();
    let want = Picture {
        bytes: [Some(7), Some(10), Some(13), Some(0), Some(5), Some(6)],
        shared: [Some(1), Some(0)],
        ..NOTHING
    };
    expect(&rt, alloc, TWO_MEMORIES, want)?;
    let want = Picture {
        bytes: [Some(1), Some(2), Some(3), Some(0), Some(0), None],
        shared: [Some(0), None],
        memory_trap: Some(2),
        ..NOTHING
    };
    expect(&rt, alloc, TRAP, want)?;
    let row = ModuleRow {
        way: Way::Copy,
        ..LAST_TRAP
    };
    let want = Picture {
        shared: [Some(0), None],
        memory_trap: Some(1),
        planned: None,
        ..OVERLAID
    };
    expect(&rt, alloc, row, want)
}

fn function(number: u32) -> Option<Value>
    requires { number < u32.MAX }
{
    Some(Value::Func(FuncIndex::from_u32(number)))
}

fn null() -> Option<Value> {
    Some(Value::Null)
}

fn number(number: u32) -> Option<Value> {
    Some(Value::I32(number))
}

/// A table of four cells, and three segments: functions 5, 6 at 1; 7, 8 at 3, which do not fit; 4
/// at 0.
const TABLE: ModuleRow = ModuleRow {
    sections: &[
        0x01, 0x04, 0x01, 0x60, 0x00, 0x00, 0x03, 0x0A, 0x09, 0x00, 0x00, 0x00, 0x00, 0x00, 0x00,
        0x00, 0x00, 0x00, 0x04, 0x04, 0x01, 0x70, 0x00, 0x04, 0x09, 0x15, 0x03, 0x00, 0x41, 0x01,
        0x0B, 0x02, 0x05, 0x06, 0x00, 0x41, 0x03, 0x0B, 0x02, 0x07, 0x08, 0x00, 0x41, 0x00, 0x0B,
        0x01, 0x04, 0x0A, 0x1C, 0x09, 0x02, 0x00, 0x0B, 0x02, 0x00, 0x0B, 0x02, 0x00, 0x0B, 0x02,
        0x00, 0x0B, 0x02, 0x00, 0x0B, 0x02, 0x00, 0x0B, 0x02, 0x00, 0x0B, 0x02, 0x00, 0x0B, 0x02,
        0x00, 0x0B,
    ],
    lazy: true,
    cell_places: [(0, 0), (0, 1), (0, 2), (0, 3), (0, 4), (1, 0)],
    ..ROW
};

/// A table of two cells with an initialiser, which is null, and one of four cells, whose image is
/// null and the functions 0, 1. Function 1 is written to the first; what is to be written to the
/// other does not fit.
const TWO_TABLES: ModuleRow = ModuleRow {
    sections: &[
        0x01, 0x04, 0x01, 0x60, 0x00, 0x00, 0x03, 0x03, 0x02, 0x00, 0x00, 0x04, 0x0C, 0x02, 0x40,
        0x00, 0x70, 0x00, 0x02, 0xD0, 0x70, 0x0B, 0x70, 0x00, 0x04, 0x09, 0x19, 0x03, 0x02, 0x01,
        0x41, 0x01, 0x0B, 0x00, 0x02, 0x00, 0x01, 0x00, 0x41, 0x00, 0x0B, 0x01, 0x01, 0x02, 0x01,
        0x41, 0x03, 0x0B, 0x00, 0x02, 0x01, 0x01, 0x0A, 0x07, 0x02, 0x02, 0x00, 0x0B, 0x02, 0x00,
        0x0B,
    ],
    lazy: true,
    cell_places: [(0, 0), (0, 1), (1, 0), (1, 1), (1, 2), (1, 3)],
    ..ROW
};

/// An imported table of three cells, to which function 0 is written at 1.
const IMPORTED_TABLE: ModuleRow = ModuleRow {
    sections: &[
        0x01, 0x04, 0x01, 0x60, 0x00, 0x00, 0x02, 0x09, 0x01, 0x01, 0x6D, 0x01, 0x74, 0x01, 0x70,
        0x00, 0x03, 0x03, 0x02, 0x01, 0x00, 0x09, 0x07, 0x01, 0x00, 0x41, 0x01, 0x0B, 0x01, 0x00,
        0x0A, 0x04, 0x01, 0x02, 0x00, 0x0B,
    ],
    lazy: true,
    cells: 3,
    cell_places: [(0, 0), (0, 1), (0, 2), (0, 3), (1, 0), (1, 0)],
    ..ROW
};

#[test]
fn tables_hold_images_and_what_is_written(rt: HostRuntime) -> Result<(), Fail> {
    let alloc = rt.alloc();
    let want = Picture {
        cells: [null(), function(5), function(6), null(), None, None],
        table_trap: Some(2),
        ..NOTHING
    };
    expect(&rt, alloc, TABLE, want)?;
    let want = Picture {
        cells: [
            function(1),
            null(),
            null(),
            function(0),
            function(1),
            null(),
        ],
        table_trap: Some(1),
        ..NOTHING
    };
    expect(&rt, alloc, TWO_TABLES, want)?;
    let host = |number| Some(Value::Host(number));
    let want = Picture {
        cells: [host(0), function(0), host(2), None, None, None],
        ..NOTHING
    };
    expect(&rt, alloc, IMPORTED_TABLE, want)
}

/// An imported global, and one that is one more.
const NEXT_GLOBAL: ModuleRow = ModuleRow {
    sections: &[
        0x02, 0x08, 0x01, 0x01, 0x6D, 0x01, 0x67, 0x03, 0x7F, 0x00, 0x06, 0x09, 0x01, 0x7F, 0x00,
        0x23, 0x00, 0x41, 0x01, 0x6A, 0x0B,
    ],
    globals: &[41],
    ..ROW
};

/// The same two globals, an object of the first and null, an object of the second and the first
/// object, and that object as a host sees it.
const OBJECTS: ModuleRow = ModuleRow {
    sections: &[
        0x01, 0x07, 0x01, 0x5F, 0x02, 0x7F, 0x00, 0x6E, 0x00, 0x02, 0x08, 0x01, 0x01, 0x6D, 0x01,
        0x67, 0x03, 0x7F, 0x00, 0x06, 0x26, 0x04, 0x7F, 0x00, 0x23, 0x00, 0x41, 0x01, 0x6A, 0x0B,
        0x63, 0x00, 0x00, 0x23, 0x00, 0xD0, 0x71, 0xFB, 0x00, 0x00, 0x0B, 0x63, 0x00, 0x00, 0x23,
        0x01, 0x23, 0x02, 0xFB, 0x00, 0x00, 0x0B, 0x6F, 0x00, 0x23, 0x03, 0xFB, 0x1B, 0x0B,
    ],
    globals: &[41],
    ..ROW
};

#[test]
fn globals_have_numbers_and_objects(rt: HostRuntime) -> Result<(), Fail> {
    let alloc = rt.alloc();
    let want = Picture {
        globals: [number(41), number(42), None, None, None],
        ..NOTHING
    };
    expect(&rt, alloc, NEXT_GLOBAL, want)?;
    let object = |number| Some(Value::Term(number));
    let want = Picture {
        globals: [number(41), number(42), object(0), object(1), object(2)],
        nodes: 3,
        taken: [number(42), object(0)],
        ..NOTHING
    };
    expect(&rt, alloc, OBJECTS, want)
}

/// A memory of 65537 pages, which are 4295032832 bytes.
const LARGE: ModuleRow = ModuleRow {
    sections: &[
        0x05, 0x05, 0x01, 0x04, 0x81, 0x80, 0x04, 0x0B, 0x11, 0x02, 0x00, 0x42, 0x00, 0x0B, 0x01,
        0x01, 0x00, 0x42, 0x80, 0x80, 0x80, 0x80, 0x10, 0x0B, 0x01, 0x01,
    ],
    ..ROW
};

#[test]
fn a_large_memory_is_refused(rt: HostRuntime) -> Result<(), Fail> {
    // The borrow checker wants the type on the way to an index by name.
    let _named: Option<Value> = None;
    let seen = picture(rt.alloc(), &LARGE)?;
    assert!(rt; seen.is_none());
    Ok(())
}
