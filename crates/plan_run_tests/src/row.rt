//! A module that is run: its bytes, its imports, and how its memories and tables begin.

use plan_run::{Value, Way};

/// A module, and how it is run.
#[derive(Clone, Copy)]
pub(crate) struct ModuleRow {
    /// The bytes after the header.
    pub(crate) sections: &'static [u8],
    /// Whether memories begin as images.
    pub(crate) images: bool,
    /// Whether tables begin as images.
    pub(crate) lazy: bool,
    /// Whether memories map their images or are written byte by byte.
    pub(crate) way: Way,
    /// The numbers of the imported globals.
    pub(crate) globals: &'static [u32],
    /// Whether a memory of 64 bytes is imported, the first 16 of which are 7 and borrowed, in pages
    /// of 8.
    pub(crate) memory: bool,
    /// How many cells the imported table has: 0 for none. The host numbers what they hold, from 0.
    pub(crate) cells: u64,
    /// A byte that is written to the last memory after the run.
    pub(crate) written: Option<(u64, u8)>,
    /// A memory and a position in it, each.
    pub(crate) places: [(usize, u64); 6],
    /// A table and a position in it, each.
    pub(crate) cell_places: [(usize, usize); 6],
}

/// What is seen of a module that is run.
#[derive(Clone, Copy, Debug, PartialEq, Eq)]
pub(crate) struct Picture {
    pub(crate) globals: [Option<Value>; 5],
    pub(crate) bytes: [Option<u8>; 6],
    /// How many pages of the first two memories are borrowed.
    pub(crate) shared: [Option<u64>; 2],
    pub(crate) cells: [Option<Value>; 6],
    pub(crate) memory_trap: Option<u64>,
    pub(crate) table_trap: Option<u64>,
    pub(crate) nodes: usize,
    /// What the second node took.
    pub(crate) taken: [Option<Value>; 2],
    /// The byte of the plan's first runtime data at the second of the positions.
    pub(crate) planned: Option<u8>,
}

/// No switch is on, and nothing is imported.
pub(crate) const ROW: ModuleRow = ModuleRow {
    sections: &[],
    images: false,
    lazy: false,
    way: Way::Map,
    globals: &[],
    memory: false,
    cells: 0,
    written: None,
    places: [(9, 0), (9, 0), (9, 0), (9, 0), (9, 0), (9, 0)],
    cell_places: [(9, 0), (9, 0), (9, 0), (9, 0), (9, 0), (9, 0)],
};

/// Nothing is seen.
pub(crate) const NOTHING: Picture = Picture {
    globals: [None, None, None, None, None],
    bytes: [None, None, None, None, None, None],
    shared: [None, None],
    cells: [None, None, None, None, None, None],
    memory_trap: None,
    table_trap: None,
    nodes: 0,
    taken: [None, None],
    planned: None,
};
