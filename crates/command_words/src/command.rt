//! What the words of a command request.

use wasm_types::Tunables;

/// How objects are collected, which decides their layouts.
#[derive(Clone, Copy, Debug, PartialEq, Eq)]
pub enum Collector {
    Drc,
    Null,
}

/// What the words request.
#[derive(Clone, Copy, Debug, PartialEq, Eq)]
pub struct Command {
    /// The number of a module to be made in place of reading one.
    pub generate: Option<u32>,
    pub tunables: Tunables,
    /// The page size of images, in bytes: a power of two.
    pub page_size: u64,
    /// Data of this extent or more, in bytes, become an image only where they fill more than half of
    /// it.
    pub max_image: u64,
    /// The size of a pointer of the target, in bytes: 4 or 8.
    pub ptr: u8,
    pub collector: Collector,
}

impl Command {
    /// `plan` without options.
    pub const PLAIN: Command = Command {
        generate: None,
        tunables: Tunables {
            debug_native: false,
            debug_guest: false,
            parse_wasm_debuginfo: false,
            branch_hinting: false,
            memory_init_cow: false,
            table_lazy_init: false,
            signals_based_traps: false,
        },
        page_size: 4096,
        max_image: 1_048_576,
        ptr: 8,
        collector: Collector::Drc,
    };
}
