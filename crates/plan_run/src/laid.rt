//! What a run of a plan gives.

ghost use Rattle.std.specs.Prelude.{◌≡◌};

use crate::value::{Node, Value};
use entity_map::OutOfMemory;
use paged_memory::PagedMemory;
use thiserror::Error;

/// What is imported, in the order of each index space.
#[derive(Drop)]
pub struct Imports<'t> {
    /// The values of the globals, none of which names a node.
    pub globals: Vec<Value>,
    pub memories: Vec<PagedMemory<'t>>,
    /// The cells of each table, none of which names a node.
    pub tables: Vec<Vec<Value>>,
}

/// What globals, memories and tables hold, the imported ones first.
#[derive(Drop)]
pub struct Laid<'t> {
    pub globals: Vec<Value>,
    pub memories: Vec<PagedMemory<'t>>,
    /// The cells of each table.
    pub tables: Vec<Vec<Value>>,
    /// What values of nodes represent, by their numbers.
    pub nodes: Vec<Node>,
    /// The first data segment that does not fit, counted from the last of those that are to be
    /// written, which is 1.
    pub memory_trap: Option<u64>,
    /// The same of element segments.
    pub table_trap: Option<u64>,
}

/// How memories get their images.
#[derive(Clone, Copy)]
pub enum Way {
    /// The pages of an image are borrowed from the translation.
    Map,
    /// Every byte is written.
    Copy,
}

/// Why a plan is not run.
#[derive(Clone, Copy, Debug, PartialEq, Eq, Error)]
pub enum LayError {
    /// The defined memories or tables are larger than they may be.
    #[error("memories or tables are too large")]
    TooLarge,
    /// Memory ran out.
    #[error("out of memory")]
    OutOfMemory,
}

impl From<OutOfMemory> for LayError {
    ghost use Rattle.plan_run.specs.declared.laid.LayError.TheVariants as errors;

    ghost from_gives = { λ _ e. e ≡ errors.OutOfMemory };

    fn from(_refused: OutOfMemory) -> LayError {
        LayError::OutOfMemory
    }
}
