//! The initial content of a module's memories.

ghost use Rattle.std.specs.Prelude.{◌≡◌, ◌↔◌, IsTrue};
ghost use Rattle.wasm_module.specs.declared.memory_initialization.MemoryInitialization.TheVariants.{Segmented};

use entity_map::PrimaryMap;
use wasm_convert::ConstExpr;
use wasm_index::{MemoryIndex, RuntimeDataIndex};

/// The initial content of a module's memories.
#[derive(Drop)]
pub enum MemoryInitialization {
    /// Every segment is written when the module is instantiated.
    Segmented,
    /// The memories begin as images; no segment remains to be written.
    Static {
        /// The offset of each memory's image in the memory, in bytes, and the runtime data that
        /// holds it.
        map: PrimaryMap<MemoryIndex, Option<(u64, RuntimeDataIndex)>>,
    },
}

impl MemoryInitialization {
    /// Whether every segment is written when the module is instantiated.
    pub fn is_segmented(&self) -> bool
        ensures { IsTrue result ↔ (self.now ≡ Segmented) }
    {
        matches!(self, MemoryInitialization::Segmented)
    }
}

/// Segments remain to be written.
impl Default for MemoryInitialization {
    ghost is_default = { λ initialization. initialization ≡ Segmented };

    fn default() -> Self {
        MemoryInitialization::Segmented
    }
}

/// An active data segment (core specification, 2.5, data segments).
#[derive(Drop)]
pub struct MemoryInitializer<'a> {
    pub memory_index: MemoryIndex,
    /// The offset in the memory where it begins.
    pub offset: ConstExpr,
    pub bytes: &'a [u8],
}
