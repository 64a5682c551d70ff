//! Images of memories that are too large together.

use entity_map::EntityRef;
use memory_images::{ImageSettings, too_large_at};
use std::alloc::Global as Heap;
use std::test::Fail;
use wasm_convert::{ConstExpr, ConstOp};
use wasm_index::MemoryIndex;
use wasm_module::MemoryInitializer;
use wasm_types::{IndexType, Limits, Memory};

const PAGED: ImageSettings = ImageSettings {
    enabled: true,
    page_size: 4096,
    max_image: 4096,
};

const ONE_PAGE: Memory = Memory {
    idx_type: IndexType::I32,
    limits: Limits { min: 1, max: None },
    shared: false,
    page_size_log2: 16,
};

// A byte in a memory.
fn byte_in(alloc: Heap, memory: MemoryIndex) -> Result<MemoryInitializer<'static>, Fail> {
    Ok(MemoryInitializer {
        memory_index: memory,
        offset: ConstExpr::new(alloc, &[ConstOp::I32Const(16)])?,
        bytes: &[7],
    })
}

// Two images of 4096 bytes each.
#[test]
fn second_image_passes_the_limit(rt: HostRuntime) -> Result<(), Fail> {
    let alloc = rt.alloc();
    let memories = [ONE_PAGE, ONE_PAGE];
    let segments = [
        byte_in(alloc, MemoryIndex::new(0))?,
        byte_in(alloc, MemoryIndex::new(1))?,
    ];
    let passive = 4_294_967_296 - 8192;
    let past = too_large_at(alloc, PAGED, &memories, 0, &segments, passive)?;
    assert!(rt; past == Some(1));
    let fits = too_large_at(alloc, PAGED, &memories, 0, &segments, passive - 1)?;
    assert!(rt; fits == None);
    Ok(())
}
