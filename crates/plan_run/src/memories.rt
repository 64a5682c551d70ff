//! Memories as they begin.

ghost use Rattle.std.specs.Prelude.{◌≡◌, ◌++◌, ◌<◌, ◌≤◌, ◌^◌, length, map, drop, All, IfOk};
ghost use Rattle.std.specs.Option.{option_map};
ghost use Rattle.wasm_index.specs.Index.{number_of};
ghost use Rattle.wasm_types.specs.Memories.{minimum_bytes};
ghost use Rattle.wasm_types.specs.Sizes.{HasFormatPages};
ghost use Rattle.replay_spec.specs.Plan.{runtime_bytes};
ghost use Rattle.init_plan.specs.Views.{memory_plan_of};
ghost use Rattle.plan_run.specs.declared.laid.Way.TheVariants.{Map};
ghost use Rattle.plan_run.specs.Limits.{page_size_of, own_memories};
ghost use Rattle.plan_run.specs.Memories.{image_in, first_bytes, first_lent, seen, begun, ImageIsWithin, ImagesAreWithin};

use crate::laid::Way;
use crate::limits::{minimum_size, page_size};
use entity_map::OutOfMemory;
use init_plan::{ModuleTranslation, RuntimeBytes};
use paged_memory::PagedMemory;
use std::alloc::Global;
use wasm_index::RuntimeDataIndex;
use wasm_module::MemoryInitialization;
use wasm_types::Memory;

/// The bytes of a runtime data.
pub(crate) fn bytes_of<'t>(
    translation: &'t ModuleTranslation<'_>,
    index: RuntimeDataIndex,
) -> &'t [u8]
    ensures { result.now ≡ runtime_bytes (memory_plan_of translation.now) (number_of index) }
{
    match translation.runtime_data.get(index) {
        Some(RuntimeBytes::Borrowed(bytes)) => bytes,
        Some(RuntimeBytes::Owned(bytes)) => bytes.as_slice(),
        None => &[],
    }
}

/// The image of a memory in the map, with its offset.
fn mapped_image<'t>(
    translation: &'t ModuleTranslation<'_>,
    memory: usize,
) -> Option<(u64, &'t [u8])>
    ensures { option_map (λ image. (image.0, image.1.now)) result ≡ image_in Map (memory_plan_of translation.now) memory }
{
    let MemoryInitialization::Static { map } = &translation.module.memory_initialization else {
        return None;
    };
    let images = map.as_slice();
    if images.len() <= memory {
        return None;
    }
    match images[memory] {
        Some((start, index)) => Some((start, bytes_of(translation, index))),
        None => None,
    }
}

/// The image that a memory begins with, with its offset.
fn image_of<'t>(
    translation: &'t ModuleTranslation<'_>,
    way: Way,
    memory: usize,
) -> Option<(u64, &'t [u8])>
    ensures { option_map (λ image. (image.0, image.1.now)) result ≡ image_in way (memory_plan_of translation.now) memory }
{
    match way {
        Way::Map => mapped_image(translation, memory),
        Way::Copy => None,
    }
}

/// A memory as it begins: zeros, and an image.
#[tactic(auto, using(crate::proofs::LentPages::empty_image))]
fn first_memory<'t>(
    alloc: Global,
    memory: &Memory,
    page: u64,
    image: Option<(u64, &'t [u8])>,
) -> Result<PagedMemory<'t>, OutOfMemory>
    requires page { 0 < page }
    requires log2 { HasFormatPages memory.now }
    requires small { minimum_bytes memory.now < 2 ^ 64 }
    requires within { ImageIsWithin page (minimum_bytes memory.now) (option_map (λ image. (image.0, image.1.now)) image) }
    ensures bytes { IfOk result (λ m. m.bytes ≡ first_bytes (minimum_bytes memory.now) (option_map (λ image. (image.0, image.1.now)) image.entry)) }
    ensures page { IfOk result (λ m. m.page ≡ page) }
    ensures lent { IfOk result (λ m. m.lent ≡ first_lent page (minimum_bytes memory.now) (option_map (λ image. (image.0, image.1.now)) image.entry)) }
{
    let size = minimum_size(memory) as u64;
    match image {
        None => PagedMemory::with_image(alloc, size, page, 0, &[]),
        Some((start, bytes)) => PagedMemory::with_image(alloc, size, page, start, bytes),
    }
}

/// The imported memories, and behind them the defined ones as they begin.
pub(crate) fn first_memories<'t>(
    alloc: Global,
    translation: &'t ModuleTranslation<'_>,
    way: Way,
    imported: Vec<PagedMemory<'t>>,
) -> Result<Vec<PagedMemory<'t>>, OutOfMemory>
    requires imports { length imported.items ≡ translation.now.module.num_imported_memories }
    requires count { translation.now.module.num_imported_memories ≤ length translation.now.module.memories }
    requires page { 0 < page_size_of translation.now }
    requires sizes { All HasFormatPages translation.now.module.memories }
    requires small { All (λ m. minimum_bytes m < 2 ^ 64) (own_memories translation.now) }
    requires within { ImagesAreWithin way (memory_plan_of translation.now) (page_size_of translation.now) translation.now.module.num_imported_memories
        (own_memories translation.now) }
    ensures { IfOk result (λ memories. map seen memories.items ≡ map seen imported.entry.items ++ begun way (memory_plan_of translation.now)
        (page_size_of translation.now) translation.now.module.num_imported_memories (own_memories translation.now)) }
{
    let page = page_size(translation);
    let mut memories = imported;
    let types = translation.module.memories.as_slice();
    for i in memories.len()..types.len() {
        let image = image_of(translation, way, i);
        memories.push(first_memory(alloc, &types[i], page, image)?)?;
    }
    Ok(memories)
}
