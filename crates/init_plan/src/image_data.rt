//! Images become runtime data.

ghost use Rattle.std.specs.Prelude.{◌≡◌, ◌+◌, ◌<◌, ◌≤◌, ◌++◌, length, map, IfOk, OnOk};
ghost use Rattle.std.specs.Option.{option_map};
ghost use Rattle.wasm_index.specs.Index.{number_of};
ghost use Rattle.replay_spec.specs.Images.{image_map, entries_of, image_bytes};
ghost use Rattle.memory_images.specs.Images.{images_of as view_images};
ghost use Rattle.init_plan.specs.Views.{bytes_of, planned_segment_of};

use crate::translation::{MemorySegmentOffset, RuntimeBytes};
use entity_map::{OutOfMemory, PrimaryMap};
use memory_images::Image;
use std::alloc::Global;
use wasm_index::{MemoryIndex, RuntimeDataIndex};

// Images by memory, and as a list.
#[derive(Drop)]
pub(crate) struct KeptImages {
    pub(crate) by_memory: PrimaryMap<MemoryIndex, Option<(u64, RuntimeDataIndex)>>,
    pub(crate) listed: Vec<(MemoryIndex, MemorySegmentOffset, RuntimeDataIndex)>,
}

// Appends the bytes of images to the runtime data, and records the offset and the index of each.
pub(crate) fn keep_images(
    alloc: Global,
    images: Vec<Option<Image>>,
    runtime_data: &mut PrimaryMap<RuntimeDataIndex, RuntimeBytes<'_>>,
) -> Result<KeptImages, OutOfMemory>
    requires { length runtime_data.old + length images.items < u32.MAX }
    ensures in_map { IfOk result (λ kept. map (option_map (λ image. (image.0, number_of image.1))) kept.by_memory
        ≡ image_map (length runtime_data.old) (view_images images.items)) }
    ensures in_list { IfOk result (λ kept. map planned_segment_of kept.listed.items
        ≡ entries_of 0 (image_map (length runtime_data.old) (view_images images.items))) }
    ensures few { OnOk result (length runtime_data.new ≤ length runtime_data.old + length images.items) }
    ensures runtime { OnOk result (map bytes_of runtime_data.new ≡ map bytes_of runtime_data.old ++ image_bytes (view_images images.items)) }
{
    let mut by_memory = PrimaryMap::new(alloc);
    let mut listed = Vec::new(alloc);
    for image in images {
        match image {
            None => {
                by_memory.push(None)?;
            }
            Some(image) => {
                let start = image.start;
                let index = runtime_data.push(RuntimeBytes::Owned(image.bytes))?;
                let memory = by_memory.push(Some((start, index)))?;
                listed.push((memory, MemorySegmentOffset::Static(start), index))?;
            }
        }
    }
    Ok(KeptImages { by_memory, listed })
}
