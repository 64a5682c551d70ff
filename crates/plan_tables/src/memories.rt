//! How memories begin, as tables.

ghost use Rattle.std.specs.Prelude.{◌≡◌, map, IfOk};
ghost use Rattle.std.specs.List.{flat_map};
ghost use Rattle.entity_map.specs.Keyed.{keyed};
ghost use Rattle.wasm_index.specs.Index.{index_of};
ghost use Rattle.plan_tables.specs.Memories.{data_range, image_row, image_rows, passive_row, TellsMemories};

use crate::record::MemoriesRecord;
use crate::rows::{ImageRow, NumberRange, PassiveRow};
use crate::runtime::{empty_rows, take_bytes};
use crate::segments::{planned_of, segments_of};
use entity_map::{EntityRef, OutOfMemory, PrimaryMap, SecondaryMap};
use init_plan::ModuleTranslation;
use std::alloc::Global;
use std::ops::Range;
use wasm_index::{DataIndex, MemoryIndex, RuntimeDataIndex};
use wasm_module::MemoryInitialization;

/// The tables of how memories begin. The translation no longer has the bytes of its runtime data.
pub(crate) fn memories_record<'d>(
    alloc: Global,
    translation: &mut ModuleTranslation<'d>,
) -> Result<MemoriesRecord<'d>, OutOfMemory>
    ensures { IfOk result (TellsMemories translation.old) }
{
    let ranges = ranges_of(alloc, translation.module.runtime_data.as_slice())?;
    let images = images_of(alloc, &translation.module.memory_initialization)?;
    let segments = segments_of(alloc, planned_of(&translation.memory_init))?;
    let passive = passive_of(alloc, &translation.runtime_data_map)?;
    let mut runtime = empty_rows(alloc, translation.runtime_data.len())?;
    take_bytes(
        translation.runtime_data.as_mut_slice(),
        runtime.as_mut_slice(),
    );
    Ok(MemoriesRecord {
        runtime: runtime.leak(),
        runtime_ranges: ranges.leak(),
        images: images.leak(),
        segments: segments.leak(),
        passive: passive.leak(),
    })
}

fn ranges_of(alloc: Global, ranges: &[Range<u32>]) -> Result<Vec<NumberRange>, OutOfMemory>
    ensures { IfOk result (λ rows. rows.items ≡ map data_range ranges.now) }
{
    let mut rows = Vec::with_capacity(alloc, ranges.len())?;
    for range in ranges {
        rows.push(NumberRange {
            begin: range.start,
            end: range.end,
        })?;
    }
    Ok(rows)
}

fn images_of(
    alloc: Global,
    initialization: &MemoryInitialization,
) -> Result<Vec<ImageRow>, OutOfMemory>
    ensures { IfOk result (λ rows. rows.items ≡ image_rows initialization.now) }
{
    match initialization {
        MemoryInitialization::Segmented => Ok(Vec::new(alloc)),
        MemoryInitialization::Static { map } => static_images(alloc, map),
    }
}

fn static_images(
    alloc: Global,
    planned: &PrimaryMap<MemoryIndex, Option<(u64, RuntimeDataIndex)>>,
) -> Result<Vec<ImageRow>, OutOfMemory>
    ensures { IfOk result (λ rows. rows.items ≡ flat_map (λ p. image_row p.0 p.1) (keyed index_of planned.now)) }
{
    let mut rows = Vec::new(alloc);
    for (memory, image) in planned.iter() {
        if let Some((offset, runtime)) = image {
            rows.push(ImageRow {
                memory: memory.as_u32(),
                runtime: runtime.as_u32(),
                offset: *offset,
            })?;
        }
    }
    Ok(rows)
}

fn passive_of(
    alloc: Global,
    planned: &SecondaryMap<DataIndex, Option<RuntimeDataIndex>>,
) -> Result<Vec<PassiveRow>, OutOfMemory>
    ensures { IfOk result (λ rows. rows.items ≡ flat_map (λ p. passive_row p.0 p.1) (keyed index_of planned.now.items)) }
{
    let mut rows = Vec::new(alloc);
    for (segment, runtime) in planned.iter() {
        if let Some(runtime) = runtime {
            rows.push(PassiveRow {
                segment: segment.as_u32(),
                runtime: runtime.as_u32(),
            })?;
        }
    }
    Ok(rows)
}
