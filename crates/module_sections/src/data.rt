//! Data segments.

ghost use Rattle.std.specs.Prelude.{◌≡◌, ◌++◌, ◌<◌, ◌∷◌, [], map, OnOk};
ghost use Rattle.std.specs.List.{filter_map};
ghost use Rattle.wasm_spec.specs.Module.{segments, HasFewEntries};
ghost use Rattle.form_reader.specs.Views.{segment_of};
ghost use Rattle.form_rules.specs.Source.{source_module};
ghost use Rattle.replay_spec.specs.Data.{active_of_kind};
ghost use Rattle.replay_spec.specs.Held.{held_segment, held_segments};
ghost use Rattle.memory_images.specs.Views.{active_segment_of};
ghost use Rattle.init_plan.specs.Views.{initializers_of, passive_data_of, IsUnprocessed, SameButPassive};
ghost use Rattle.module_sections.specs.Initialisers.{passive_data_from};
ghost use Rattle.module_sections.specs.Segments.{AreDataConvertible, IsDataConvertible};

use crate::offsets::convert_offset;
use entity_map::{EntityRef, OutOfMemory};
use form_reader::{DataKind, DataSegment};
use form_rules::{ModuleSource, walk_of};
use init_plan::{MemoryInit, MemoryInitializer, ModuleTranslation};
use std::alloc::Global;
use wasm_convert::TypeConvert;
use wasm_index::{DataIndex, MemoryIndex};

/// The data segments: active ones unchanged, to be planned, and passive ones by their index.
pub(crate) fn add_segments<'d>(
    alloc: Global,
    env: &dyn TypeConvert,
    source: ModuleSource<'_, 'd>,
    translation: &mut ModuleTranslation<'d>,
) -> Result<(), OutOfMemory>
    requires few { HasFewEntries (source_module source) }
    requires convertible { AreDataConvertible (knows env.now) (segments (source_module source)) }
    requires none { passive_data_of translation.old ≡ [] }
    ensures active { OnOk result (initializers_of translation.new ≡ held_segments (source_module source.entry)) }
    ensures passive { OnOk result (passive_data_of translation.new ≡ passive_data_from 0 (segments (source_module source.entry))) }
    ensures unprocessed { OnOk result (IsUnprocessed translation.new.memory_init) }
    ensures same { OnOk result (translation.new ≡ record translation.old {
      memory_init = translation.new.memory_init;
      private_parts = record translation.old.private_parts { passive_data = translation.new.private_parts.passive_data };
    }) }
{
    let mut active = Vec::new(alloc);
    let mut index = 0;
    let mut segments = walk_of::<DataSegment<'d>>(alloc, source);
    while segments.advance()? {
        add_segment(
            alloc,
            env,
            index,
            segments.entry(),
            &mut active,
            translation,
        )?;
        index += 1;
    }
    translation.memory_init = MemoryInit::Unprocessed(active);
    Ok(())
}

/// Adds the segment that has this index: an active one to be planned, and a passive one by that
/// index.
fn add_segment<'d>(
    alloc: Global,
    env: &dyn TypeConvert,
    index: usize,
    segment: &DataSegment<'d>,
    active: &mut Vec<MemoryInitializer<'d>>,
    translation: &mut ModuleTranslation<'d>,
) -> Result<(), OutOfMemory>
    requires few { index < u32.MAX }
    requires convertible { IsDataConvertible (knows env.now) (segment_of segment.now).kind }
    ensures active { OnOk result (map active_segment_of active.new.items ≡ map active_segment_of active.old.items
        ++ map held_segment (filter_map (λ s. active_of_kind s.kind s.bytes) (segment_of segment.now ∷ []))) }
    ensures passive { OnOk result (passive_data_of translation.new
        ≡ passive_data_of translation.old ++ passive_data_from index (segment_of segment.now ∷ [])) }
    ensures same { SameButPassive translation.old translation.new }
{
    match &segment.kind {
        DataKind::Active {
            memory_index,
            offset,
        } => active.push(MemoryInitializer {
            memory_index: MemoryIndex::from_u32(*memory_index),
            offset: convert_offset(alloc, env, offset)?,
            bytes: segment.bytes,
        })?,
        DataKind::Passive => {
            translation.push_passive_data(DataIndex::new(index), segment.bytes)?;
        }
    }
    Ok(())
}
