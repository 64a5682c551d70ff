//! Whether a translation can be run.

ghost use Rattle.std.specs.Prelude.{◌≡◌, ◌↔◌, ◌+◌, ◌<◌, ◌≤◌, List, Some, length, map, slice_get, All, IsTrue, IfSome};
ghost use Rattle.wasm_index.specs.Index.{number_of};
ghost use Rattle.wasm_types.specs.Memories.{minimum_bytes};
ghost use Rattle.wasm_types.specs.Sizes.{HasFormatPages};
ghost use Rattle.wasm_types.specs.declared.memory.Memory.{Memory as MemoryType};
ghost use Rattle.wasm_module.specs.declared.table_initialization.TableInitialValue.{TableInitialValue};
ghost use Rattle.table_images.specs.Steps.{images_of};
ghost use Rattle.table_images.specs.Views.{planned_tables_of};
ghost use Rattle.init_plan.specs.Views.{planned_segment_of, processed_of};
ghost use Rattle.plan_run.specs.Finished.{Finished, GlobalsAreFinished, MemoriesAreFinished, TablesAreFinished, ImageFits, ImagesFit};
ghost use Rattle.plan_run.specs.Memories.{ImageIsWithin};
ghost use Rattle.plan_run.specs.Limits.{page_size_of};

use crate::limits::{minimum_size, page_size};
use crate::memories::bytes_of;
use crate::tables::minimum_of;
use entity_map::EntityRef;
use init_plan::{MemoryInit, MemorySegmentOffset, ModuleTranslation, are_images};
use wasm_convert::{ConstExpr, GlobalConstValue};
use wasm_index::{DefinedGlobalIndex, FuncIndex, MemoryIndex, RuntimeDataIndex};
use wasm_module::{MemoryInitialization, TableSegment};
use wasm_types::{Memory, Table};

fn simple_are_within(values: &[(DefinedGlobalIndex, GlobalConstValue)], count: usize) -> bool
    ensures { IsTrue result ↔ All (λ g. number_of g.0 < count) values.now }
{
    values.iter().all(|value| value.0.index() < count)
}

fn kept_are_within(initializers: &[(DefinedGlobalIndex, ConstExpr)], count: usize) -> bool
    ensures { IsTrue result ↔ All (λ g. number_of g.0 < count) initializers.now }
{
    initializers
        .iter()
        .all(|initializer| initializer.0.index() < count)
}

fn globals_are_finished(translation: &ModuleTranslation<'_>) -> bool
    ensures { IsTrue result ↔ GlobalsAreFinished translation.now }
{
    let module = &translation.module;
    if module.globals.len() < module.num_imported_globals {
        return false;
    }
    let count = module.globals.len() - module.num_imported_globals;
    if !simple_are_within(&module.global_initializers, count) {
        return false;
    }
    kept_are_within(&translation.global_initializers, count)
}

fn has_page_size(memory: &Memory) -> bool
    ensures { IsTrue result ↔ HasFormatPages memory.now }
{
    if memory.page_size_log2 == 0 {
        return true;
    }
    memory.page_size_log2 == 16
}

fn have_page_sizes(memories: &[Memory]) -> bool
    ensures { IsTrue result ↔ All HasFormatPages memories.now }
{
    memories.iter().all(|memory| has_page_size(memory))
}

fn segments_are_within(
    segments: &[(MemoryIndex, MemorySegmentOffset, RuntimeDataIndex)],
    count: usize,
) -> bool
    ensures { IsTrue result ↔ All (λ s. number_of s.0 < count) segments.now }
{
    segments.iter().all(|segment| segment.0.index() < count)
}

fn elements_are_within(segments: &[TableSegment], count: usize) -> bool
    ensures { IsTrue result ↔ All (λ s. number_of s.table_index < count) segments.now }
{
    segments
        .iter()
        .all(|segment| segment.table_index.index() < count)
}

/// Whether an image is complete pages within a memory's minimum size.
fn is_image_of(memory: &Memory, page: u64, start: u64, bytes: &[u8]) -> bool
    requires log2 { HasFormatPages memory.now }
    requires page { 0 < page }
    ensures { IsTrue result ↔ ImageIsWithin page (minimum_bytes memory.now) (Some (start, bytes.now)) }
{
    let length = bytes.len() as u64;
    if start % page != 0 {
        return false;
    }
    if length % page != 0 {
        return false;
    }
    u128::from(start) + u128::from(length) <= minimum_size(memory)
}

fn fits_memory(translation: &ModuleTranslation<'_>, memory: usize, start: u64, bytes: &[u8]) -> bool
    requires sizes { All HasFormatPages translation.now.module.memories }
    requires page { 0 < page_size_of translation.now }
    ensures { IsTrue result ↔ ((m : MemoryType) → slice_get translation.now.module.memories memory ≡ Some m
        → ImageIsWithin (page_size_of translation.now) (minimum_bytes m) (Some (start, bytes.now))) }
{
    let memories = translation.module.memories.as_slice();
    if memories.len() <= memory {
        return true;
    }
    is_image_of(&memories[memory], page_size(translation), start, bytes)
}

/// Whether an image is allowed: it is of a defined memory and fits it, and no segment remains to be
/// written.
fn image_fits(
    translation: &ModuleTranslation<'_>,
    segments: &[(MemoryIndex, MemorySegmentOffset, RuntimeDataIndex)],
    memory: usize,
    start: u64,
    index: RuntimeDataIndex,
) -> bool
    requires sizes { All HasFormatPages translation.now.module.memories }
    requires page { 0 < page_size_of translation.now }
    requires segments { processed_of translation.now.memory_init ≡ map planned_segment_of segments.now }
    ensures { IsTrue result ↔ ImageFits translation.now memory (start, number_of index) }
{
    if memory < translation.module.num_imported_memories {
        return false;
    }
    if !are_images(segments) {
        return false;
    }
    fits_memory(translation, memory, start, bytes_of(translation, index))
}

fn is_none_or_fits(
    translation: &ModuleTranslation<'_>,
    segments: &[(MemoryIndex, MemorySegmentOffset, RuntimeDataIndex)],
    memory: usize,
    image: Option<(u64, RuntimeDataIndex)>,
) -> bool
    requires sizes { All HasFormatPages translation.now.module.memories }
    requires page { 0 < page_size_of translation.now }
    requires segments { processed_of translation.now.memory_init ≡ map planned_segment_of segments.now }
    ensures { IsTrue result ↔ IfSome image (λ image. ImageFits translation.now memory (image.0, number_of image.1)) }
{
    match image {
        None => true,
        Some((start, index)) => image_fits(translation, segments, memory, start, index),
    }
}

/// Whether all images are allowed.
fn images_fit(
    translation: &ModuleTranslation<'_>,
    segments: &[(MemoryIndex, MemorySegmentOffset, RuntimeDataIndex)],
) -> bool
    requires sizes { All HasFormatPages translation.now.module.memories }
    requires page { 0 < page_size_of translation.now }
    requires segments { processed_of translation.now.memory_init ≡ map planned_segment_of segments.now }
    ensures { IsTrue result ↔ ImagesFit translation.now }
{
    let MemoryInitialization::Static { map } = &translation.module.memory_initialization else {
        return true;
    };
    let images = map.as_slice();
    for i in 0..images.len() {
        if !is_none_or_fits(translation, segments, i, images[i]) {
            return false;
        }
    }
    true
}

fn memories_are_finished(translation: &ModuleTranslation<'_>) -> bool
    ensures { IsTrue result ↔ MemoriesAreFinished translation.now }
{
    let memories = translation.module.memories.as_slice();
    if memories.len() < translation.module.num_imported_memories {
        return false;
    }
    if !have_page_sizes(memories) {
        return false;
    }
    if page_size(translation) == 0 {
        return false;
    }
    let MemoryInit::Processed(segments) = &translation.memory_init else {
        return false;
    };
    if !segments_are_within(segments, memories.len()) {
        return false;
    }
    images_fit(translation, segments)
}

/// Whether no image is longer than its table's minimum size.
fn are_short(tables: &[Table], images: &[Vec<FuncIndex>]) -> bool
    requires { length images.now ≡ length tables.now }
    ensures { (values : List TableInitialValue) → length values ≡ length tables.now
        → (IsTrue result ↔ All (λ table. length table.image ≤ table.minimum) (planned_tables_of tables.now values (images_of images.now))) }
{
    for i in 0..images.len() {
        if minimum_of(tables, i) < images[i].len() as u64 {
            return false;
        }
    }
    true
}

fn tables_are_finished(translation: &ModuleTranslation<'_>) -> bool
    ensures { IsTrue result ↔ TablesAreFinished translation.now }
{
    let tables = translation.module.tables.as_slice();
    let images = translation.module.table_initialization.as_slice();
    let imports = translation.module.num_imported_tables;
    if tables.len() < imports {
        return false;
    }
    let (_, own) = tables.split_at(imports);
    if translation.table_initialization.initial_values.len() != own.len() {
        return false;
    }
    if images.len() != own.len() {
        return false;
    }
    if !are_short(own, images) {
        return false;
    }
    elements_are_within(&translation.table_initialization.segments, tables.len())
}

/// Whether a translation can be run: exactly where the condition `Finished` of `lay` holds.
pub fn is_finished(translation: &ModuleTranslation<'_>) -> bool
    ensures { IsTrue result ↔ Finished translation.now }
{
    if !globals_are_finished(translation) {
        return false;
    }
    if !memories_are_finished(translation) {
        return false;
    }
    tables_are_finished(translation)
}
