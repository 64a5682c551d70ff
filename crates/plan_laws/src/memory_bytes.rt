//! How many bytes the lines of memories and layouts have.

ghost use Rattle.std.specs.Prelude.{◌<◌, ◌≤◌, ◌+◌, ◌*◌, ◌^◌, ◌∷◌, [], All, IfSome, Option, length, sum_by, count_by, is_some, codes};
ghost use Rattle.std.specs.List.{flat_map};
ghost use Rattle.entity_map.specs.Keyed.{keyed};
ghost use Rattle.wasm_index.specs.declared.index.Index.{Index};
ghost use Rattle.wasm_index.specs.declared.spaces.DataSpace.{DataSpace};
ghost use Rattle.wasm_index.specs.declared.spaces.RuntimeDataSpace.{RuntimeDataSpace};
ghost use Rattle.wasm_index.specs.Index.{number_of, index_of};
ghost use Rattle.vm_offsets.specs.Layouts.{fields_of, pointer_of, size_of_context};
ghost use Rattle.vm_offsets.specs.Regions.{context_regions};
ghost use Rattle.plan_lines.specs.ContextLines.{region_line};
ghost use Rattle.plan_lines.specs.LayoutLines.{layout_lines};
ghost use Rattle.plan_lines.specs.MemoryLines.{alignment_lines, image_lines, passive_lines, runtime_line};
ghost use Rattle.plan_lines.specs.Numbers.{numbers_line, keyed_lines};
ghost use Rattle.plan_lines.specs.SegmentLines.{initialization_images, segment_lines};
ghost use Rattle.plan_laws.specs.TextCosts.{layout_fields, place_operators, images_in, segments_in};
ghost use Rattle.plan_laws.specs.Widths.{MemoryFits, PlaceFits, SegmentFits, RangeFits, ArrayFits, FieldsFit, LayoutFits};

use crate::operator_bytes::expression;
use entity_map::{EntityRef, PrimaryMap, SecondaryMap};
use gc_layout::{GcArrayLayout, GcLayout, GcStructLayout, GcStructLayoutField};
use init_plan::{MemoryInit, MemoryInitialization, MemorySegmentOffset};
use std::ops::Range;
use vm_offsets::VMOffsets;
use wasm_index::{DataIndex, MemoryIndex, ModuleInternedTypeIndex, RuntimeDataIndex};

fn wide(number: Option<u64>)
    ensures { IfSome number (λ n. n < 2 ^ 64) }
{
    match number {
        Some(number) => {
            let _number = number;
        }
        None => {}
    }
}

/// The alignment of images.
pub(crate) fn alignment(align: Option<u64>)
    ensures { length (alignment_lines align) ≤ 128 }
{
    wide(align);
}

fn image(image: &Option<(u64, RuntimeDataIndex)>)
    ensures { MemoryFits image.now }
{
    match image {
        Some((place, index)) => {
            let _numbers = (*place, index.as_u32());
        }
        None => {}
    }
}

fn each_image(images: &[Option<(u64, RuntimeDataIndex)>])
    ensures { All MemoryFits images.now }
{
    for each in images {
        image(each);
    }
}

fn images(images: &PrimaryMap<MemoryIndex, Option<(u64, RuntimeDataIndex)>>)
    ensures { length (keyed_lines image_lines images.now) ≤ 128 * length images.now }
{
    let _count = images.len();
    each_image(images.as_slice());
}

/// The images of memories that begin as images.
pub(crate) fn memory_images(initialization: &MemoryInitialization)
    ensures { length (initialization_images initialization.now) ≤ 128 * length (images_in initialization.now) }
{
    match initialization {
        MemoryInitialization::Segmented => {}
        MemoryInitialization::Static { map } => images(map),
    }
}

fn place(place: &MemorySegmentOffset)
    ensures { PlaceFits place.now }
{
    match place {
        MemorySegmentOffset::Expr(place) => expression(place),
        MemorySegmentOffset::Static(place) => {
            let _place = *place;
        }
    }
}

fn segment(segment: &(MemoryIndex, MemorySegmentOffset, RuntimeDataIndex))
    ensures { SegmentFits segment.now }
{
    let _memory = segment.0.as_u32();
    let _index = segment.2.as_u32();
    place(&segment.1);
}

fn each_segment(segments: &[(MemoryIndex, MemorySegmentOffset, RuntimeDataIndex)])
    ensures { All SegmentFits segments.now }
{
    for each in segments {
        segment(each);
    }
}

/// The data segments that are planned.
pub(crate) fn data_segments(memory_init: &MemoryInit<'_>)
    ensures { length (segment_lines memory_init.now) ≤ 128 * length (segments_in memory_init.now)
        + 48 * sum_by (λ s. place_operators s.1) (segments_in memory_init.now) }
{
    match memory_init {
        MemoryInit::Unprocessed(_) => {}
        MemoryInit::Processed(segments) => each_segment(segments.as_slice()),
    }
}

fn datum(index: Option<RuntimeDataIndex>)
    ensures { IfSome index (λ i. number_of i < 2 ^ 32) }
{
    match index {
        Some(index) => {
            let _number = index.as_u32();
        }
        None => {}
    }
}

fn passive(segment: DataIndex, index: Option<RuntimeDataIndex>)
    ensures { length (passive_lines segment index) ≤ 128 }
{
    let _number = segment.as_u32();
    datum(index);
}

fn each_passive(data: &SecondaryMap<DataIndex, Option<RuntimeDataIndex>>)
    ensures { All (λ (p : Index DataSpace × Option (Index RuntimeDataSpace)). length (passive_lines p.0 p.1) ≤ 128) (keyed index_of data.now.items) }
{
    for (segment, index) in data.iter() {
        passive(segment, *index);
    }
}

/// The passive data segments.
pub(crate) fn passive_data(data: &SecondaryMap<DataIndex, Option<RuntimeDataIndex>>)
    ensures { length (keyed_lines passive_lines data.now.items) ≤ 128 * count_by is_some data.now.items }
{
    each_passive(data);
}

fn range(range: &Range<u32>)
    ensures { RangeFits range.now }
{
    let _start = range.start;
    let _end = range.end;
}

fn each_range(ranges: &[Range<u32>])
    ensures { All RangeFits ranges.now }
{
    for each in ranges {
        range(each);
    }
}

/// The ranges of runtime data.
pub(crate) fn runtime_data(ranges: &PrimaryMap<RuntimeDataIndex, Range<u32>>)
    ensures { length (keyed_lines runtime_line ranges.now) ≤ 128 * length ranges.now }
{
    let _count = ranges.len();
    each_range(ranges.as_slice());
}

fn array(layout: &GcArrayLayout)
    ensures { ArrayFits layout.now }
{
    let _base = layout.base_size;
    let _align = layout.align;
    let _element = layout.elem_size;
}

fn offset(field: &GcStructLayoutField)
    ensures { field.now.offset < 2 ^ 32 }
{
    let _offset = field.offset;
}

fn offsets(fields: &[GcStructLayoutField])
    ensures { All (λ f. f.offset < 2 ^ 32) fields.now }
{
    for field in fields {
        offset(field);
    }
}

fn fields(layout: &GcStructLayout)
    ensures { FieldsFit layout.now }
{
    let _size = layout.size;
    let _align = layout.align;
    offsets(layout.fields.as_slice());
}

fn layout(layout: &Option<GcLayout>)
    ensures { LayoutFits layout.now }
{
    match layout {
        Some(GcLayout::Array(layout)) => array(layout),
        Some(GcLayout::Struct(layout)) => fields(layout),
        None => {}
    }
}

fn each_layout(layouts: &[Option<GcLayout>])
    ensures { All LayoutFits layouts.now }
{
    for each in layouts {
        layout(each);
    }
}

/// The layouts of objects.
pub(crate) fn layouts(layouts: &PrimaryMap<ModuleInternedTypeIndex, Option<GcLayout>>)
    ensures { length (keyed_lines layout_lines layouts.now) ≤ 128 * length layouts.now + 48 * sum_by layout_fields layouts.now }
{
    let _count = layouts.len();
    each_layout(layouts.as_slice());
}

fn each_region(offsets: &VMOffsets<u8>)
    ensures { All (λ region. region.1 < 2 ^ 32) (context_regions (pointer_of offsets.now) (fields_of offsets.now)) }
{
    for (_, size) in offsets.region_sizes() {
        let _size = size;
    }
}

/// The regions of a context, and its size.
pub(crate) fn context(offsets: &VMOffsets<u8>)
    ensures regions { length (flat_map region_line (context_regions (pointer_of offsets.now) (fields_of offsets.now))) ≤ 15 * 128 }
    ensures size { length (numbers_line (codes "context") (size_of_context offsets.now ∷ [])) ≤ 128 }
{
    let _size = offsets.size_of_vmctx();
    each_region(offsets);
}
