//! Which type or tag has objects that are too large.

ghost use Rattle.std.specs.Prelude.{◌≡◌, ◌+◌, ◌↔◌, ◌≤◌, IfOk, IsTrue};
ghost use Rattle.gc_layout.specs.Objects.{gc_layout_of, fixed_size};
ghost use Rattle.rule_breaks.specs.Search.{Finds};
ghost use Rattle.translate.specs.Options.{header_size};
ghost use Rattle.plan_excess.specs.Found.{IsSmall, HasSmall, FindsLarge};

use crate::kinds::ExcessKind;
use command_words::Collector;
use entity_map::OutOfMemory;
use gc_layout::{DrcTypeLayouts, GcTypeLayouts, LayoutError, NullTypeLayouts};
use module_types::ModuleTypes;
use std::alloc::Global;
use wasm_types::{EngineOrModuleTypeIndex, Tag, WasmCompositeType};

/// The first declared type whose objects are too large; where there is none, the first such tag.
pub(crate) fn large_of(
    alloc: Global,
    collector: Collector,
    types: &ModuleTypes,
    declared: &[EngineOrModuleTypeIndex],
    tags: &[Tag],
) -> Result<Option<ExcessKind>, OutOfMemory>
    ensures { IfOk result (FindsLarge (header_size collector) types.now.types declared.now tags.now) }
{
    if let Some(type_index) = first_type(alloc, collector, types, declared)? {
        return Ok(Some(ExcessKind::Object { type_index }));
    }
    match first_tag(alloc, collector, types, tags)? {
        Some(tag) => Ok(Some(ExcessKind::Exception { tag })),
        None => Ok(None),
    }
}

/// The first of the types whose objects are too large.
fn first_type(
    alloc: Global,
    collector: Collector,
    types: &ModuleTypes,
    declared: &[EngineOrModuleTypeIndex],
) -> Result<Option<u32>, OutOfMemory>
    ensures { IfOk result (Finds (IsSmall (header_size collector) types.now.types) declared.now) }
{
    let mut number = 0;
    let mut left = declared;
    while let Some((first, others)) = left.split_first() {
        if !is_small(alloc, collector, types, *first)? {
            return Ok(Some(number));
        }
        number = next_number(number)?;
        left = others;
    }
    Ok(None)
}

/// The first of the tags whose exceptions are too large.
fn first_tag(
    alloc: Global,
    collector: Collector,
    types: &ModuleTypes,
    tags: &[Tag],
) -> Result<Option<u32>, OutOfMemory>
    ensures { IfOk result (Finds (HasSmall (header_size collector) types.now.types) tags.now) }
{
    let mut number = 0;
    let mut left = tags;
    while let Some((first, others)) = left.split_first() {
        if !is_small(alloc, collector, types, first.exception)? {
            return Ok(Some(number));
        }
        number = next_number(number)?;
        left = others;
    }
    Ok(None)
}

/// The number of the next entry. More entries than 32 bits count are reported as `OutOfMemory`: no
/// module has so many.
fn next_number(entry: u32) -> Result<u32, OutOfMemory>
    ensures { IfOk result (λ next. next ≡ entry + 1) }
{
    entry.checked_add(1).ok_or(OutOfMemory)
}

/// Whether objects of the interned type have at most 4294967295 bytes; an index that is none of the
/// module has no objects.
fn is_small(
    alloc: Global,
    collector: Collector,
    types: &ModuleTypes,
    index: EngineOrModuleTypeIndex,
) -> Result<bool, OutOfMemory>
    ensures { IfOk result (λ small. IsTrue small ↔ IsSmall (header_size collector) types.now.types index) }
{
    let EngineOrModuleTypeIndex::Module(index) = index else {
        return Ok(true);
    };
    let Some(ty) = types.get(index) else {
        return Ok(true);
    };
    match collector {
        Collector::Drc => fits(alloc, &DrcTypeLayouts, &ty.composite_type),
        Collector::Null => fits(alloc, &NullTypeLayouts, &ty.composite_type),
    }
}

/// Whether objects of the type have at most 4294967295 bytes.
fn fits<L: GcTypeLayouts>(
    alloc: Global,
    collector: &L,
    ty: &WasmCompositeType,
) -> Result<bool, OutOfMemory>
    ensures { IfOk result (λ fits. IsTrue fits ↔ (fixed_size (gc_layout_of L.header_size ty.now.inner) ≤ 4294967295)) }
{
    match collector.gc_layout(alloc, ty) {
        Ok(_layout) => Ok(true),
        Err(LayoutError::OffsetOverflow) => Ok(false),
        Err(LayoutError::OutOfMemory) => Err(OutOfMemory),
    }
}
