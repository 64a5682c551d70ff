//! The layouts of the objects of interned types.

ghost use Rattle.std.specs.Prelude.{◌≡◌, ◌⊎◌, ◌<◌, ◌≤◌, All, Any, length, map, option_map, IfOk, IfErr, OnOk, Err};
ghost use Rattle.gc_layout.specs.Objects.{object_layout, gc_layout_of, fixed_size};
ghost use Rattle.translate.specs.Options.{header_size};

use command_words::Collector;
use entity_map::PrimaryMap;
use gc_layout::{DrcTypeLayouts, GcLayout, GcTypeLayouts, NullTypeLayouts};
use module_types::ModuleTypes;
use plan_text::TranslateError;
use std::alloc::Global;
use wasm_index::ModuleInternedTypeIndex;

/// The layout of the objects of each interned type, in index order, for a collector. Function types
/// and continuation types have none.
///
/// # Errors
/// `OffsetOverflow` where the size of an object passes 4294967295 bytes, and `OutOfMemory`.
pub(crate) fn layouts_for(
    alloc: Global,
    collector: Collector,
    types: &ModuleTypes,
) -> Result<PrimaryMap<ModuleInternedTypeIndex, Option<GcLayout>>, TranslateError>
    requires { length types.now.types < u32.MAX }
    ensures layouts { IfOk result (λ layouts. map (option_map object_layout) layouts
        ≡ map (λ t. gc_layout_of (header_size collector) t.composite_type.inner) types.now.types) }
    ensures fits { OnOk result (All (λ t. fixed_size (gc_layout_of (header_size collector) t.composite_type.inner) ≤ 4294967295) types.now.types) }
    ensures overflow { result ≡ Err TranslateError.OffsetOverflow
        → Any (λ t. 4294967295 < fixed_size (gc_layout_of (header_size collector) t.composite_type.inner)) types.now.types }
    ensures causes { IfErr result (λ e. (e ≡ TranslateError.OffsetOverflow) ⊎ (e ≡ TranslateError.OutOfMemory)) }
{
    match collector {
        Collector::Drc => layouts_of(alloc, &DrcTypeLayouts, types),
        Collector::Null => layouts_of(alloc, &NullTypeLayouts, types),
    }
}

/// Those of one collector.
fn layouts_of<L: GcTypeLayouts>(
    alloc: Global,
    collector: &L,
    types: &ModuleTypes,
) -> Result<PrimaryMap<ModuleInternedTypeIndex, Option<GcLayout>>, TranslateError>
    requires { length types.now.types < u32.MAX }
    ensures layouts { IfOk result (λ layouts. map (option_map object_layout) layouts
        ≡ map (λ t. gc_layout_of L.header_size t.composite_type.inner) types.now.types) }
    ensures fits { OnOk result (All (λ t. fixed_size (gc_layout_of L.header_size t.composite_type.inner) ≤ 4294967295) types.now.types) }
    ensures overflow { result ≡ Err TranslateError.OffsetOverflow
        → Any (λ t. 4294967295 < fixed_size (gc_layout_of L.header_size t.composite_type.inner)) types.now.types }
    ensures causes { IfErr result (λ e. (e ≡ TranslateError.OffsetOverflow) ⊎ (e ≡ TranslateError.OutOfMemory)) }
{
    let mut layouts = PrimaryMap::new(alloc);
    for (_, ty) in types.wasm_types() {
        layouts.push(collector.gc_layout(alloc, &ty.composite_type)?)?;
    }
    Ok(layouts)
}
