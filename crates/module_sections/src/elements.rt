//! Element segments.

ghost use Rattle.std.specs.Prelude.{◌≡◌, ◌<◌, ◌-◌, ◌++◌, ◌∷◌, [], Some, length, IfOk, OnOk};
ghost use Rattle.std.specs.List.{flat_map};
ghost use Rattle.wasm_spec.specs.Module as plain;
ghost use Rattle.wasm_spec.specs.Module.{HasFewEntries};
ghost use Rattle.form_reader.specs.Views.{element_of};
ghost use Rattle.form_rules.specs.Source.{source_module};
ghost use Rattle.entity_map.specs.Secondary.{with_value};
ghost use Rattle.wasm_index.specs.Index.{index_of, number_of};
ghost use Rattle.wasm_convert.specs.Conversion.{LookUp};
ghost use Rattle.wasm_module.specs.Elements.{element_type, element_count};
ghost use Rattle.module_sections.specs.Escapes.{item_functions};
ghost use Rattle.module_sections.specs.EscapeLog.{after_escapes};
ghost use Rattle.module_sections.specs.Segments.{IsElementConvertible, AreElementsConvertible, HoldsElements, HasRoomForSegments, AddsElements};

use crate::element_items::convert_items;
use crate::escapes::Escaping;
use crate::offsets::convert_offset;
use entity_map::{EntityRef, OutOfMemory, PrimaryMap, SecondaryMap};
use form_reader::{Element, ElementKind};
use form_rules::{ModuleSource, walk_of};
use std::alloc::Global;
use wasm_convert::TypeConvert;
use wasm_index::{ElemIndex, PassiveElemIndex, TableIndex};
use wasm_module::{TableSegment, TableSegmentElements};
use wasm_types::WasmRefType;

/// The element segments of a module, active and passive ones apart.
#[derive(Drop)]
pub(crate) struct ElementSegments {
    /// Those that are written when the module is instantiated, in order.
    pub active: Vec<TableSegment>,
    /// The passive ones, in order.
    pub passive: PrimaryMap<PassiveElemIndex, TableSegmentElements>,
    /// The type and the length of each passive one.
    pub kinds: PrimaryMap<PassiveElemIndex, (WasmRefType, u64)>,
    /// For each element segment that is passive, its number among the passive ones.
    pub numbers: SecondaryMap<ElemIndex, Option<PassiveElemIndex>>,
    /// How many segments there are.
    pub count: u32,
}

/// The element segments, converted; the functions to which their items make references are
/// recorded. Nothing else is kept of a segment that is only declared.
pub(crate) fn convert_elements(
    alloc: Global,
    env: &dyn TypeConvert,
    source: ModuleSource<'_, '_>,
    escaping: &mut Escaping,
) -> Result<ElementSegments, OutOfMemory>
    requires few { HasFewEntries (source_module source) }
    requires convertible { AreElementsConvertible (knows env.now) escaping.old.count (flat_map plain.elements_of_section (source_module source)) }
    ensures holds { IfOk result (HoldsElements (look_up env.now) (flat_map plain.elements_of_section (source_module source.entry))) }
    ensures noted { OnOk result
        (escaping.new ≡ after_escapes escaping.old (flat_map (λ e. item_functions e.items) (flat_map plain.elements_of_section (source_module source.entry)))) }
{
    let mut segments = ElementSegments::new(alloc);
    let mut elements = walk_of::<Element>(alloc, source);
    while elements.advance()? {
        segments.add(alloc, env, elements.entry(), escaping)?;
    }
    Ok(segments)
}

impl ElementSegments {
    fn new(alloc: Global) -> Self
        ensures { (look : LookUp) → HoldsElements look [] result }
    {
        ElementSegments {
            active: Vec::new(alloc),
            passive: PrimaryMap::new(alloc),
            kinds: PrimaryMap::new(alloc),
            numbers: SecondaryMap::new(alloc, None),
            count: 0,
        }
    }

    fn add(
        &mut self,
        alloc: Global,
        env: &dyn TypeConvert,
        element: &Element,
        escaping: &mut Escaping,
    ) -> Result<(), OutOfMemory>
        requires room { HasRoomForSegments (look_up env.now) self.old 1 }
        requires convertible { IsElementConvertible (knows env.now) escaping.old.count (element_of element.now) }
        ensures added { OnOk result (AddsElements (look_up env.now) self.old self.new (element_of element.now ∷ [])) }
        ensures noted { OnOk result (escaping.new ≡ after_escapes escaping.old (item_functions (element_of element.now).items)) }
    {
        let items = convert_items(alloc, env, &element.items, escaping)?;
        let index = ElemIndex::from_u32(self.count);
        self.count += 1;
        match &element.kind {
            ElementKind::Passive => self.add_passive(index, items),
            ElementKind::Declared => Ok(()),
            ElementKind::Active {
                table_index,
                offset,
            } => {
                self.active.push(TableSegment {
                    table_index: TableIndex::from_u32(table_index.unwrap_or(0)),
                    offset: convert_offset(alloc, env, offset)?,
                    elements: items,
                })?;
                Ok(())
            }
        }
    }

    /// Adds a passive segment, which has this index among all.
    fn add_passive(
        &mut self,
        index: ElemIndex,
        items: TableSegmentElements,
    ) -> Result<(), OutOfMemory>
        requires index { number_of index < u32.MAX }
        requires kinds { length self.old.kinds < u32.MAX - 1 }
        requires passive { length self.old.passive < u32.MAX - 1 }
        ensures { OnOk result (self.new ≡ record self.old {
          passive = self.old.passive ++ items ∷ [];
          kinds = self.old.kinds ++ (element_type items, element_count items) ∷ [];
          numbers = with_value self.old.numbers (number_of index) (Some (index_of (length self.old.passive)));
        }) }
    {
        self.kinds.push((items.ty(), items.len()))?;
        let number = self.passive.push(items)?;
        self.numbers.insert(index, Some(number))
    }
}
