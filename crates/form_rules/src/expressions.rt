//! The constant expressions of a module, each of the class that its place requires.

ghost use Rattle.std.specs.Prelude.{◌≡◌, ◌↔◌, ◌≤◌, take, length, map, All, IsTrue, IfOk};
ghost use Rattle.std.specs.List.{flat_map};
ghost use Rattle.wasm_spec.specs.Module.{segments, tables_of_section, globals_of_section, elements_of_section};
ghost use Rattle.form_reader.specs.Views.{table_of, global_of, element_of, element_kind_of, items_of, expression_of, data_kind_of, segment_of};
ghost use Rattle.rule_spec.specs.declared.classes.Class.TheVariants as class;
ghost use Rattle.rule_spec.specs.Typing.{HasClass};
ghost use Rattle.rule_spec.specs.Expressions.{address_class, HasTypedInitialiser, AreGlobalsTyped, HasTableOffset, HasTypedItems, IsElementTyped, HasMemoryOffset, AreExpressionsTyped};
ghost use Rattle.form_rules.specs.Source.{source_module};
ghost use Rattle.form_rules.specs.Views.{lists_of};
ghost use Rattle.form_rules.specs.Globals.{IsGlobalTyped};

use crate::classes::{Typing, class_of};
use crate::lists::Lists;
use crate::sections::entries_of;
use crate::typing::is_typed;
use form_reader::{
    ConstExpr, DataKind, DataSegment, Element, ElementItems, ElementKind, GlobalDef, TableDef,
};
use rule_spec::Class;
use std::alloc::{AllocError, Global};
use wasm_spec::GlobalType;

/// For each kind of entry that is checked where it is iterated, whether all its expressions have the
/// classes that their places require.
#[derive(Clone, Copy)]
pub struct KindsTyped {
    /// By `global_is_typed` of each.
    pub globals: bool,
    /// By `element_is_typed` of each.
    pub elements: bool,
    /// By `segment_is_typed` of each.
    pub segments: bool,
}

/// Whether each constant expression has the class that its place requires.
pub fn expressions_hold(
    alloc: Global,
    typing: &Typing<'_, '_, '_>,
    typed: KindsTyped,
) -> Result<bool, AllocError>
    requires imported { typing.now.lists.now.imported_globals ≤ length typing.now.lists.now.spaces.global_types.items }
    requires globals { IsTrue typed.globals
        ↔ AreGlobalsTyped (lists_of typing.now.lists.now) typing.now.lists.now.imported_globals (flat_map globals_of_section (source_module typing.now.lists.now.source)) }
    requires elements { IsTrue typed.elements
        ↔ All (IsElementTyped (lists_of typing.now.lists.now)) (flat_map elements_of_section (source_module typing.now.lists.now.source)) }
    requires segments { IsTrue typed.segments
        ↔ All (λ s. HasMemoryOffset (lists_of typing.now.lists.now) s.kind) (segments (source_module typing.now.lists.now.source)) }
    ensures { IfOk result (λ hold. IsTrue hold ↔ AreExpressionsTyped (lists_of typing.now.lists.now)) }
{
    if !typed.globals || !typed.elements || !typed.segments {
        return Ok(false);
    }
    let mut stack = Vec::new(alloc);
    if !tables_hold(typing, &mut stack)? {
        return Ok(false);
    }
    Ok(true)
}

fn globals_below<'a>(lists: &'a Lists<'_, '_>, index: usize) -> &'a [GlobalType]
    requires { index ≤ length lists.now.spaces.global_types.items }
    ensures { result.now ≡ take index lists.now.spaces.global_types.items }
{
    lists.spaces.global_types.split_at(index).0
}

fn all_globals<'a>(lists: &'a Lists<'_, '_>) -> &'a [GlobalType]
    ensures { result.now ≡ lists.now.spaces.global_types.items }
{
    &lists.spaces.global_types
}

/// The class of indices and addresses of 64 bits or of 32.
fn address_class(is_wide: bool) -> Class
    ensures { result ≡ address_class is_wide }
{
    if is_wide { Class::I64 } else { Class::I32 }
}

// ---- tables

fn tables_hold(typing: &Typing<'_, '_, '_>, stack: &mut Vec<Class>) -> Result<bool, AllocError>
    requires imported { typing.now.lists.now.imported_globals ≤ length typing.now.lists.now.spaces.global_types.items }
    ensures { IfOk result (λ hold. IsTrue hold
        ↔ All (HasTypedInitialiser (lists_of typing.now.lists.now)) (flat_map tables_of_section (source_module typing.now.lists.now.source))) }
{
    for table in entries_of::<TableDef>(typing.lists.source) {
        if !table_holds(typing, table, stack)? {
            return Ok(false);
        }
    }
    Ok(true)
}

/// The initialiser of a table sees the imported globals.
pub fn table_holds(
    typing: &Typing<'_, '_, '_>,
    table: &TableDef,
    stack: &mut Vec<Class>,
) -> Result<bool, AllocError>
    requires imported { typing.now.lists.now.imported_globals ≤ length typing.now.lists.now.spaces.global_types.items }
    ensures { IfOk result (λ holds. IsTrue holds ↔ HasTypedInitialiser (lists_of typing.now.lists.now) (table_of table.now)) }
{
    match &table.init {
        Some(init) => {
            let visible = globals_below(typing.lists, typing.lists.imported_globals);
            is_typed(typing, visible, init, Class::Ref, stack)
        }
        None => Ok(true),
    }
}

// ---- element segments

/// Whether the offset and the items of an element segment have the classes that their places
/// require.
///
/// What `stack` holds has no effect.
pub fn element_is_typed(
    typing: &Typing<'_, '_, '_>,
    element: &Element,
    stack: &mut Vec<Class>,
) -> Result<bool, AllocError>
    ensures { IfOk result (λ typed. IsTrue typed ↔ IsElementTyped (lists_of typing.now.lists.now) (element_of element.now)) }
{
    if !table_offset_holds(typing, &element.kind, stack)? {
        return Ok(false);
    }
    items_hold(typing, &element.items, stack)
}

/// An offset has the class of the table's indices, where there is such a table.
fn table_offset_holds(
    typing: &Typing<'_, '_, '_>,
    kind: &ElementKind,
    stack: &mut Vec<Class>,
) -> Result<bool, AllocError>
    ensures { IfOk result (λ holds. IsTrue holds ↔ HasTableOffset (lists_of typing.now.lists.now) (element_kind_of kind.now)) }
{
    match kind {
        ElementKind::Passive | ElementKind::Declared => Ok(true),
        ElementKind::Active {
            table_index,
            offset,
        } => match typing
            .lists
            .spaces
            .table_types
            .get(table_index.unwrap_or(0) as usize)
        {
            Some(table) => {
                let class = address_class(table.table64);
                is_typed(typing, all_globals(typing.lists), offset, class, stack)
            }
            None => Ok(true),
        },
    }
}

fn items_hold(
    typing: &Typing<'_, '_, '_>,
    items: &ElementItems,
    stack: &mut Vec<Class>,
) -> Result<bool, AllocError>
    ensures { IfOk result (λ hold. IsTrue hold ↔ HasTypedItems (lists_of typing.now.lists.now) (items_of items.now)) }
{
    match items {
        ElementItems::Functions(_) => Ok(true),
        ElementItems::Expressions(_, list) => all_items_hold(typing, list, stack),
    }
}

fn all_items_hold(
    typing: &Typing<'_, '_, '_>,
    items: &[ConstExpr],
    stack: &mut Vec<Class>,
) -> Result<bool, AllocError>
    ensures { IfOk result (λ hold. IsTrue hold
        ↔ All (λ e. HasClass (lists_of typing.now.lists.now) typing.now.lists.now.spaces.global_types.items e class.Ref) (map expression_of items.now)) }
{
    for item in items {
        if !item_holds(typing, item, stack)? {
            return Ok(false);
        }
    }
    Ok(true)
}

fn item_holds(
    typing: &Typing<'_, '_, '_>,
    item: &ConstExpr,
    stack: &mut Vec<Class>,
) -> Result<bool, AllocError>
    ensures { IfOk result (λ holds. IsTrue holds
        ↔ HasClass (lists_of typing.now.lists.now) typing.now.lists.now.spaces.global_types.items (expression_of item.now) class.Ref) }
{
    is_typed(typing, all_globals(typing.lists), item, Class::Ref, stack)
}

// ---- data segments

/// Whether the offset of a data segment has the class that its place requires.
///
/// What `stack` holds has no effect.
pub fn segment_is_typed(
    typing: &Typing<'_, '_, '_>,
    segment: &DataSegment<'_>,
    stack: &mut Vec<Class>,
) -> Result<bool, AllocError>
    ensures { IfOk result (λ typed. IsTrue typed ↔ HasMemoryOffset (lists_of typing.now.lists.now) (segment_of segment.now).kind) }
{
    memory_offset_holds(typing, &segment.kind, stack)
}

/// An offset has the class of the memory's addresses, where there is such a memory.
fn memory_offset_holds(
    typing: &Typing<'_, '_, '_>,
    kind: &DataKind,
    stack: &mut Vec<Class>,
) -> Result<bool, AllocError>
    ensures { IfOk result (λ holds. IsTrue holds ↔ HasMemoryOffset (lists_of typing.now.lists.now) (data_kind_of kind.now)) }
{
    match kind {
        DataKind::Passive => Ok(true),
        DataKind::Active {
            memory_index,
            offset,
        } => match typing.lists.spaces.memories.get(*memory_index as usize) {
            Some(memory) => {
                let class = address_class(memory.memory64);
                is_typed(typing, all_globals(typing.lists), offset, class, stack)
            }
            None => Ok(true),
        },
    }
}

// ---- globals

/// Whether the initialiser of the global that has this index has the class of its type. It sees the
/// globals of lower index.
///
/// What `stack` holds has no effect.
pub fn global_is_typed(
    typing: &Typing<'_, '_, '_>,
    index: usize,
    global: &GlobalDef,
    stack: &mut Vec<Class>,
) -> Result<bool, AllocError>
    requires counted { index ≤ length typing.now.lists.now.spaces.global_types.items }
    ensures { IfOk result (λ typed. IsTrue typed ↔ IsGlobalTyped (lists_of typing.now.lists.now) index (global_of global.now)) }
{
    let class = class_of(&global.ty.content_type);
    let visible = globals_below(typing.lists, index);
    is_typed(typing, visible, &global.init, class, stack)
}
