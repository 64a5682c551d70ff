//! What is wrong with a global, an element segment or a data segment. These may stay in the input.

ghost use Rattle.std.specs.Prelude.{◌≡◌, ◌↔◌, ◌+◌, ◌∷◌, [], length, map, IsTrue, IfOk, MatchOption};
ghost use Rattle.wasm_spec.specs.Module as plain;
ghost use Rattle.form_reader.specs.Views.{global_of, element_of, element_kind_of, items_of, expression_of, data_kind_of, segment_of};
ghost use Rattle.rule_spec.specs.declared.rules.Rule.{Rule};
ghost use Rattle.rule_spec.specs.declared.classes.Class.TheVariants as class;
ghost use Rattle.rule_spec.specs.Indices.{NamesMemory, IsElementInRange};
ghost use Rattle.rule_spec.specs.Typing.{HasClass};
ghost use Rattle.rule_spec.specs.References.{GlobalRefersIn};
ghost use Rattle.rule_spec.specs.Expressions.{HasTypedItems};
ghost use Rattle.form_rules.specs.Views.{lists_of};
ghost use Rattle.rule_breaks.specs.Search.{Finds};
ghost use Rattle.rule_breaks.specs.Kept.{ElementKeeps, SegmentKeeps};
ghost use Rattle.rule_breaks.specs.FaultKept.{GlobalKeeps};
ghost use Rattle.rule_breaks.specs.Faults.{At, IsTypeFault, IsGlobalFault, IsElementFault, IsItemMistyped, IsMemoryIndexFault, IsSegmentFault};
ghost use Rattle.rule_breaks.specs.Named.{global_types, table_indices, function_indices};
ghost use Rattle.rule_breaks.specs.Past.{FindsMissing};

use crate::fault::{ExpressionPlace, IndexSpace, RuleFault};
use crate::finding::advance_to;
use crate::named::{element_past, global_past, no_type, segment_past};
use crate::numbers::next_number;
use entity_map::OutOfMemory;
use form_reader::{
    ConstExpr, DataKind, DataSegment, Element, ElementItems, ElementKind, GlobalDef,
};
use form_rules::{Lists, Typing, element_is_typed, struct_defaults, walk_of};
use rule_spec::{Class, Rule};
use std::alloc::{AllocError, Global};
use wasm_spec::RefType;

// ---- globals

/// What is wrong with the global that has this number among those that are defined.
pub(crate) fn fault_of_global(
    alloc: Global,
    lists: &Lists<'_, '_>,
    rule: Rule,
    entry: u32,
) -> Result<RuleFault, AllocError>
    requires { At (lists_of lists.now).globals entry (λ g. ¬ GlobalKeeps rule (lists_of lists.now) (lists.now.imported_globals + entry) g) }
    ensures { IfOk result (λ fault. At (lists_of lists.now).globals entry
        (λ g. IsGlobalFault rule (lists_of lists.now) (lists.now.imported_globals + entry) g fault)) }
{
    let mut globals = walk_of::<GlobalDef>(alloc, lists.source);
    if !advance_to(&mut globals, entry)? {
        unreachable!()
    }
    match rule {
        Rule::L6 => Ok(RuleFault::Mistyped(ExpressionPlace::Initialiser)),
        Rule::L10 => Ok(global_reference_fault(lists, globals.entry())),
        _ => unreachable!(),
    }
}

/// Which type index of a global's references names no type.
fn global_reference_fault(lists: &Lists<'_, '_>, global: &GlobalDef) -> RuleFault
    requires { ¬ GlobalRefersIn (length (lists_of lists.now).types) (global_of global.now) }
    ensures { IsTypeFault (lists_of lists.now) (global_types (global_of global.now)) result }
{
    let types = lists.types.count();
    match global_past(types as usize, global) {
        Some(index) => no_type(types, index),
        None => unreachable!(),
    }
}

// ---- element segments

/// What is wrong with the element segment that has this number.
pub(crate) fn fault_of_element(
    alloc: Global,
    lists: &Lists<'_, '_>,
    rule: Rule,
    entry: u32,
) -> Result<RuleFault, AllocError>
    requires { At (lists_of lists.now).elements entry (λ e. ¬ ElementKeeps rule (lists_of lists.now) e) }
    ensures { IfOk result (λ fault. At (lists_of lists.now).elements entry (λ e. IsElementFault rule (lists_of lists.now) e fault)) }
{
    let mut elements = walk_of::<Element>(alloc, lists.source);
    if !advance_to(&mut elements, entry)? {
        unreachable!()
    }
    element_fault(alloc, lists, rule, elements.entry())
}

fn element_fault(
    alloc: Global,
    lists: &Lists<'_, '_>,
    rule: Rule,
    element: &Element,
) -> Result<RuleFault, AllocError>
    requires { ¬ ElementKeeps rule (lists_of lists.now) (element_of element.now) }
    ensures { IfOk result (IsElementFault rule (lists_of lists.now) (element_of element.now)) }
{
    match rule {
        Rule::L6 => element_typing_fault(alloc, lists, element),
        Rule::L9 => Ok(element_index_fault(lists, element)),
        Rule::L10 => {
            let types = lists.types.count();
            match element_past(types as usize, element) {
                Some(index) => Ok(no_type(types, index)),
                None => unreachable!(),
            }
        }
        _ => unreachable!(),
    }
}

/// Which expression of an element segment has another type than its place requires.
fn element_typing_fault(
    alloc: Global,
    lists: &Lists<'_, '_>,
    element: &Element,
) -> Result<RuleFault, AllocError>
    requires { ¬ ElementKeeps Rule.L6 (lists_of lists.now) (element_of element.now) }
    ensures { IfOk result (IsElementFault Rule.L6 (lists_of lists.now) (element_of element.now)) }
{
    let place = match mistyped_item(alloc, lists, &element.items)? {
        Some(item) => ExpressionPlace::Item(item),
        None => ExpressionPlace::Offset,
    };
    Ok(RuleFault::Mistyped(place))
}

/// The first item that is no reference.
fn mistyped_item(
    alloc: Global,
    lists: &Lists<'_, '_>,
    items: &ElementItems,
) -> Result<Option<u32>, AllocError>
    ensures { IfOk result (λ item.
        MatchOption item (HasTypedItems (lists_of lists.now) (items_of items.now)) (IsItemMistyped (lists_of lists.now) (items_of items.now))) }
{
    match items {
        ElementItems::Functions(_) => Ok(None),
        ElementItems::Expressions(ty, list) => mistyped_expression(alloc, lists, *ty, list),
    }
}

fn mistyped_expression(
    alloc: Global,
    lists: &Lists<'_, '_>,
    ty: RefType,
    list: &[ConstExpr],
) -> Result<Option<u32>, AllocError>
    ensures { IfOk result (Finds (λ e. HasClass (lists_of lists.now) (lists_of lists.now).global_types e class.Ref) (map expression_of list.now)) }
{
    let defaults = struct_defaults(alloc, lists)?;
    let typing = Typing {
        lists,
        defaults: &defaults,
    };
    let mut stack = Vec::new(alloc);
    let mut number = 0;
    let mut left = list;
    while let Some((first, others)) = left.split_first() {
        if !item_is_typed(alloc, &typing, ty, first, &mut stack)? {
            return Ok(Some(number));
        }
        number = next_number(number)?;
        left = others;
    }
    Ok(None)
}

/// Whether an item is a reference: whether a segment is typed that has only this item.
fn item_is_typed(
    alloc: Global,
    typing: &Typing<'_, '_, '_>,
    ty: RefType,
    item: &ConstExpr,
    stack: &mut Vec<Class>,
) -> Result<bool, AllocError>
    ensures { IfOk result (λ typed. IsTrue typed
        ↔ HasClass (lists_of typing.now.lists.now) (lists_of typing.now.lists.now).global_types (expression_of item.now) class.Ref) }
{
    let alone = segment_of_item(alloc, ty, item)?;
    element_is_typed(typing, &alone, stack)
}

/// A segment that has only this item, a copy of it.
fn segment_of_item(alloc: Global, ty: RefType, item: &ConstExpr) -> Result<Element, AllocError>
    ensures { IfOk result (λ e. element_of e
        ≡ record { kind = plain.PassiveElement; items = plain.Expressions ty (expression_of item.now ∷ []) }) }
{
    let ops = item.ops.clone()?;
    let mut items = Vec::new(alloc);
    items.push(ConstExpr { ops })?;
    Ok(Element {
        kind: ElementKind::Passive,
        items: ElementItems::Expressions(ty, items),
    })
}

/// Which index of an element segment names no entry.
fn element_index_fault(lists: &Lists<'_, '_>, element: &Element) -> RuleFault
    requires { ¬ IsElementInRange (lists_of lists.now) (element_of element.now) }
    ensures { IsElementFault Rule.L9 (lists_of lists.now) (element_of element.now) result }
{
    let tables = lists.spaces.table_types.len();
    if let Some(index) = missing_table(tables, &element.kind) {
        return RuleFault::NoSuchEntry {
            space: IndexSpace::Tables,
            index,
            count: tables as u64,
        };
    }
    let functions = lists.spaces.functions.len();
    match missing_function(functions, &element.items) {
        Some(index) => RuleFault::NoSuchEntry {
            space: IndexSpace::Functions,
            index,
            count: functions as u64,
        },
        None => unreachable!(),
    }
}

/// The table that a segment names where there are not so many.
fn missing_table(tables: usize, kind: &ElementKind) -> Option<u32>
    ensures { FindsMissing tables (table_indices (element_kind_of kind.now)) result }
{
    match kind {
        ElementKind::Passive | ElementKind::Declared => None,
        ElementKind::Active { table_index, .. } => {
            let table = table_index.unwrap_or(0);
            if (table as usize) < tables {
                return None;
            }
            Some(table)
        }
    }
}

/// The first function that a segment names where there are not so many.
fn missing_function(functions: usize, items: &ElementItems) -> Option<u32>
    ensures { FindsMissing functions (function_indices (items_of items.now)) result }
{
    match items {
        ElementItems::Functions(indices) => first_missing(functions, indices),
        ElementItems::Expressions(..) => None,
    }
}

/// The first index that is not below a count.
fn first_missing(count: usize, indices: &[u32]) -> Option<u32>
    ensures { FindsMissing count indices.now result }
{
    let mut left = indices;
    while let Some((first, others)) = left.split_first() {
        if *first as usize >= count {
            return Some(*first);
        }
        left = others;
    }
    None
}

// ---- data segments

/// What is wrong with the data segment that has this number.
pub(crate) fn fault_of_segment<'d>(
    alloc: Global,
    lists: &Lists<'_, 'd>,
    rule: Rule,
    entry: u32,
) -> Result<RuleFault, AllocError>
    requires { At (lists_of lists.now).segments entry (λ s. ¬ SegmentKeeps rule (lists_of lists.now) s) }
    ensures { IfOk result (λ fault. At (lists_of lists.now).segments entry (λ s. IsSegmentFault rule (lists_of lists.now) s fault)) }
{
    let mut segments = walk_of::<DataSegment<'d>>(alloc, lists.source);
    if !advance_to(&mut segments, entry)? {
        unreachable!()
    }
    Ok(segment_fault(lists, rule, segments.entry()))
}

fn segment_fault(lists: &Lists<'_, '_>, rule: Rule, segment: &DataSegment<'_>) -> RuleFault
    requires { ¬ SegmentKeeps rule (lists_of lists.now) (segment_of segment.now) }
    ensures { IsSegmentFault rule (lists_of lists.now) (segment_of segment.now) result }
{
    match rule {
        Rule::L6 => RuleFault::Mistyped(ExpressionPlace::Offset),
        Rule::L9 => segment_index_fault(lists, &segment.kind),
        Rule::L10 => {
            let types = lists.types.count();
            match segment_past(types as usize, &segment.kind) {
                Some(index) => no_type(types, index),
                None => unreachable!(),
            }
        }
        _ => unreachable!(),
    }
}

/// The memory that a data segment names, which is missing.
fn segment_index_fault(lists: &Lists<'_, '_>, kind: &DataKind) -> RuleFault
    requires { ¬ NamesMemory (lists_of lists.now) (data_kind_of kind.now) }
    ensures { IsMemoryIndexFault (lists_of lists.now) (data_kind_of kind.now) result }
{
    match kind {
        DataKind::Active { memory_index, .. } => RuleFault::NoSuchEntry {
            space: IndexSpace::Memories,
            index: *memory_index,
            count: lists.spaces.memories.len() as u64,
        },
        DataKind::Passive => unreachable!(),
    }
}
