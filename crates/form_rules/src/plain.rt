//! Segments at an offset of one `i32.const`, which most segments have.

ghost use Rattle.std.specs.Prelude.{ℕ, List, IsTrue};
ghost use Rattle.wasm_spec.specs.declared.entities.GlobalType.{GlobalType};
ghost use Rattle.form_reader.specs.Views.{element_of, element_kind_of, items_of, expression_of, data_kind_of};
ghost use Rattle.rule_spec.specs.declared.classes.Class.TheVariants.{I32};
ghost use Rattle.rule_spec.specs.Lists as rule;
ghost use Rattle.rule_spec.specs.Typing.{HasClass};
ghost use Rattle.rule_spec.specs.Expressions.{HasMemoryOffset, HasTableOffset, HasTypedItems, IsElementTyped};
ghost use Rattle.rule_spec.specs.Indices.{NamesMemory, NamesTable};
ghost use Rattle.rule_spec.specs.References.{DataKindRefersIn, ElementKindRefersIn, ElementRefersIn, ExpressionRefersIn, ItemsReferIn};
ghost use Rattle.form_rules.specs.Views.{lists_of};

use crate::{Lists, one_i32};
use form_reader::{ConstExpr, DataKind, Element, ElementItems, ElementKind};

/// Whether the expression is one `i32.const`.
#[inline(always)]
#[tactic(auto, using(crate::proofs::PlainExpressions::constant_typed, crate::proofs::PlainExpressions::constant_refers))]
fn is_constant(expression: &ConstExpr) -> bool
    ensures typed { (l : rule.Lists) (visible : List GlobalType) → IsTrue result → HasClass l visible (expression_of expression.now) I32 }
    ensures refers { (types : ℕ) → IsTrue result → ExpressionRefersIn types (expression_of expression.now) }
{
    one_i32(expression).is_some()
}

/// Whether a data segment is written at an offset of one `i32.const` to a memory that exists and
/// has addresses of 32 bits. What rules require of a data segment holds of such a one.
#[inline(always)]
pub(crate) fn is_plain_segment(lists: &Lists<'_, '_>, kind: &DataKind) -> bool
    ensures typed { IsTrue result → HasMemoryOffset (lists_of lists.now) (data_kind_of kind.now) }
    ensures in_range { IsTrue result → NamesMemory (lists_of lists.now) (data_kind_of kind.now) }
    ensures refers { (types : ℕ) → IsTrue result → DataKindRefersIn types (data_kind_of kind.now) }
{
    match kind {
        DataKind::Passive => false,
        DataKind::Active {
            memory_index,
            offset,
        } => match lists.spaces.memories.get(*memory_index as usize) {
            Some(memory) => !memory.memory64 && is_constant(offset),
            None => false,
        },
    }
}

/// Whether an element segment lists functions, and is written at an offset of one `i32.const` to a
/// table that exists and has indices of 32 bits. What rules require of an element segment holds of
/// such a one, where the functions exist.
#[inline(always)]
pub(crate) fn is_plain_element(lists: &Lists<'_, '_>, element: &Element) -> bool
    ensures typed { IsTrue result → IsElementTyped (lists_of lists.now) (element_of element.now) }
    ensures in_range { IsTrue result → NamesTable (lists_of lists.now) (element_of element.now).kind }
    ensures refers { (types : ℕ) → IsTrue result → ElementRefersIn types (element_of element.now) }
{
    is_plain_kind(lists, &element.kind) && lists_functions(&element.items)
}

#[inline(always)]
fn is_plain_kind(lists: &Lists<'_, '_>, kind: &ElementKind) -> bool
    ensures typed { IsTrue result → HasTableOffset (lists_of lists.now) (element_kind_of kind.now) }
    ensures in_range { IsTrue result → NamesTable (lists_of lists.now) (element_kind_of kind.now) }
    ensures refers { (types : ℕ) → IsTrue result → ElementKindRefersIn types (element_kind_of kind.now) }
{
    match kind {
        ElementKind::Passive | ElementKind::Declared => false,
        ElementKind::Active {
            table_index,
            offset,
        } => match lists
            .spaces
            .table_types
            .get(table_index.unwrap_or(0) as usize)
        {
            Some(table) => !table.table64 && is_constant(offset),
            None => false,
        },
    }
}

#[inline(always)]
fn lists_functions(items: &ElementItems) -> bool
    ensures typed { (l : rule.Lists) → IsTrue result → HasTypedItems l (items_of items.now) }
    ensures refers { (types : ℕ) → IsTrue result → ItemsReferIn types (items_of items.now) }
{
    matches!(items, ElementItems::Functions(_))
}
