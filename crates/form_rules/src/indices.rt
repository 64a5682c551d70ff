//! Indices of segments (core specification, 3.5, element and data segments).

ghost use Rattle.std.specs.Prelude.{◌↔◌, ◌<◌, All, IsTrue};
ghost use Rattle.form_reader.specs.Views.{element_of, element_kind_of, items_of, data_kind_of};
ghost use Rattle.rule_spec.specs.Indices.{NamesMemory, NamesTable, NamesFunctions, IsElementInRange};
ghost use Rattle.form_rules.specs.Views.{lists_of};

use crate::Lists;
use form_reader::{DataKind, Element, ElementItems, ElementKind};

/// Whether the table and the functions that an element segment names exist.
pub fn element_is_in_range(lists: &Lists<'_, '_>, element: &Element) -> bool
    ensures { IsTrue result ↔ IsElementInRange (lists_of lists.now) (element_of element.now) }
{
    names_table(lists, &element.kind) && names_functions(lists, &element.items)
}

fn names_table(lists: &Lists<'_, '_>, kind: &ElementKind) -> bool
    ensures { IsTrue result ↔ NamesTable (lists_of lists.now) (element_kind_of kind.now) }
{
    match kind {
        ElementKind::Passive | ElementKind::Declared => true,
        ElementKind::Active { table_index, .. } => {
            (table_index.unwrap_or(0) as usize) < lists.spaces.table_types.len()
        }
    }
}

/// Whether the functions that items name exist.
pub(crate) fn names_functions(lists: &Lists<'_, '_>, items: &ElementItems) -> bool
    ensures { IsTrue result ↔ NamesFunctions (lists_of lists.now) (items_of items.now) }
{
    match items {
        ElementItems::Functions(indices) => all_below(indices, lists.spaces.functions.len()),
        ElementItems::Expressions(..) => true,
    }
}

fn all_below(indices: &[u32], bound: usize) -> bool
    ensures { IsTrue result ↔ All (λ i. i < bound) indices.now }
{
    indices.iter().all(|index| (*index as usize) < bound)
}

/// Whether the memory that a data segment names exists.
pub fn names_memory(lists: &Lists<'_, '_>, kind: &DataKind) -> bool
    ensures { IsTrue result ↔ NamesMemory (lists_of lists.now) (data_kind_of kind.now) }
{
    match kind {
        DataKind::Passive => true,
        DataKind::Active { memory_index, .. } => {
            (*memory_index as usize) < lists.spaces.memories.len()
        }
    }
}
