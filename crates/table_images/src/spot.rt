//! Where a segment is written.

ghost use Rattle.std.specs.Prelude.{◌≡◌, ◌↔◌, IsTrue, IfSome, IfNone, None, is_some, true};
ghost use Rattle.std.specs.Option.{option_map};
ghost use Rattle.wasm_index.specs.Index.{number_of};
ghost use Rattle.replay_spec.specs.Tables.{initial_function, is_imaged_from_start, kept_initial};
ghost use Rattle.table_images.specs.declared.spot.Spot.{Spot as the_spot};
ghost use Rattle.table_images.specs.Steps.{IsSpot};
ghost use Rattle.table_images.specs.Views.{defined_table_of};

use crate::cells::{are_cells, constant_offset, function_of};
use entity_map::EntityRef;
use wasm_index::FuncIndex;
use wasm_module::{TableInitialValue, TableSegment};
use wasm_types::{Table, WasmHeapTopType};

/// The largest image, in cells.
pub(crate) const MOST_CELLS: u64 = 1048576;

/// Where a segment is written into an image: the table, by its number among the defined ones, and
/// the position of the first cell.
#[derive(Clone, Copy)]
pub(crate) struct Spot {
    pub(crate) table: usize,
    pub(crate) place: usize,
}

/// The function that a table holds from the start, where the image includes it.
pub(crate) fn start_function(table: &Table, value: &TableInitialValue) -> Option<FuncIndex>
    ensures imaged { is_some result ≡ is_imaged_from_start true (defined_table_of table.now value.now) }
    ensures function { IfSome result (λ f. initial_function (defined_table_of table.now value.now).initial ≡ Some (number_of f)) }
{
    match value {
        TableInitialValue::Expr(expr) if table.limits.min <= MOST_CELLS => function_of(expr),
        _ => None,
    }
}

/// Whether a table keeps no initialiser, and so can begin as an image.
pub(crate) fn keeps_none(table: &Table, value: &TableInitialValue) -> bool
    ensures { IsTrue result ↔ (kept_initial true (defined_table_of table.now value.now) ≡ None) }
{
    match value {
        TableInitialValue::Null => true,
        TableInitialValue::Expr(_) => start_function(table, value).is_some(),
    }
}

/// Where a segment is written, if it may be in an image; `tables` are the defined ones.
pub(crate) fn spot_of(
    imported: usize,
    tables: &[Table],
    values: &[TableInitialValue],
    segment: &TableSegment,
) -> Option<Spot>
    ensures some { IfSome result (IsSpot imported tables.now values.now segment.now) }
    ensures none { IfNone result ((spot : the_spot) → IsSpot imported tables.now values.now segment.now spot → ⊥) }
{
    let number = segment.table_index.index().checked_sub(imported)?;
    let table = tables.get(number)?;
    let value = values.get(number)?;
    if table.ref_type.heap_type.top() != WasmHeapTopType::Func
        || !keeps_none(table, value)
        || !are_cells(&segment.elements)
    {
        return None;
    }
    let place = constant_offset(&segment.offset)?;
    let end = place.checked_add(segment.elements.len())?;
    if end > table.limits.min || end > MOST_CELLS {
        return None;
    }
    Some(Spot {
        table: number,
        place: place as usize,
    })
}
