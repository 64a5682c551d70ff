//! The items of element segments, as cells of an image.

ghost use Rattle.std.specs.Prelude.{◌≡◌, ◌<◌, ◌↔◌, All, IsSome, IsTrue, None, length, slice_index_or, unwrap_or};
ghost use Rattle.std.specs.Option.{option_map};
ghost use Rattle.wasm_index.specs.Index.{number_of};
ghost use Rattle.wasm_convert.specs.Constants.{expression_of};
ghost use Rattle.replay_spec.specs.Tables.{AreCells, constant_place, expression_cell, image_cells};
ghost use Rattle.table_images.specs.Steps.{AreFunctions, index_cell};
ghost use Rattle.table_images.specs.Views.{cell_of as the_cell, items_of};

use entity_map::ReservedValue;
use wasm_convert::{ConstExpr, ConstOp, GlobalConstValue};
use wasm_index::FuncIndex;
use wasm_module::TableSegmentElements;

/// The cell of an expression that is one `ref.func` or one `ref.null`; the reserved index
/// represents null.
pub(crate) fn cell_of(expr: &ConstExpr) -> Option<FuncIndex>
    ensures { result ≡ option_map index_cell (expression_cell (expression_of expr.now)) }
{
    match expr.ops() {
        [ConstOp::RefFunc(function)] => Some(*function),
        [ConstOp::RefNull(_)] => Some(FuncIndex::reserved_value()),
        _ => None,
    }
}

fn have_cells(exprs: &[ConstExpr]) -> bool
    ensures { IsTrue result ↔ All (λ e. IsSome (expression_cell (expression_of e))) exprs.now }
{
    exprs.iter().all(|expr| cell_of(expr).is_some())
}

/// Whether each item is a function, or an expression with a cell.
pub(crate) fn are_cells(elements: &TableSegmentElements) -> bool
    ensures { IsTrue result ↔ AreCells (items_of elements.now) }
{
    match elements {
        TableSegmentElements::Functions(_) => true,
        TableSegmentElements::Expressions { exprs, .. } => have_cells(exprs),
    }
}

/// The cell of one item; an item without a cell gives null.
pub(crate) fn cell_at(elements: &TableSegmentElements, i: usize) -> FuncIndex
    requires within { i < length (image_cells (items_of elements.now)) }
    requires functions { AreFunctions (image_cells (items_of elements.now)) }
    ensures { the_cell result ≡ slice_index_or (image_cells (items_of elements.now)) i None }
{
    match elements {
        TableSegmentElements::Functions(functions) => functions[i],
        TableSegmentElements::Expressions { exprs, .. } => {
            cell_of(&exprs[i]).unwrap_or(FuncIndex::reserved_value())
        }
    }
}

/// The position that an offset expression gives, where its value is a constant of an integer type.
pub(crate) fn constant_offset(offset: &ConstExpr) -> Option<u64>
    ensures { result ≡ constant_place (expression_of offset.now) }
{
    match offset.const_eval()? {
        GlobalConstValue::I32(value) => Some(u64::from(value.cast_unsigned())),
        GlobalConstValue::I64(value) => Some(value.cast_unsigned()),
        _ => None,
    }
}

/// The function of an initialiser that is one `ref.func`.
pub(crate) fn function_of(expr: &ConstExpr) -> Option<FuncIndex>
    ensures { option_map number_of result ≡ unwrap_or (expression_cell (expression_of expr.now)) None }
{
    match expr.ops() {
        [ConstOp::RefFunc(function)] => Some(*function),
        _ => None,
    }
}
