//! Element segments.

ghost use Rattle.std.specs.Prelude.{◌≡◌, ◌<◌, ℕ, List, length, map, All, IfOk, OnOk};
ghost use Rattle.wasm_convert.specs.Constants.{expression_of};
ghost use Rattle.wasm_index.specs.Index.{number_of};
ghost use Rattle.replay_spec.specs.Elements.{cell_of, item_cells, elements_piece};
ghost use Rattle.replay_spec.specs.Phases.{Phase};
ghost use Rattle.replay_spec.specs.Values as plain;
ghost use Rattle.replay_spec.specs.Values.{Term};
ghost use Rattle.table_images.specs.Views.{items_of as the_items, active_elements_of};
ghost use Rattle.plan_run.specs.Evaluation.{globals_of, fields_of, EvaluatorIsSound, Grows};
ghost use Rattle.plan_run.specs.Lays.{Lays, Hold};
ghost use Rattle.plan_run.specs.Nodes.{AllMean};
ghost use Rattle.plan_run.specs.Segments.{WritesPiece};
ghost use Rattle.plan_run.specs.Tables.{cells_in, element_piece, PiecesMean, TablesBelow};
ghost use Rattle.plan_run.specs.Values.{values_in, IsPlain, NamesBelow};

use crate::evaluation::Evaluator;
use crate::segments::is_within;
use crate::value::Value;
use entity_map::{EntityRef, OutOfMemory};
use std::alloc::Global;
use wasm_convert::ConstExpr;
use wasm_index::FuncIndex;
use wasm_module::TableSegmentElements;

/// Cells that are to be written to a table from an offset on.
#[derive(Drop)]
pub(crate) struct ElementPiece {
    pub(crate) table: usize,
    pub(crate) place: u64,
    pub(crate) items: Vec<Value>,
}

/// References to functions.
fn references(alloc: Global, functions: &[FuncIndex]) -> Result<Vec<Value>, OutOfMemory>
    ensures means { IfOk result (λ items. (terms : List Term) → values_in terms items.items
        ≡ map (λ k. plain.Ref (plain.Func k)) (map number_of functions.now)) }
    ensures plain { IfOk result (λ items. All IsPlain items.items) }
{
    let mut items = Vec::with_capacity(alloc, functions.len())?;
    for function in functions {
        items.push(Value::Func(*function))?;
    }
    Ok(items)
}

impl Evaluator<'_, '_, '_> {
    /// The values of expressions.
    fn evaluate_all(&mut self, expressions: &[ConstExpr]) -> Result<Vec<Value>, OutOfMemory>
        requires sound { EvaluatorIsSound self.old }
        ensures grows { OnOk result (Grows self.old self.new) }
        ensures means { IfOk result (λ items. AllMean self.new.nodes.items items.items
            (map (cell_of (globals_of self.old) (fields_of self.old)) (map expression_of expressions.now))) }
    {
        let mut items = Vec::with_capacity(self.alloc, expressions.len())?;
        for expression in expressions {
            let value = self.evaluate(expression)?;
            items.push(value)?;
        }
        Ok(items)
    }

    /// The values of a segment's items.
    fn items_of(&mut self, elements: &TableSegmentElements) -> Result<Vec<Value>, OutOfMemory>
        requires sound { EvaluatorIsSound self.old }
        ensures grows { OnOk result (Grows self.old self.new) }
        ensures means { IfOk result (λ items. AllMean self.new.nodes.items items.items
            (item_cells (globals_of self.old) (fields_of self.old) (the_items elements.now))) }
    {
        match elements {
            TableSegmentElements::Functions(functions) => {
                let items = references(self.alloc, functions)?;
                Ok(items)
            }
            TableSegmentElements::Expressions { exprs, .. } => {
                let items = self.evaluate_all(exprs)?;
                Ok(items)
            }
        }
    }

    /// What is to be written of the element segments that are kept, in order.
    pub(crate) fn pieces_kept(&mut self) -> Result<Vec<ElementPiece>, OutOfMemory>
        requires sound { EvaluatorIsSound self.old }
        ensures grows { OnOk result (Grows self.old self.new) }
        ensures means { IfOk result (λ pieces. PiecesMean self.new.nodes.items pieces.items (map (elements_piece (globals_of self.old) (fields_of self.old))
            (map active_elements_of self.old.translation.now.table_initialization.segments.items))) }
    {
        let translation = self.translation;
        let mut pieces = Vec::new(self.alloc);
        for segment in &translation.table_initialization.segments {
            let place = self.offset_of(&segment.offset)?;
            let items = self.items_of(&segment.elements)?;
            pieces.push(ElementPiece {
                table: segment.table_index.index(),
                place,
                items,
            })?;
        }
        Ok(pieces)
    }
}

/// Writes a piece, where it fits, and returns whether it does.
fn write_cells(tables: &mut Vec<Vec<Value>>, piece: &ElementPiece) -> bool
    requires { piece.now.table < length tables.old.items }
    ensures writes { (terms : List Term) → WritesPiece (element_piece terms piece.now) (cells_in terms tables.old.items) (cells_in terms tables.new.items) result }
    ensures below { (k : ℕ) → TablesBelow k tables.old.items → All (NamesBelow k) piece.now.items.items → TablesBelow k tables.new.items }
    ensures count { length tables.new.items ≡ length tables.old.items }
{
    let size = tables[piece.table].len();
    let count = piece.items.len();
    if !is_within(size as u64, piece.place, count as u64) {
        return false;
    }
    let place = piece.place as usize;
    tables[piece.table][place..place + count].copy_from_slice(&piece.items);
    true
}

/// Writes pieces in order, up to the first that does not fit. Returns its number, counted from the
/// last.
pub(crate) fn write_elements(tables: &mut Vec<Vec<Value>>, pieces: &[ElementPiece]) -> Option<u64>
    requires { All (λ p. p.table < length tables.old.items) pieces.now }
    ensures writes { (terms : List Term) (phase : Phase plain.Value) → phase.pieces ≡ map (element_piece terms) pieces.now
        → Hold phase.sizes phase.base (cells_in terms tables.old.items) → Lays phase (length tables.old.items) (cells_in terms tables.new.items) result }
    ensures below { (k : ℕ) → TablesBelow k tables.old.items → All (λ p. All (NamesBelow k) p.items.items) pieces.now → TablesBelow k tables.new.items }
{
    for i in 0..pieces.len() {
        if !write_cells(tables, &pieces[i]) {
            return Some((pieces.len() - i) as u64);
        }
    }
    None
}
