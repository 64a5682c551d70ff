//! Data segments.

ghost use Rattle.std.specs.Prelude.{◌≡◌, ◌↔◌, ◌+◌, ◌++◌, ◌<◌, ◌≤◌, ℕ, List, [], length, map, All, IsTrue, IfOk, OnOk};
ghost use Rattle.std.specs.Option.{option_map, option_to_list};
ghost use Rattle.std.specs.List.{filter_map};
ghost use Rattle.wasm_index.specs.Index.{number_of};
ghost use Rattle.wasm_convert.specs.Constants.{expression_of};
ghost use Rattle.replay_spec.specs.Phases.{Phase};
ghost use Rattle.replay_spec.specs.Plan.{planned_piece};
ghost use Rattle.init_plan.specs.Views.{memory_plan_of, planned_offset_of, processed_of, IsProcessed};
ghost use Rattle.plan_run.specs.Evaluation.{offset_position, EvaluatorIsSound, Grows};
ghost use Rattle.plan_run.specs.Lays.{Lays, Hold};
ghost use Rattle.plan_run.specs.Memories.{bytes_in, plan_phase, left_place, data_piece};
ghost use Rattle.plan_run.specs.Segments.{left_piece, left_pieces, WritesPiece, LendAfter, LendOn};

use crate::evaluation::Evaluator;
use crate::laid::Way;
use crate::memories::bytes_of;
use entity_map::{EntityRef, OutOfMemory};
use init_plan::{MemoryInit, MemorySegmentOffset};
use paged_memory::PagedMemory;

/// Bytes that are to be written to a memory from an offset on.
#[derive(Drop)]
pub(crate) struct DataPiece<'t> {
    pub(crate) memory: usize,
    pub(crate) place: u64,
    pub(crate) bytes: &'t [u8],
}

/// Appends a piece, where there is an offset for it.
fn push_piece<'t>(
    pieces: &mut Vec<DataPiece<'t>>,
    memory: usize,
    place: Option<u64>,
    bytes: &'t [u8],
) -> Result<(), OutOfMemory>
    ensures { OnOk result (map data_piece pieces.new.items ≡ map data_piece pieces.old.items
        ++ option_to_list (option_map (λ at. record { object = memory; offset = at; items = bytes.now }) place)) }
{
    if let Some(place) = place {
        pieces.push(DataPiece {
            memory,
            place,
            bytes,
        })?;
    }
    Ok(())
}

impl<'t> Evaluator<'t, '_, '_> {
    /// Where a segment is written; nowhere where memories are mapped and it is an image.
    fn place_left(
        &mut self,
        way: Way,
        offset: &MemorySegmentOffset,
    ) -> Result<Option<u64>, OutOfMemory>
        requires sound { EvaluatorIsSound self.old }
        ensures grows { OnOk result (Grows self.old self.new) }
        ensures place { IfOk result (λ place. place ≡ left_place way (offset_position self.old) (planned_offset_of offset.now)) }
    {
        match offset {
            MemorySegmentOffset::Expr(e) => {
                let place = self.offset_of(e)?;
                Ok(Some(place))
            }
            MemorySegmentOffset::Static(place) => match way {
                Way::Map => Ok(None),
                Way::Copy => Ok(Some(*place)),
            },
        }
    }

    /// What remains to be written of the data segments, in order.
    pub(crate) fn pieces_left(&mut self, way: Way) -> Result<Vec<DataPiece<'t>>, OutOfMemory>
        requires sound { EvaluatorIsSound self.old }
        requires processed { IsProcessed self.old.translation.now.memory_init }
        ensures grows { OnOk result (Grows self.old self.new) }
        ensures pieces { IfOk result (λ pieces. map data_piece pieces.items
            ≡ left_pieces way (offset_position self.old) (memory_plan_of self.old.translation.now) (processed_of self.old.translation.now.memory_init)) }
    {
        let translation = self.translation;
        let mut pieces = Vec::new(self.alloc);
        let MemoryInit::Processed(segments) = &translation.memory_init else {
            return Ok(pieces);
        };
        for (memory, offset, index) in segments {
            let place = self.place_left(way, offset)?;
            push_piece(
                &mut pieces,
                memory.index(),
                place,
                bytes_of(translation, *index),
            )?;
        }
        Ok(pieces)
    }
}

/// Whether so many items from an offset on are within a size.
pub(crate) fn is_within(size: u64, place: u64, count: u64) -> bool
    ensures { IsTrue result ↔ (place + count ≤ size) }
{
    if size < place {
        return false;
    }
    count <= size - place
}

/// Writes a piece, where it fits, and returns whether it does.
fn write_piece(
    memories: &mut Vec<PagedMemory<'_>>,
    piece: &DataPiece<'_>,
) -> Result<bool, OutOfMemory>
    requires { piece.now.memory < length memories.old.items }
    ensures writes { IfOk result (WritesPiece (data_piece piece.now) (bytes_in memories.old.items) (bytes_in memories.new.items)) }
    ensures lent { IfOk result (LendAfter (data_piece piece.now) memories.old.items memories.new.items) }
{
    let memory = &memories[piece.memory];
    if !is_within(memory.len(), piece.place, piece.bytes.len() as u64) {
        return Ok(false);
    }
    memories[piece.memory].write(piece.place, piece.bytes)?;
    Ok(true)
}

/// Writes pieces in order, up to the first that does not fit. Returns its number, counted from the
/// last.
pub(crate) fn write_pieces(
    memories: &mut Vec<PagedMemory<'_>>,
    pieces: &[DataPiece<'_>],
) -> Result<Option<u64>, OutOfMemory>
    requires { All (λ p. p.memory < length memories.old.items) pieces.now }
    ensures writes { IfOk result (λ trapped. (phase : Phase ℕ) → phase.pieces ≡ map data_piece pieces.now → Hold phase.sizes phase.base (bytes_in memories.old.items)
        → Lays phase (length memories.old.items) (bytes_in memories.new.items) trapped) }
    ensures lent { OnOk result ((phase : Phase ℕ) → phase.pieces ≡ map data_piece pieces.now → Hold phase.sizes phase.base (bytes_in memories.old.items)
        → LendOn phase memories.old.items memories.new.items) }
    ensures still { pieces.now ≡ [] → OnOk result (memories.new ≡ memories.old) }
{
    for i in 0..pieces.len() {
        if !write_piece(memories, &pieces[i])? {
            return Ok(Some((pieces.len() - i) as u64));
        }
    }
    Ok(None)
}
