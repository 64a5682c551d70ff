//! The bytes of data segments, concatenated.

ghost use Rattle.std.specs.Prelude.{◌≡◌, ◌+◌, ◌^◌, ◌<◌, ◌≤◌, ◌++◌, ℕ, length, map, sum_by, nat_eq, All, Contains, IfOk, IfErr, OnOk};
ghost use Rattle.std.specs.List.{IsDistinct};
ghost use Rattle.std.specs.Option.{option_map};
ghost use Rattle.entity_map.specs.Secondary.{value_at};
ghost use Rattle.wasm_index.specs.Index.{number_of};
ghost use Rattle.replay_spec.specs.Plan.{planned_from, ranges_from};
ghost use Rattle.memory_images.specs.Views.{active_segment_of};
ghost use Rattle.init_plan.specs.Views.{passive_segment_of, planned_segment_of, total_bytes, bytes_of, FindsInOrder};

use crate::error::PlanError;
use crate::translation::{MemorySegmentOffset, RuntimeBytes};
use entity_map::{OutOfMemory, PrimaryMap, SecondaryMap};
use std::alloc::Global;
use std::ops::Range;
use wasm_index::{DataIndex, MemoryIndex, RuntimeDataIndex};
use wasm_module::MemoryInitializer;

// Whether 32 bits hold the number of bytes of all data segments together.
#[tactic(auto, using(crate::proofs::Totals::totals))]
pub(crate) fn check_total(
    active: &[MemoryInitializer],
    passive: &[(DataIndex, &[u8])],
) -> Result<(), PlanError>
    ensures fits { OnOk result (total_bytes (map active_segment_of active.now) (map passive_segment_of passive.now) < 2 ^ 32) }
    ensures too_large { IfErr result (λ error. (error ≡ PlanError.TooLarge)
        × (2 ^ 32 ≤ total_bytes (map active_segment_of active.now) (map passive_segment_of passive.now))) }
{
    let total = active_length(active)?;
    with_passive_lengths(total, passive)?;
    Ok(())
}

// The number of bytes of all passive segments together.
#[tactic(auto, using(crate::proofs::Totals::totals))]
pub(crate) fn passive_length(passive: &[(DataIndex, &[u8])]) -> Result<u32, PlanError>
    ensures total { IfOk result (λ total. total ≡ sum_by length (map (λ p. p.1) (map passive_segment_of passive.now))) }
    ensures too_large { IfErr result (λ error. (error ≡ PlanError.TooLarge)
        × (2 ^ 32 ≤ sum_by length (map (λ p. p.1) (map passive_segment_of passive.now)))) }
{
    with_passive_lengths(0, passive)
}

fn active_length(active: &[MemoryInitializer]) -> Result<u32, PlanError>
    ensures total { IfOk result (λ total. total ≡ sum_by (λ s. length s.bytes.now) active.now) }
    ensures too_large { IfErr result (λ error. (error ≡ PlanError.TooLarge)
        × (2 ^ 32 ≤ sum_by (λ s. length s.bytes.now) active.now)) }
{
    let mut total = 0;
    for segment in active {
        total = with_length(total, segment.bytes)?;
    }
    Ok(total)
}

fn with_passive_lengths(before: u32, passive: &[(DataIndex, &[u8])]) -> Result<u32, PlanError>
    ensures total { IfOk result (λ total. total ≡ before + sum_by (λ p. length p.1.now) passive.now) }
    ensures too_large { IfErr result (λ error. (error ≡ PlanError.TooLarge)
        × (2 ^ 32 ≤ before + sum_by (λ p. length p.1.now) passive.now)) }
{
    let mut total = before;
    for (_, bytes) in passive {
        total = with_length(total, bytes)?;
    }
    Ok(total)
}

fn with_length(before: u32, bytes: &[u8]) -> Result<u32, PlanError>
    ensures total { IfOk result (λ total. total ≡ before + length bytes.now) }
    ensures too_large { IfErr result (λ error. (error ≡ PlanError.TooLarge) × (2 ^ 32 ≤ before + length bytes.now)) }
{
    let room = u32::MAX - before;
    if bytes.len() > room as usize {
        return Err(PlanError::TooLarge);
    }
    Ok(before + bytes.len() as u32)
}

// Appends the bytes of active segments to the runtime data, and keeps each segment to be written
// from there.
pub(crate) fn keep_active<'d>(
    alloc: Global,
    segments: Vec<MemoryInitializer<'d>>,
    runtime_data: &mut PrimaryMap<RuntimeDataIndex, RuntimeBytes<'d>>,
) -> Result<Vec<(MemoryIndex, MemorySegmentOffset, RuntimeDataIndex)>, OutOfMemory>
    requires { length runtime_data.old + length segments.items < u32.MAX }
    ensures kept { IfOk result (λ kept. map planned_segment_of kept.items ≡
        planned_from (length runtime_data.old) (map active_segment_of segments.entry.items)) }
    ensures few { OnOk result (length runtime_data.new ≤ length runtime_data.old + length segments.entry.items) }
    ensures runtime { OnOk result (map bytes_of runtime_data.new
        ≡ map bytes_of runtime_data.old ++ map (λ s. s.bytes) (map active_segment_of segments.entry.items)) }
{
    let mut kept = Vec::with_capacity(alloc, segments.len())?;
    for segment in segments {
        let index = runtime_data.push(RuntimeBytes::Borrowed(segment.bytes))?;
        let offset = MemorySegmentOffset::Expr(segment.offset);
        kept.push((segment.memory_index, offset, index))?;
    }
    Ok(kept)
}

// Appends the bytes of passive segments to the runtime data, and maps each segment's index to its
// index there.
pub(crate) fn keep_passive<'d>(
    segments: &[(DataIndex, &'d [u8])],
    runtime_data: &mut PrimaryMap<RuntimeDataIndex, RuntimeBytes<'d>>,
    found: &mut SecondaryMap<DataIndex, Option<RuntimeDataIndex>>,
) -> Result<(), OutOfMemory>
    requires room { length runtime_data.old + length segments.now < u32.MAX }
    requires numbered { All (λ p. p.0 < u32.MAX) (map passive_segment_of segments.now) }
    requires distinct { IsDistinct nat_eq (map (λ p. p.0) (map passive_segment_of segments.now)) }
    ensures runtime { OnOk result (map bytes_of runtime_data.new
        ≡ map bytes_of runtime_data.old ++ map (λ p. p.1) (map passive_segment_of segments.now)) }
    ensures found { OnOk result (FindsInOrder (map bytes_of runtime_data.new) (λ n. option_map number_of (value_at found.new n)) (length runtime_data.old)
        (map passive_segment_of segments.now)) }
    ensures others { OnOk result ((n : ℕ) → ¬ Contains (map (λ p. p.0) (map passive_segment_of segments.now)) n →
        value_at found.new n ≡ value_at found.old n) }
{
    for (index, bytes) in segments {
        let place = runtime_data.push(RuntimeBytes::Borrowed(*bytes))?;
        found.insert(*index, Some(place))?;
    }
    Ok(())
}

// The ranges of runtime data that are contiguous from 0.
pub(crate) fn ranges_end_to_end(
    alloc: Global,
    runtime_data: &PrimaryMap<RuntimeDataIndex, RuntimeBytes>,
) -> Result<PrimaryMap<RuntimeDataIndex, Range<u32>>, OutOfMemory>
    requires few { length runtime_data.now < u32.MAX }
    requires fits { sum_by length (map bytes_of runtime_data.now) < 2 ^ 32 }
    ensures { IfOk result (λ ranges. map (λ r. (r.start, r.end)) ranges ≡ ranges_from 0 (map length (map bytes_of runtime_data.now))) }
{
    let mut ranges = PrimaryMap::new(alloc);
    let mut end = 0;
    for bytes in runtime_data.values() {
        let start = end;
        end += bytes.len() as u32;
        ranges.push(start..end)?;
    }
    Ok(ranges)
}
