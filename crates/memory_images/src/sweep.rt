//! Ranges of offsets, from low to high, as segments begin and end.

ghost use Rattle.std.specs.Prelude.{◌≡◌, ◌+◌, ◌^◌, ◌<◌, ◌≤◌, All, OnOk};
ghost use Rattle.std.specs.Ordering.{nat_cmp};
ghost use Rattle.std.specs.BinaryHeap.{heap_items, IsHeap};
ghost use Rattle.memory_images.specs.Sweep.{AreWrittenBelow, Extends, AreBegun, AreActive, Keeps};

use crate::written::Written;
use entity_map::OutOfMemory;
use std::collections::BinaryHeap;

/// Gives the offsets from `start` up to `end` to a segment. Extends the last range where that ends
/// at `start` and belongs to the same segment.
fn extend(
    ranges: &mut Vec<Written>,
    start: u64,
    end: u64,
    segment: usize,
) -> Result<(), OutOfMemory>
    ensures { OnOk result (Extends ranges.old.items ranges.new.items start end segment) }
{
    if end <= start {
        return Ok(());
    }
    let count = ranges.len();
    if 0 < count && ranges[count - 1].end == start && ranges[count - 1].segment == segment {
        ranges[count - 1].end = end;
        return Ok(());
    }
    ranges.push(Written {
        start,
        end,
        segment,
    })?;
    Ok(())
}

/// Sweeps from an offset to a limit below which no more segments begin. An offset belongs to the
/// last active segment that covers it; segments that end become inactive.
pub(crate) fn advance(
    segments: &[(u64, u64)],
    active: &mut BinaryHeap<usize>,
    ranges: &mut Vec<Written>,
    from: u64,
    limit: u64,
) -> Result<(), OutOfMemory>
    requires fits { All (λ pair. pair.0 + pair.1 < 2 ^ 64) segments.now }
    requires upto { from ≤ limit }
    requires heap { IsHeap nat_cmp (heap_items active.old) }
    requires begun { AreBegun segments.now from (heap_items active.old) }
    requires active { AreActive segments.now from limit (heap_items active.old) }
    requires ranges { AreWrittenBelow segments.now from ranges.old.items }
    ensures heap { OnOk result (IsHeap nat_cmp (heap_items active.new)) }
    ensures begun { OnOk result (AreBegun segments.now limit (heap_items active.new)) }
    ensures kept { OnOk result (Keeps segments.now limit (heap_items active.old) (heap_items active.new)) }
    ensures ranges { OnOk result (AreWrittenBelow segments.now limit ranges.new.items) }
{
    let mut at = from;
    'active: while let Some(segment) = active.peek() {
        let segment = *segment;
        let (start, length) = segments[segment];
        let stop = limit.min(start + length);
        extend(ranges, at, stop, segment)?;
        at = at.max(stop);
        if limit < start + length {
            return Ok(());
        }
        active.pop();
    }
    Ok(())
}
