//! Ranges of offsets, and the segment that each belongs to.

ghost use Rattle.std.specs.Prelude.{◌≡◌, ◌+◌, ◌^◌, ◌<◌, All, IfOk};
ghost use Rattle.memory_images.specs.Ranges.{AreWritten};
ghost use Rattle.memory_images.specs.Sweep.{AreStarts};

use crate::sweep::advance;
use entity_map::OutOfMemory;
use std::alloc::Global;
use std::collections::BinaryHeap;

/// The offsets from `start` up to `end`, which belong to the segment of this number.
#[derive(Clone, Copy, Debug, PartialEq, Eq)]
pub struct Written {
    pub start: u64,
    pub end: u64,
    pub segment: usize,
}

/// The offsets that segments cover, in order, where each pair is a start and a length.
///
/// # Errors
/// `OutOfMemory` where the ranges find no memory.
pub fn written_ranges(alloc: Global, segments: &[(u64, u64)]) -> Result<Vec<Written>, OutOfMemory>
    requires { All (λ pair. pair.0 + pair.1 < 2 ^ 64) segments.now }
    ensures { IfOk result (λ v. AreWritten segments.now v.items) }
{
    let starts = starts_of(alloc, segments)?;
    let mut active = BinaryHeap::new(alloc);
    let mut ranges = Vec::new(alloc);
    let mut at = 0;
    'starts: for i in 0..starts.len() {
        let (start, segment) = starts[i];
        advance(segments, &mut active, &mut ranges, at, start)?;
        active.push(segment)?;
        at = start;
    }
    advance(segments, &mut active, &mut ranges, at, u64::MAX)?;
    Ok(ranges)
}

/// Where each segment starts, and its number, from low starts to high ones.
fn starts_of(alloc: Global, segments: &[(u64, u64)]) -> Result<Vec<(u64, usize)>, OutOfMemory>
    ensures { IfOk result (λ v. AreStarts segments.now v.items) }
{
    let mut starts = Vec::with_capacity(alloc, segments.len())?;
    'segments: for i in 0..segments.len() {
        starts.push((segments[i].0, i))?;
    }
    starts.sort_by_key(|start| start.0)?;
    Ok(starts)
}
