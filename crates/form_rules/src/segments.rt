//! What the rules require of data segments. One walk checks all rules, as for element segments.

ghost use Rattle.std.specs.Prelude.{◌≡◌, ◌+◌, IfOk};
ghost use Rattle.form_reader.specs.Views.{segment_of};
ghost use Rattle.form_rules.specs.Views.{lists_of};
ghost use Rattle.form_rules.specs.Walked.{AreSegmentsWalked, IsSegmentAdded};

use crate::indices::names_memory;
use crate::plain::is_plain_segment;
use crate::references::data_kind_refers;
use crate::{Typing, segment_is_typed, walk_of};
use form_reader::DataSegment;
use rule_spec::Class;
use std::alloc::{AllocError, Global};

/// How many data segments there are, and for each rule about them, whether all of them keep it.
#[derive(Clone, Copy)]
pub struct SegmentsKeep {
    pub count: usize,
    /// Their offsets have the classes that their places require (L6).
    pub typed: bool,
    /// The memories that they name exist (L9).
    pub in_range: bool,
    /// Their concrete references name declared types (L10).
    pub refer: bool,
}

/// Walks through the data segments.
pub fn walk_segments<'d>(
    alloc: Global,
    typing: &Typing<'_, '_, 'd>,
) -> Result<SegmentsKeep, AllocError>
    ensures { IfOk result (λ kept. AreSegmentsWalked (lists_of typing.now.lists.now) kept) }
{
    let mut stack = Vec::new(alloc);
    let mut kept = SegmentsKeep {
        count: 0,
        typed: true,
        in_range: true,
        refer: true,
    };
    let mut segments = walk_of::<DataSegment<'d>>(alloc, typing.lists.source);
    while segments.advance()? {
        kept = with_segment(typing, kept, segments.entry(), &mut stack)?;
    }
    Ok(kept)
}

/// One more. More segments than a `usize` counts give an `AllocError`: they fit in no memory.
fn one_more(count: usize) -> Result<usize, AllocError>
    ensures { IfOk result (λ more. more ≡ count + 1) }
{
    count.checked_add(1).ok_or(AllocError)
}

/// The same with one segment more.
fn with_segment(
    typing: &Typing<'_, '_, '_>,
    before: SegmentsKeep,
    segment: &DataSegment<'_>,
    stack: &mut Vec<Class>,
) -> Result<SegmentsKeep, AllocError>
    ensures { IfOk result (λ kept. IsSegmentAdded (lists_of typing.now.lists.now) before (segment_of segment.now) kept) }
{
    let lists = typing.lists;
    let count = one_more(before.count)?;
    if is_plain_segment(lists, &segment.kind) {
        return Ok(SegmentsKeep { count, ..before });
    }
    let typed = segment_is_typed(typing, segment, stack)?;
    Ok(SegmentsKeep {
        count,
        typed: before.typed && typed,
        in_range: before.in_range && names_memory(lists, &segment.kind),
        refer: before.refer && data_kind_refers(lists.types.count() as usize, &segment.kind),
    })
}
