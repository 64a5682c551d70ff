//! The first data segment that breaks a rule. Data segments may stay in the input.

ghost use Rattle.std.specs.Prelude.{◌≡◌, ◌↔◌, IsTrue, IfOk, length};
ghost use Rattle.wasm_spec.specs.Module.{segments};
ghost use Rattle.form_reader.specs.Views.{segment_of};
ghost use Rattle.form_rules.specs.Source.{source_module};
ghost use Rattle.form_rules.specs.Views.{lists_of};
ghost use Rattle.rule_breaks.specs.Search.{Finds};
ghost use Rattle.rule_breaks.specs.Kept.{SegmentKeeps};

use crate::numbers::next_number;
use form_reader::DataSegment;
use form_rules::{ModuleSource, Typing, data_kind_refers, names_memory, segment_is_typed, walk_of};
use rule_spec::{Class, Rule};
use std::alloc::{AllocError, Global};

/// The first data segment that breaks a rule.
pub(crate) fn first_segment<'d>(
    alloc: Global,
    typing: &Typing<'_, '_, 'd>,
    rule: Rule,
) -> Result<Option<u32>, AllocError>
    ensures { IfOk result (Finds (SegmentKeeps rule (lists_of typing.now.lists.now)) (lists_of typing.now.lists.now).segments) }
{
    let mut stack = Vec::new(alloc);
    let mut number = 0;
    let mut segments = walk_of::<DataSegment<'d>>(alloc, typing.lists.source);
    while segments.advance()? {
        if !segment_keeps(typing, rule, segments.entry(), &mut stack)? {
            return Ok(Some(number));
        }
        number = next_number(number)?;
    }
    Ok(None)
}

fn segment_keeps(
    typing: &Typing<'_, '_, '_>,
    rule: Rule,
    segment: &DataSegment<'_>,
    stack: &mut Vec<Class>,
) -> Result<bool, AllocError>
    ensures { IfOk result (λ kept. IsTrue kept ↔ SegmentKeeps rule (lists_of typing.now.lists.now) (segment_of segment.now)) }
{
    match rule {
        Rule::L6 => segment_is_typed(typing, segment, stack),
        Rule::L9 => Ok(names_memory(typing.lists, &segment.kind)),
        Rule::L10 => Ok(data_kind_refers(typing.lists.types.count() as usize, &segment.kind)),
        _ => Ok(true),
    }
}

/// How many data segments there are.
pub(crate) fn count_segments<'d>(
    alloc: Global,
    source: ModuleSource<'_, 'd>,
) -> Result<u32, AllocError>
    ensures { IfOk result (λ count. count ≡ length (segments (source_module source.entry))) }
{
    let mut count = 0;
    let mut walk = walk_of::<DataSegment<'d>>(alloc, source);
    while walk.advance()? {
        count = next_number(count)?;
    }
    Ok(count)
}
