//! Data segments (core specification, 5.5, data section).

ghost use Rattle.std.specs.Prelude.{◌≡◌, [], ◌∷◌, refl, OnOk};
ghost use Rattle.wasm_spec.specs.Module as plain;
ghost use Rattle.wasm_spec.specs.declared.operators.Operator.TheVariants.{I32Const};
ghost use Rattle.form_reader.specs.Views.{data_kind_of, segment_of};
ghost use Rattle.form_reader.specs.Reading.{Reads};
ghost use Rattle.form_reader.specs.SectionRows.{active_segment, passive_segment, flagged_segment, data_segment};

use crate::cursor::Cursor;
use crate::error::ReadError;
use crate::input::InputEntries;
use crate::input_vectors::{InputEntry, InputVector};
use crate::offsets::{flagged_constant, one_operator, write_only};
use crate::{ConstExpr, DataKind, DataSegment, Payload};
use std::alloc::{AllocError, Global};
use wasm_spec::Operator;

impl<'d> InputEntry<'d> for DataSegment<'d> {
    type Value = DataSegment<'d>;

    ghost Data = { plain.Segment };

    ghost form = { data_segment.read };

    ghost view = { segment_of };

    ghost of_section = { plain.segments_of_section };

    ghost no_customs = { λ name bytes. refl };

    fn in_payload<'f>(payload: &'f Payload<'d>) -> &'f [DataSegment<'d>] {
        match payload {
            Payload::Segments(segments) => segments.as_slice(),
            _ => &[],
        }
    }

    #[tactic(auto, using(crate::proofs::Listed::none_there))]
    fn in_input(entries: InputEntries<'d>) -> InputVector<'d> {
        match entries {
            InputEntries::Segments(segments) => segments,
            _ => InputVector::none(),
        }
    }

    fn none(_alloc: Global) -> DataSegment<'d> {
        DataSegment {
            kind: DataKind::Passive,
            bytes: &[],
        }
    }

    #[tactic(auto, unfolding(crate::specs::SectionRows::data_segment, crate::specs::SectionRows::flagged_segment, crate::specs::SectionRows::active_segment))]
    fn read_into(
        segment: &mut DataSegment<'d>,
        alloc: Global,
        cursor: &mut Cursor<'d>,
    ) -> Result<(), ReadError> {
        match flagged_constant(cursor.rest) {
            Some((value, rest)) => {
                cursor.rest = rest;
                begin_at(alloc, &mut segment.kind, value)?;
                segment.bytes = cursor.counted_bytes()?;
                Ok(())
            }
            None => cursor.any_segment(alloc, segment),
        }
    }

    #[tactic(auto, unfolding(crate::specs::Reading::rest_at, crate::specs::SectionRows::data_segment, crate::specs::SectionRows::flagged_segment, crate::specs::SectionRows::active_segment))]
    fn pass(
        segment: &mut DataSegment<'d>,
        alloc: Global,
        cursor: &mut Cursor<'d>,
    ) -> Result<(), ReadError> {
        match flagged_constant(cursor.rest) {
            Some((_, rest)) => {
                cursor.rest = rest;
                cursor.counted_bytes()?;
                Ok(())
            }
            None => cursor.any_segment(alloc, segment),
        }
    }
}

/// Overwrites the place of a segment, and reuses its list: memory 0, at a constant.
#[inline(always)]
fn begin_at(alloc: Global, kind: &mut DataKind, value: i32) -> Result<(), AllocError>
    ensures { OnOk result (data_kind_of kind.new ≡ plain.Active 0 (I32Const value ∷ [])) }
{
    let operator = Operator::I32Const { value };
    if let DataKind::Active {
        memory_index,
        offset,
    } = kind
    {
        *memory_index = 0;
        return write_only(&mut offset.ops, operator);
    }
    *kind = DataKind::Active {
        memory_index: 0,
        offset: ConstExpr {
            ops: one_operator(alloc, operator)?,
        },
    };
    Ok(())
}

// Each of these overwrites a segment that is no longer needed, and reuses its list.
impl<'d> Cursor<'d> {
    /// A data segment, whether it is frequent or not.
    #[tactic(auto, unfolding(crate::specs::SectionRows::data_segment))]
    fn any_segment(&mut self, alloc: Global, segment: &mut DataSegment<'d>) -> Result<(), ReadError>
        ensures { Reads data_segment.read (λ u. segment_of segment.new) self.old.rest.now self.new.rest.now result }
    {
        let flag = self.u32()?;
        self.flagged_segment(alloc, flag, segment)
    }

    /// A data segment, after its flag.
    #[tactic(auto, unfolding(crate::specs::SectionRows::flagged_segment))]
    fn flagged_segment(
        &mut self,
        alloc: Global,
        flag: u32,
        segment: &mut DataSegment<'d>,
    ) -> Result<(), ReadError>
        ensures { Reads (flagged_segment flag).read (λ u. segment_of segment.new) self.old.rest.now self.new.rest.now result }
    {
        match flag {
            0 => self.active_segment(alloc, 0, segment),
            1 => self.passive_segment(segment),
            2 => {
                let memory_index = self.u32()?;
                self.active_segment(alloc, memory_index, segment)
            }
            _ => Err(ReadError::Malformed),
        }
    }

    /// An offset into a memory, and bytes.
    #[tactic(auto, unfolding(crate::specs::SectionRows::active_segment))]
    fn active_segment(
        &mut self,
        alloc: Global,
        memory_index: u32,
        segment: &mut DataSegment<'d>,
    ) -> Result<(), ReadError>
        ensures { Reads (active_segment memory_index).read (λ u. segment_of segment.new) self.old.rest.now self.new.rest.now result }
    {
        if let DataKind::Active {
            memory_index: memory,
            offset,
        } = &mut segment.kind
        {
            *memory = memory_index;
            self.expression_into(&mut offset.ops)?;
        } else {
            let offset = self.expression(alloc)?;
            segment.kind = DataKind::Active {
                memory_index,
                offset,
            };
        }
        segment.bytes = self.counted_bytes()?;
        Ok(())
    }

    /// Bytes that are kept for later.
    #[tactic(auto, unfolding(crate::specs::SectionRows::passive_segment))]
    fn passive_segment(&mut self, segment: &mut DataSegment<'d>) -> Result<(), ReadError>
        ensures { Reads passive_segment.read (λ u. segment_of segment.new) self.old.rest.now self.new.rest.now result }
    {
        segment.bytes = self.counted_bytes()?;
        segment.kind = DataKind::Passive;
        Ok(())
    }
}
