//! The groups of a module's types are passed to a `GroupSink` as they are read.

ghost use Rattle.std.specs.Prelude.{◌≡◌, List, [], ◌∷◌, IfOk, OnOk};
ghost use Rattle.wasm_spec.specs.declared.types.UnpackedIndex.{UnpackedIndex};
ghost use Rattle.wasm_spec.specs.TypeData as data_of;
ghost use Rattle.form_reader.specs.Views.{group_of};
ghost use Rattle.form_reader.specs.Input.{vector_in, HasGroups, AddsGroups};
ghost use Rattle.form_reader.specs.Reading.{Reads, whole};
ghost use Rattle.form_reader.specs.ReadingNumbers.{vector_at, sized_at};
ghost use Rattle.form_reader.specs.TypeRows.{group};

use crate::RecGroup;
use crate::cursor::Cursor;
use crate::error::ReadError;
use crate::input_vectors::{InputEntry, InputVector};
use std::alloc::{AllocError, Global};

/// A consumer of the groups of a module's types, one after another, as they are read.
pub trait GroupSink {
    /// Which groups it holds, in order.
    ghost holds: { Self → List (data_of.Group UnpackedIndex UnpackedIndex) → Type 0 };

    /// Takes a group.
    fn push_group(&mut self, alloc: Global, group: RecGroup) -> Result<(), AllocError>
        requires { HasGroups holds self.old }
        ensures { OnOk result (AddsGroups holds self.old self.new (group_of group ∷ [])) };
}

/// Drops the groups.
#[derive(Drop)]
pub struct NoSink;

impl GroupSink for NoSink {
    ghost holds = { λ sink groups. Unit {0} };

    fn push_group(&mut self, _alloc: Global, _group: RecGroup) -> Result<(), AllocError> {
        Ok(())
    }
}

impl<'d> Cursor<'d> {
    /// A count, and that many groups. `sink` takes each as it is read.
    #[tactic(auto, unfolding(crate::specs::ReadingNumbers::vector_at))]
    fn counted_groups<T: GroupSink>(
        &mut self,
        alloc: Global,
        sink: &mut T,
    ) -> Result<InputVector<'d>, ReadError>
        requires { HasGroups T.holds sink.old }
        ensures reads { Reads (vector_at group.read) (vector_in group.read) self.old.rest.now self.new.rest.now result }
        ensures takes { IfOk result (λ groups. AddsGroups T.holds sink.old sink.new (vector_in group.read groups)) }
    {
        let count = self.u32()?;
        let bytes = self.rest;
        'groups: for _ in 0..count {
            let mut group = RecGroup::none(alloc);
            RecGroup::read_into(&mut group, alloc, self)?;
            sink.push_group(alloc, group)?;
        }
        Ok(InputVector { count, bytes })
    }

    /// A size, and a count and groups that fill it. `sink` takes each group as it is read.
    #[tactic(auto, unfolding(crate::specs::Reading::whole, crate::specs::ReadingNumbers::sized_at))]
    pub(crate) fn sized_groups<T: GroupSink>(
        &mut self,
        alloc: Global,
        sink: &mut T,
    ) -> Result<InputVector<'d>, ReadError>
        requires { HasGroups T.holds sink.old }
        ensures reads { Reads (sized_at (whole (vector_at group.read))) (vector_in group.read) self.old.rest.now self.new.rest.now result }
        ensures takes { IfOk result (λ groups. AddsGroups T.holds sink.old sink.new (vector_in group.read groups)) }
    {
        let mut body = self.sized()?;
        let groups = body.counted_groups(alloc, sink)?;
        if !body.rest.is_empty() {
            return Err(ReadError::Malformed);
        }
        Ok(groups)
    }
}
