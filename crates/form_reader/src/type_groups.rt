//! Composite types, subtypes and groups (core specification, 5.3, composite and recursive types).

ghost use Rattle.std.specs.Prelude.{refl};
ghost use Rattle.wasm_spec.specs.declared.types.UnpackedIndex.{UnpackedIndex};
ghost use Rattle.wasm_spec.specs.Module as plain;
ghost use Rattle.wasm_spec.specs.TypeData as data_of;
ghost use Rattle.form_reader.specs.Views.{composite_of, sub_type_of, group_of};
ghost use Rattle.form_reader.specs.Reading.{Reads, first_byte_at};
ghost use Rattle.form_reader.specs.Rows.{first_byte};
ghost use Rattle.form_reader.specs.ReadingNumbers.{vector_at};
ghost use Rattle.form_reader.specs.TypeRows.{value_type, function_type, composite_after, supertype, with_supertype, sub_type_after, group};

use crate::cursor::Cursor;
use crate::error::ReadError;
use crate::input::InputEntries;
use crate::input_vectors::{InputEntry, InputVector};
use crate::value_types::{FIRST_NUMBER_TYPE, SHARED};
use crate::vectors::Entry;
use crate::{CompositeInnerType, FuncType, Payload, RecGroup, SubType};
use std::alloc::Global;
use wasm_spec::{FieldType, UnpackedIndex, ValType, What};

/// The first bytes of composite types.
const FUNCTION: u8 = 0x60;

const STRUCT: u8 = 0x5F;

const ARRAY: u8 = 0x5E;

const CONTINUATION: u8 = 0x5D;

/// The byte before the supertypes of a type that has subtypes, and of one that has none.
const OPEN: u8 = 0x50;

const FINAL: u8 = 0x4F;

/// The byte before the members of a group.
const GROUP: u8 = 0x4E;

impl<'d> Entry<'d> for SubType {
    type Value = SubType;

    ghost Data = { data_of.SubType UnpackedIndex UnpackedIndex };

    ghost form = { (first_byte sub_type_after).read };

    ghost view = { sub_type_of };

    fn read(alloc: Global, cursor: &mut Cursor<'d>) -> Result<SubType, ReadError> {
        let first = cursor.byte()?;
        cursor.sub_type_after(alloc, first)
    }
}

impl<'d> InputEntry<'d> for RecGroup {
    type Value = RecGroup;

    ghost Data = { data_of.Group UnpackedIndex UnpackedIndex };

    ghost form = { group.read };

    ghost view = { group_of };

    ghost of_section = { plain.groups_of_section };

    ghost no_customs = { λ name bytes. refl };

    fn in_payload<'f>(payload: &'f Payload<'d>) -> &'f [RecGroup] {
        match payload {
            Payload::Types(groups) => groups.as_slice(),
            _ => &[],
        }
    }

    #[tactic(auto, using(crate::proofs::Listed::none_there))]
    fn in_input(entries: InputEntries<'d>) -> InputVector<'d> {
        match entries {
            InputEntries::Types(groups) => groups,
            _ => InputVector::none(),
        }
    }

    fn none(alloc: Global) -> RecGroup {
        RecGroup {
            types: Vec::new(alloc),
        }
    }

    /// A subtype alone, or the members of a group.
    #[tactic(auto, unfolding(crate::specs::TypeRows::group))]
    fn read_into(
        group: &mut RecGroup,
        alloc: Global,
        cursor: &mut Cursor<'d>,
    ) -> Result<(), ReadError> {
        let first = cursor.byte()?;
        if first == GROUP {
            return cursor.vector_into::<SubType>(alloc, &mut group.types);
        }
        let sub_type = cursor.sub_type_after(alloc, first)?;
        group.types.clear();
        group.types.reserve_exact(1)?;
        group.types.push(sub_type)?;
        Ok(())
    }

    #[tactic(auto, unfolding(crate::specs::Reading::rest_at))]
    fn pass(group: &mut RecGroup, alloc: Global, cursor: &mut Cursor<'d>) -> Result<(), ReadError> {
        Self::read_into(group, alloc, cursor)
    }
}

impl<'d> Cursor<'d> {
    /// The types of parameters. Number types are read in a run where the first type is one.
    #[inline(always)]
    fn params(&mut self, alloc: Global) -> Result<Vec<ValType>, ReadError>
        ensures { Reads (vector_at value_type.read) (λ v. v.items) self.old.rest.now self.new.rest.now result }
    {
        let first = self.rest.get(1).copied().unwrap_or(0);
        if first >= FIRST_NUMBER_TYPE {
            return self.value_types(alloc);
        }
        self.vector::<ValType>(alloc)
    }

    /// The types of parameters and of results.
    #[tactic(auto, unfolding(crate::specs::TypeRows::function_type))]
    fn function_type(&mut self, alloc: Global) -> Result<CompositeInnerType, ReadError>
        ensures { Reads function_type.read composite_of self.old.rest.now self.new.rest.now result }
    {
        let params = self.params(alloc)?;
        let results = self.vector::<ValType>(alloc)?;
        Ok(CompositeInnerType::Func(FuncType { params, results }))
    }

    /// What follows the first byte of a composite type.
    #[tactic(auto, unfolding(crate::specs::TypeRows::composite_after))]
    fn composite_after(&mut self, alloc: Global, first: u8) -> Result<CompositeInnerType, ReadError>
        ensures { Reads (composite_after first).read composite_of self.old.rest.now self.new.rest.now result }
    {
        match first {
            FUNCTION => self.function_type(alloc),
            STRUCT => Ok(CompositeInnerType::Struct(self.vector::<FieldType>(alloc)?)),
            ARRAY => Ok(CompositeInnerType::Array(self.field_type()?)),
            CONTINUATION => {
                let index = self.non_negative_s33()?;
                Ok(CompositeInnerType::Cont(UnpackedIndex::Module(index)))
            }
            SHARED => Err(ReadError::Unsupported(What::Shared)),
            _ => Err(ReadError::Malformed),
        }
    }

    /// The supertypes of a type, of which there may be one.
    #[tactic(auto, unfolding(crate::specs::TypeRows::supertype))]
    fn supertype(&mut self) -> Result<Option<UnpackedIndex>, ReadError>
        ensures { Reads supertype.read (λ x. x) self.old.rest.now self.new.rest.now result }
    {
        match self.u32()? {
            0 => Ok(None),
            1 => Ok(Some(UnpackedIndex::Module(self.u32()?))),
            _ => Err(ReadError::Unsupported(What::Supertypes)),
        }
    }

    /// The supertypes of a type, and then its composite type.
    #[tactic(auto, unfolding(crate::specs::TypeRows::with_supertype))]
    fn with_supertype(&mut self, alloc: Global, is_final: bool) -> Result<SubType, ReadError>
        ensures { Reads (with_supertype is_final).read sub_type_of self.old.rest.now self.new.rest.now result }
    {
        let supertype = self.supertype()?;
        let first = self.byte()?;
        let composite = self.composite_after(alloc, first)?;
        Ok(SubType {
            is_final,
            supertype,
            composite,
        })
    }

    /// What follows the first byte of a subtype; a composite type alone is final and has no supertype.
    #[tactic(auto, unfolding(crate::specs::TypeRows::sub_type_after))]
    fn sub_type_after(&mut self, alloc: Global, first: u8) -> Result<SubType, ReadError>
        ensures { Reads (sub_type_after first).read sub_type_of self.old.rest.now self.new.rest.now result }
    {
        match first {
            OPEN => self.with_supertype(alloc, false),
            FINAL => self.with_supertype(alloc, true),
            _ => {
                let composite = self.composite_after(alloc, first)?;
                Ok(SubType {
                    is_final: true,
                    supertype: None,
                    composite,
                })
            }
        }
    }
}
