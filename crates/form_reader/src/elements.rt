//! Element segments (core specification, 5.5, element section).

ghost use Rattle.std.specs.Prelude.{refl};
ghost use Rattle.wasm_spec.specs.Module as plain;
ghost use Rattle.form_reader.specs.Views.{element_kind_of, element_of};
ghost use Rattle.form_reader.specs.Reading.{Reads};
ghost use Rattle.form_reader.specs.SectionRows.{functions_as, expressions_as, after_function_kind, active_in, active_in_named, flagged_element, element_segment};

use crate::cursor::Cursor;
use crate::error::ReadError;
use crate::input::InputEntries;
use crate::input_vectors::{InputEntry, InputVector};
use crate::offsets::flagged_constant;
use crate::type_indices::DefinedFunction;
use crate::vectors::IndexEntry;
use crate::{ConstExpr, Element, ElementItems, ElementKind, Payload};
use std::alloc::Global;
use wasm_spec::{AbstractHeapType, HeapType, RefType};

/// The kind of elements that are functions.
const FUNCTION_KIND: u8 = 0x00;

/// The type of elements that are given by expressions, where none is spelled: a nullable reference
/// to a function.
const FUNCREF: RefType = RefType {
    nullable: true,
    heap: HeapType::Abstract(AbstractHeapType::Func),
};

impl<'d> InputEntry<'d> for Element {
    type Value = Element;

    ghost Data = { plain.Element };

    ghost form = { element_segment.read };

    ghost view = { element_of };

    ghost of_section = { plain.elements_of_section };

    ghost no_customs = { λ name bytes. refl };

    fn in_payload<'f>(payload: &'f Payload<'d>) -> &'f [Element] {
        match payload {
            Payload::Elements(elements) => elements.as_slice(),
            _ => &[],
        }
    }

    #[tactic(auto, using(crate::proofs::Listed::none_there))]
    fn in_input(entries: InputEntries<'d>) -> InputVector<'d> {
        match entries {
            InputEntries::Elements(elements) => elements,
            _ => InputVector::none(),
        }
    }

    fn none(alloc: Global) -> Element {
        Element {
            kind: ElementKind::Declared,
            items: ElementItems::Functions(Vec::new(alloc)),
        }
    }

    #[tactic(auto, unfolding(crate::specs::SectionRows::element_segment))]
    fn read_into(
        element: &mut Element,
        alloc: Global,
        cursor: &mut Cursor<'d>,
    ) -> Result<(), ReadError> {
        let flag = cursor.u32()?;
        cursor.flagged_element(alloc, flag, element)
    }

    #[tactic(auto, unfolding(crate::specs::Reading::rest_at, crate::specs::SectionRows::element_segment, crate::specs::SectionRows::flagged_element, crate::specs::SectionRows::active_in, crate::specs::SectionRows::functions_as))]
    fn pass(
        element: &mut Element,
        alloc: Global,
        cursor: &mut Cursor<'d>,
    ) -> Result<(), ReadError> {
        match flagged_constant(cursor.rest) {
            Some((_, rest)) => {
                cursor.rest = rest;
                // An index of a function has the form of an index of its type.
                cursor.counted_entries::<DefinedFunction>(alloc)?;
                Ok(())
            }
            None => Self::read_into(element, alloc, cursor),
        }
    }
}

// Each of these overwrites a segment that is no longer needed, and reuses its lists.
impl<'d> Cursor<'d> {
    /// An element segment, after its flag.
    #[tactic(auto, unfolding(crate::specs::SectionRows::flagged_element))]
    fn flagged_element(
        &mut self,
        alloc: Global,
        flag: u32,
        element: &mut Element,
    ) -> Result<(), ReadError>
        ensures { Reads (flagged_element flag).read (λ u. element_of element.new) self.old.rest.now self.new.rest.now result }
    {
        match flag {
            0 => {
                self.active(alloc, None, &mut element.kind)?;
                self.functions(alloc, element)
            }
            1 => self.functions_of(alloc, ElementKind::Passive, element),
            2 => {
                self.active_in_table(alloc, &mut element.kind)?;
                self.kind_and_functions(alloc, element)
            }
            3 => self.functions_of(alloc, ElementKind::Declared, element),
            4 => {
                self.active(alloc, None, &mut element.kind)?;
                self.typed_expressions(alloc, FUNCREF, element)
            }
            5 => {
                let ty = self.reference_type()?;
                self.expressions_of(alloc, ElementKind::Passive, ty, element)
            }
            6 => {
                self.active_in_table(alloc, &mut element.kind)?;
                let ty = self.reference_type()?;
                self.typed_expressions(alloc, ty, element)
            }
            7 => {
                let ty = self.reference_type()?;
                self.expressions_of(alloc, ElementKind::Declared, ty, element)
            }
            _ => Err(ReadError::Malformed),
        }
    }

    /// The offset of a segment that is written to a table.
    #[inline(always)]
    #[tactic(auto, unfolding(crate::specs::SectionRows::active_in))]
    fn active(
        &mut self,
        alloc: Global,
        table_index: Option<u32>,
        kind: &mut ElementKind,
    ) -> Result<(), ReadError>
        ensures { Reads (active_in table_index).read (λ u. element_kind_of kind.new) self.old.rest.now self.new.rest.now result }
    {
        if let ElementKind::Active {
            table_index: table,
            offset,
        } = kind
        {
            *table = table_index;
            return self.offset_into(&mut offset.ops);
        }
        let offset = self.expression(alloc)?;
        *kind = ElementKind::Active {
            table_index,
            offset,
        };
        Ok(())
    }

    /// The table and the offset of a segment that is written to it.
    #[tactic(auto, unfolding(crate::specs::SectionRows::active_in_named))]
    fn active_in_table(&mut self, alloc: Global, kind: &mut ElementKind) -> Result<(), ReadError>
        ensures { Reads active_in_named.read (λ u. element_kind_of kind.new) self.old.rest.now self.new.rest.now result }
    {
        let table_index = self.u32()?;
        self.active(alloc, Some(table_index), kind)
    }

    /// Items that are functions, by their indices.
    #[inline(always)]
    #[tactic(auto, unfolding(crate::specs::SectionRows::functions_as))]
    fn functions(&mut self, alloc: Global, element: &mut Element) -> Result<(), ReadError>
        ensures { Reads (functions_as (element_kind_of element.old.kind)).read (λ u. element_of element.new)
            self.old.rest.now self.new.rest.now result }
    {
        if let ElementItems::Functions(indices) = &mut element.items {
            self.vector_into::<IndexEntry>(alloc, indices)?;
            return Ok(());
        }
        let indices = self.vector::<IndexEntry>(alloc)?;
        element.items = ElementItems::Functions(indices);
        Ok(())
    }

    /// The kind of functions, and then their indices.
    fn kind_and_functions(&mut self, alloc: Global, element: &mut Element) -> Result<(), ReadError>
        ensures { Reads (after_function_kind (functions_as (element_kind_of element.old.kind))).read (λ u. element_of element.new)
            self.old.rest.now self.new.rest.now result }
    {
        match self.byte()? {
            FUNCTION_KIND => self.functions(alloc, element),
            _ => Err(ReadError::Malformed),
        }
    }

    /// The functions of a segment of this kind.
    fn functions_of(
        &mut self,
        alloc: Global,
        kind: ElementKind,
        element: &mut Element,
    ) -> Result<(), ReadError>
        ensures { Reads (after_function_kind (functions_as (element_kind_of kind))).read (λ u. element_of element.new)
            self.old.rest.now self.new.rest.now result }
    {
        element.kind = kind;
        self.kind_and_functions(alloc, element)
    }

    /// Items of a type, by expressions.
    #[tactic(auto, unfolding(crate::specs::SectionRows::expressions_as))]
    fn typed_expressions(
        &mut self,
        alloc: Global,
        ty: RefType,
        element: &mut Element,
    ) -> Result<(), ReadError>
        ensures { Reads (expressions_as (element_kind_of element.old.kind) ty).read (λ u. element_of element.new)
            self.old.rest.now self.new.rest.now result }
    {
        let list = self.vector::<ConstExpr>(alloc)?;
        element.items = ElementItems::Expressions(ty, list);
        Ok(())
    }

    /// The items of a segment of this kind, of a type and by expressions.
    fn expressions_of(
        &mut self,
        alloc: Global,
        kind: ElementKind,
        ty: RefType,
        element: &mut Element,
    ) -> Result<(), ReadError>
        ensures { Reads (expressions_as (element_kind_of kind) ty).read (λ u. element_of element.new) self.old.rest.now self.new.rest.now result }
    {
        element.kind = kind;
        self.typed_expressions(alloc, ty, element)
    }
}
