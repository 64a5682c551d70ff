//! Modules whose types, functions, tags, globals, segments and custom sections stay in the input.

ghost use Rattle.std.specs.Prelude.{◌≡◌, ◌++◌, map, IfOk, OnOk};
ghost use Rattle.form_reader.specs.Views.{payload_of};
ghost use Rattle.form_reader.specs.Input.{customs_in, input_payload_of, input_section_of, sections_of_part};

use crate::customs::InputCustoms;
use crate::input_vectors::InputVector;
use crate::type_indices::{DefinedFunction, DefinedTag};
use crate::{DataSegment, Element, GlobalDef, Payload, RecGroup};
use std::alloc::{AllocError, Global};

/// The entries of a section, which stay in the input, by its kind.
#[derive(Clone, Copy)]
pub enum InputEntries<'d> {
    Types(InputVector<'d>),
    Functions(InputVector<'d>),
    Tags(InputVector<'d>),
    Globals(InputVector<'d>),
    Elements(InputVector<'d>),
    Segments(InputVector<'d>),
}

/// A non-custom section: its entries stay in the input, or were read into lists.
#[derive(Drop)]
pub enum InputSection<'d> {
    Input(InputEntries<'d>),
    Read(Payload<'d>),
}

/// Custom sections with no other section between them, which stay in the input, or one non-custom
/// section.
#[derive(Drop)]
pub enum InputPart<'d> {
    Customs(InputCustoms<'d>),
    Section(InputSection<'d>),
}

/// The sections of a module in order; its types, functions, tags, globals, segments and custom
/// sections stay in the input.
///
/// There is at most one non-custom section of each kind, and so at most 27 parts, whatever the
/// input.
#[derive(Drop)]
pub struct InputForm<'d> {
    pub wasm: &'d [u8],
    pub parts: Vec<InputPart<'d>>,
}

impl<'d> InputEntries<'d> {
    /// The section with all of its entries in a list.
    fn collected(self, alloc: Global) -> Result<Payload<'d>, AllocError>
        ensures { IfOk result (λ payload. payload_of payload ≡ input_payload_of self.entry) }
    {
        match self {
            InputEntries::Types(groups) => {
                Ok(Payload::Types(groups.collected::<RecGroup>(alloc)?))
            }
            InputEntries::Functions(functions) => {
                Ok(Payload::Functions(functions.collected::<DefinedFunction>(alloc)?))
            }
            InputEntries::Tags(tags) => { Ok(Payload::Tags(tags.collected::<DefinedTag>(alloc)?)) }
            InputEntries::Globals(globals) => {
                Ok(Payload::Globals(globals.collected::<GlobalDef>(alloc)?))
            }
            InputEntries::Elements(elements) => {
                Ok(Payload::Elements(elements.collected::<Element>(alloc)?))
            }
            InputEntries::Segments(segments) => {
                Ok(Payload::Segments(segments.collected::<DataSegment<'d>>(alloc)?))
            }
        }
    }
}

impl<'d> InputSection<'d> {
    /// The section with all of its entries.
    pub(crate) fn collected(self, alloc: Global) -> Result<Payload<'d>, AllocError>
        ensures { IfOk result (λ payload. payload_of payload ≡ input_section_of self.entry) }
    {
        match self {
            InputSection::Input(entries) => entries.collected(alloc),
            InputSection::Read(payload) => Ok(payload),
        }
    }
}

impl<'d> InputPart<'d> {
    /// Adds the sections with all of their entries.
    pub(crate) fn collect_into(
        self,
        alloc: Global,
        payloads: &mut Vec<Payload<'d>>,
    ) -> Result<(), AllocError>
        ensures { OnOk result (map payload_of payloads.new.items ≡ map payload_of payloads.old.items ++ sections_of_part self.entry) }
    {
        match self {
            InputPart::Customs(run) => add_customs(payloads, run),
            InputPart::Section(section) => {
                payloads.push(section.collected(alloc)?)?;
                Ok(())
            }
        }
    }
}

/// Adds custom sections.
fn add_customs<'d>(payloads: &mut Vec<Payload<'d>>, run: InputCustoms<'d>) -> Result<(), AllocError>
    ensures { OnOk result (map payload_of payloads.new.items ≡ map payload_of payloads.old.items ++ customs_in run.entry) }
{
    for custom in run {
        payloads.push(Payload::Custom(custom))?;
    }
    Ok(())
}
