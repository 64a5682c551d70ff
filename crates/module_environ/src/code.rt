//! Function bodies.

ghost use Rattle.std.specs.Prelude.{◌≡◌, ◌+◌, ◌<◌, ◌^◌, ◌++◌, length, map, IfOk, OnOk};
ghost use Rattle.std.specs.List.{flat_map};
ghost use Rattle.wasm_spec.specs.Module.{bodies_of_section, HasFewEntries};
ghost use Rattle.std.specs.Option.{option_to_list};
ghost use Rattle.form_reader.specs.Views.{body_of};
ghost use Rattle.form_reader.specs.Input.{sections_of_part, input_module_of};
ghost use Rattle.module_environ.specs.Translation.{code_places, first_or_zero};

use entity_map::{OutOfMemory, PrimaryMap};
use form_reader::{FunctionBody, InputForm, InputPart, InputSection, Payload};
use init_plan::FunctionBodyData;
use std::alloc::Global;
use wasm_index::DefinedFuncIndex;

/// The bodies of the defined functions, and the offset of the code section's contents, 0 without
/// one.
pub(crate) fn take_bodies<'d>(
    alloc: Global,
    form: InputForm<'d>,
) -> Result<(PrimaryMap<DefinedFuncIndex, FunctionBodyData<'d>>, u64), OutOfMemory>
    requires few { HasFewEntries (input_module_of form) }
    ensures bodies { IfOk result (λ r. map (λ input. body_of input.body) r.0 ≡ flat_map bodies_of_section (input_module_of form.entry)) }
    ensures place { IfOk result (λ r. r.1 ≡ first_or_zero (flat_map code_places (input_module_of form.entry))) }
{
    let mut bodies = PrimaryMap::new(alloc);
    let mut place = None;
    for part in form.parts {
        place = place.or(code_place(&part));
        add_bodies(&mut bodies, bodies_in(alloc, part))?;
    }
    Ok((bodies, place.unwrap_or(0)))
}

fn code_place(part: &InputPart<'_>) -> Option<u64>
    ensures { option_to_list result ≡ flat_map code_places (sections_of_part part.now) }
{
    match part {
        InputPart::Section(InputSection::Read(Payload::Code { offset, .. })) => Some(*offset),
        InputPart::Customs(_) => None,
        _ => None,
    }
}

fn bodies_in<'d>(alloc: Global, part: InputPart<'d>) -> Vec<FunctionBody<'d>>
    ensures { map body_of result.items ≡ flat_map bodies_of_section (sections_of_part part.entry) }
{
    match part {
        InputPart::Section(InputSection::Read(Payload::Code { bodies, .. })) => bodies,
        InputPart::Customs(_) => Vec::new(alloc),
        _ => Vec::new(alloc),
    }
}

fn add_bodies<'d>(
    bodies: &mut PrimaryMap<DefinedFuncIndex, FunctionBodyData<'d>>,
    more: Vec<FunctionBody<'d>>,
) -> Result<(), OutOfMemory>
    requires { length bodies.old + length more.items < 2 ^ 30 }
    ensures { OnOk result (map (λ input. body_of input.body) bodies.new
        ≡ map (λ input. body_of input.body) bodies.old ++ map body_of more.entry.items) }
{
    bodies.reserve(more.len())?;
    for body in more {
        bodies.push(FunctionBodyData { body })?;
    }
    Ok(())
}
