//! Modules (core specification, 5.5, modules).

ghost use Rattle.std.specs.Prelude.{◌≡◌, ◌↔◌, ◌^◌, ◌<◌, ◌≤◌, length, map, IfOk, Err};
ghost use Rattle.std.specs.List.{flat_map};
ghost use Rattle.wasm_spec.specs.declared.operators.What.{What};
ghost use Rattle.wasm_spec.specs.Module.{Module, HasFewEntries, groups};
ghost use Rattle.wasm_spec.specs.Grammar.{Spells, Stops};
ghost use Rattle.wasm_spec.specs.Sizes.{HasShortTypes};
ghost use Rattle.wasm_spec.specs.Interfaces.{HasNoInterfaceTypes};
ghost use Rattle.form_reader.specs.Views.{module_of, payload_of};
ghost use Rattle.form_reader.specs.Input.{sections_of_part, input_module_of, HasGroups, AddsGroups};
ghost use Rattle.form_reader.specs.Outcomes.{ReadsAs, ReadsInputAs};
ghost use Rattle.form_reader.specs.Reading.{Gives};
ghost use Rattle.form_reader.specs.ReadingSections.{is_component as spec_is_component, module_at};

use crate::error::ReadError;
use crate::group_sink::{GroupSink, NoSink};
use crate::input::{InputForm, InputPart};
use crate::sections::sections;
use crate::{Form, Payload};
use std::alloc::{AllocError, Global};
use wasm_spec::What;

/// Input of this many bytes, 2^30, and of more is too large.
pub const MAX_MODULE_SIZE: usize = 1073741824;

/// The first bytes of modules and components.
const MAGIC: [u8; 4] = [0x00, 0x61, 0x73, 0x6D];

/// Those bytes, and the version of modules.
pub const HEADER: [u8; 8] = [0x00, 0x61, 0x73, 0x6D, 0x01, 0x00, 0x00, 0x00];

/// The end of a component's version.
const COMPONENT_LAYER: [u8; 2] = [0x01, 0x00];

/// Whether the bytes begin as those of a component, whatever its version.
fn is_component(bytes: &[u8]) -> bool
    ensures { result ≡ spec_is_component bytes.now }
{
    bytes.starts_with(&MAGIC) && bytes.len() > 6 && bytes[6..].starts_with(&COMPONENT_LAYER)
}

/// The sections after the header.
#[tactic(auto, unfolding(crate::specs::ReadingSections::module_at))]
fn parts_of<'d, T: GroupSink>(
    alloc: Global,
    bytes: &'d [u8],
    sink: &mut T,
) -> Result<Vec<InputPart<'d>>, ReadError>
    requires small { length bytes.now < 2 ^ 30 }
    requires taking { HasGroups T.holds sink.old }
    ensures reads { Gives (λ x. flat_map sections_of_part x.items) result (module_at bytes.now) }
    ensures takes { IfOk result (λ parts. AddsGroups T.holds sink.old sink.new (groups (flat_map sections_of_part parts.items))) }
{
    if bytes.starts_with(&HEADER) {
        return sections(alloc, HEADER.len(), &bytes[HEADER.len()..], sink);
    }
    if is_component(bytes) {
        return Err(ReadError::Unsupported(What::Component));
    }
    Err(ReadError::Malformed)
}

/// The sections with all of their entries.
fn collected<'d>(alloc: Global, parts: Vec<InputPart<'d>>) -> Result<Vec<Payload<'d>>, AllocError>
    ensures { IfOk result (λ payloads. map payload_of payloads.items ≡ flat_map sections_of_part parts.entry.items) }
{
    let mut payloads = Vec::with_capacity(alloc, parts.len())?;
    for part in parts {
        part.collect_into(alloc, &mut payloads)?;
    }
    Ok(payloads)
}

/// The module that the bytes spell; its types, functions, tags, globals, segments and custom
/// sections stay in the input. `sink` takes the groups of its types as they are read.
///
/// # Errors
/// Those of `read_module`.
pub fn read_input<'d, T: GroupSink>(
    alloc: Global,
    bytes: &'d [u8],
    sink: &mut T,
) -> Result<InputForm<'d>, ReadError>
    requires { HasGroups T.holds sink.old }
    // What is read is spelled so.
    ensures read { IfOk result (λ form. Spells bytes.now (input_module_of form)) }
    ensures takes { IfOk result (λ form. AddsGroups T.holds sink.old sink.new (groups (input_module_of form))) }
    // Custom sections of interface types are refused.
    ensures no_interface_types { IfOk result (λ form. HasNoInterfaceTypes (input_module_of form)) }
    ensures whole { IfOk result (λ form. form.wasm.now ≡ bytes.now) }
    ensures few { IfOk result (λ form. HasFewEntries (input_module_of form)) }
    ensures short { IfOk result (λ form. HasShortTypes (input_module_of form)) }
    // What is spelled is read, unless memory runs out.
    ensures complete { length bytes.now < 2 ^ 30 → (m : Module) → Spells bytes.now m → HasNoInterfaceTypes m → ReadsInputAs result m }

    ensures too_large { (result ≡ Err ReadError.TooLarge) ↔ (2 ^ 30 ≤ length bytes.now) }
    ensures unsupported { (what : What) → result ≡ Err (ReadError.Unsupported what) → Stops bytes.now what }
    ensures malformed { result ≡ Err ReadError.Malformed → (m : Module) → ¬ Spells bytes.now m }
    ensures stops_nowhere { result ≡ Err ReadError.Malformed → (what : What) → ¬ Stops bytes.now what }
{
    if bytes.len() >= MAX_MODULE_SIZE {
        return Err(ReadError::TooLarge);
    }
    let parts = parts_of(alloc, bytes, sink)?;
    Ok(InputForm { wasm: bytes, parts })
}

/// The module that the bytes spell.
///
/// # Errors
/// `TooLarge` exactly for 2^30 bytes or more; `Unsupported` where reading reaches a spelling that
/// is not supported; `Malformed` where no module is spelled and reading reaches no such spelling.
pub fn read_module<'d>(alloc: Global, bytes: &'d [u8]) -> Result<Form<'d>, ReadError>
    // What is read is spelled so.
    ensures read { IfOk result (λ form. Spells bytes.now (module_of form)) }
    // Custom sections of interface types are refused.
    ensures no_interface_types { IfOk result (λ form. HasNoInterfaceTypes (module_of form)) }
    ensures whole { IfOk result (λ form. form.wasm.now ≡ bytes.now) }
    ensures few { IfOk result (λ form. HasFewEntries (module_of form)) }
    ensures short { IfOk result (λ form. HasShortTypes (module_of form)) }
    // What is spelled is read, unless memory runs out.
    ensures complete { length bytes.now < 2 ^ 30 → (m : Module) → Spells bytes.now m → HasNoInterfaceTypes m → ReadsAs result m }

    ensures too_large { (result ≡ Err ReadError.TooLarge) ↔ (2 ^ 30 ≤ length bytes.now) }
    ensures unsupported { (what : What) → result ≡ Err (ReadError.Unsupported what) → Stops bytes.now what }
    ensures malformed { result ≡ Err ReadError.Malformed → (m : Module) → ¬ Spells bytes.now m }
    ensures stops_nowhere { result ≡ Err ReadError.Malformed → (what : What) → ¬ Stops bytes.now what }
{
    let form = read_input(alloc, bytes, &mut NoSink)?;
    let payloads = collected(alloc, form.parts)?;
    Ok(Form {
        wasm: bytes,
        payloads,
    })
}
