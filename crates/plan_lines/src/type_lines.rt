//! The lines of interned types, and of the types of the type section.

ghost use Rattle.std.specs.Prelude.{◌≡◌, ◌++◌, OnOk};
ghost use Rattle.std.specs.List.{flat_map};
ghost use Rattle.plan_lines.specs.Numbers.{keyed_lines};
ghost use Rattle.plan_lines.specs.TypeLines.{trampoline_text, type_line, listed_number, declared_line, signature_line};

use crate::numbers::{append_between, append_named, append_numbers};
use crate::text::Text;
use crate::type_words::append_subtype;
use entity_map::{EntityRef, OutOfMemory, PrimaryMap};
use wasm_index::{ModuleInternedTypeIndex, TypeIndex};
use wasm_types::{EngineOrModuleTypeIndex, WasmSubType};

fn append_trampoline(
    text: &mut Text,
    trampoline: Option<ModuleInternedTypeIndex>,
) -> Result<(), OutOfMemory>
    ensures { OnOk result (text.new ≡ text.old ++ trampoline_text trampoline) }
{
    match trampoline {
        Some(trampoline) => append_named(text, " trampoline", trampoline.as_u32()),
        None => Ok(()),
    }
}

/// Appends the line of an interned type.
///
/// # Errors
/// `OutOfMemory`; the text may then end anywhere.
#[tactic(auto, unfolding(crate::specs::TypeLines::type_line))]
pub fn append_type(
    text: &mut Text,
    index: ModuleInternedTypeIndex,
    ty: &WasmSubType,
    trampoline: Option<ModuleInternedTypeIndex>,
) -> Result<(), OutOfMemory>
    ensures { OnOk result (text.new ≡ text.old ++ type_line index ty.now trampoline) }
{
    append_between(text, "type ", index.as_u32().into(), " ")?;
    append_subtype(text, ty)?;
    append_trampoline(text, trampoline)?;
    text.push_byte(b'\n')
}

/// The number of an index, whichever list it indexes.
pub(crate) fn listed_number(index: EngineOrModuleTypeIndex) -> u32
    ensures { result ≡ listed_number index }
{
    match index {
        EngineOrModuleTypeIndex::Engine(index) => index.as_u32(),
        EngineOrModuleTypeIndex::Module(index) => index.as_u32(),
        EngineOrModuleTypeIndex::RecGroup(index) => index.as_u32(),
    }
}

/// Appends the lines of the types of the type section.
///
/// # Errors
/// `OutOfMemory`; the text may then end anywhere.
pub fn append_declared(
    text: &mut Text,
    types: &PrimaryMap<TypeIndex, EngineOrModuleTypeIndex>,
) -> Result<(), OutOfMemory>
    ensures { OnOk result (text.new ≡ text.old ++ keyed_lines declared_line types.now) }
{
    for (index, interned) in types.iter() {
        append_numbers(
            text,
            "declared",
            &[index.as_u32().into(), listed_number(*interned).into()],
        )?;
    }
    Ok(())
}

/// Appends the lines of the signatures of functions to which references are made.
///
/// # Errors
/// `OutOfMemory`; the text may then end anywhere.
pub fn append_signatures(
    text: &mut Text,
    signatures: &[ModuleInternedTypeIndex],
) -> Result<(), OutOfMemory>
    ensures { OnOk result (text.new ≡ text.old ++ flat_map signature_line signatures.now) }
{
    for signature in signatures {
        append_numbers(text, "signature", &[signature.as_u32().into()])?;
    }
    Ok(())
}
