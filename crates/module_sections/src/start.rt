//! The start function.

ghost use Rattle.std.specs.Prelude.{◌≡◌, ◌<◌, All, slice_get};
ghost use Rattle.std.specs.List.{flat_map};
ghost use Rattle.std.specs.Option.{option_map, option_to_list};
ghost use Rattle.wasm_spec.specs.Module.{starts_of_section};
ghost use Rattle.form_rules.specs.Source.{source_module, sections_in};
ghost use Rattle.wasm_index.specs.Index.{number_of};

use entity_map::EntityRef;
use form_reader::Payload;
use form_rules::{ModuleSource, Section, sections_of};
use wasm_index::FuncIndex;

/// The start function of a module that has one (core specification, 2.5, start function).
pub(crate) fn start_function(source: ModuleSource<'_, '_>) -> Option<FuncIndex>
    requires { All (λ f. f < u32.MAX) (flat_map starts_of_section (source_module source)) }
    ensures { option_map number_of result ≡ slice_get (flat_map starts_of_section (source_module source.entry)) 0 }
{
    for section in sections_of(source) {
        if let Some(function) = start_in(section) {
            return Some(FuncIndex::from_u32(function));
        }
    }
    None
}

/// The start function that a section names.
fn start_in(section: Section<'_, '_>) -> Option<u32>
    ensures { option_to_list result ≡ flat_map starts_of_section (sections_in section.entry) }
{
    match section {
        Section::Read(Payload::Start(function)) => Some(*function),
        Section::Customs(_) => None,
        _ => None,
    }
}
