//! Whether a module has debug information, which is not read.

ghost use Rattle.std.specs.Prelude.{◌≡◌};
ghost use Rattle.std.specs.List.{list_any};
ghost use Rattle.form_rules.specs.Source.{source_module};
ghost use Rattle.form_rules.specs.Singles.{single_of};
ghost use Rattle.module_customs.specs.DebugSections.{is_debug_section};

use custom_sections::is_debug_name;
use form_reader::Payload;
use form_rules::{ModuleSource, Single, singles_of};

/// Whether a custom section of a module holds debug information, by its name (core specification,
/// appendix, custom sections; the names are those of the DWARF sections).
pub fn has_debug_section(source: ModuleSource<'_, '_>) -> bool
    ensures { result ≡ list_any is_debug_section (source_module source.entry) }
{
    for section in singles_of(source) {
        if is_debug_section(section) {
            return true;
        }
    }
    false
}

/// Whether a section holds debug information, by its name.
fn is_debug_section(section: Single<'_, '_>) -> bool
    ensures { result ≡ is_debug_section (single_of section.entry) }
{
    match section {
        Single::Read(Payload::Custom(custom)) => is_debug_name(custom.name),
        Single::Custom { name, .. } => is_debug_name(name),
        _ => false,
    }
}
