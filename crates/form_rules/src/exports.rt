//! Exports (core specification, 3.5, exports and modules).

ghost use Rattle.std.specs.Prelude.{◌≡◌, ◌↔◌, All, IsTrue};
ghost use Rattle.std.specs.List.{flat_map};
ghost use Rattle.wasm_spec.specs.Module.{exports_of_section};
ghost use Rattle.form_reader.specs.Views.{export_of};
ghost use Rattle.rule_spec.specs.Indices.{IsInSpace, space_size};
ghost use Rattle.rule_spec.specs.Rules.{AreExported, AreDistinct};
ghost use Rattle.form_rules.specs.Source.{source_module};
ghost use Rattle.form_rules.specs.Views.{lists_of};

use crate::{Lists, entries_of};
use form_reader::Export;
use wasm_spec::ExternalKind;

/// Whether each export names an entry of its index space, and no two have one name, which was
/// checked before.
pub fn exports_hold(lists: &Lists<'_, '_>, distinct: bool) -> bool
    requires { IsTrue distinct ↔ AreDistinct (lists_of lists.now).exports }
    ensures { IsTrue result ↔ AreExported (lists_of lists.now) }
{
    distinct && in_space_hold(lists)
}

/// Whether each export names an entry of its index space.
fn in_space_hold(lists: &Lists<'_, '_>) -> bool
    ensures { IsTrue result ↔ All (IsInSpace (lists_of lists.now)) (flat_map exports_of_section (source_module lists.now.source)) }
{
    entries_of::<Export<'_>>(lists.source).all(|export| is_in_space(lists, export))
}

/// Whether an export names an entity that exists.
pub fn is_in_space(lists: &Lists<'_, '_>, export: &Export<'_>) -> bool
    ensures { IsTrue result ↔ IsInSpace (lists_of lists.now) (export_of export.now) }
{
    (export.index as usize) < space_size(lists, export.kind)
}

/// How many entries the index space of a kind has.
fn space_size(lists: &Lists<'_, '_>, kind: ExternalKind) -> usize
    ensures { result ≡ space_size (lists_of lists.now) kind }
{
    match kind {
        ExternalKind::Func => lists.spaces.functions.len(),
        ExternalKind::Table => lists.spaces.table_types.len(),
        ExternalKind::Memory => lists.spaces.memories.len(),
        ExternalKind::Global => lists.spaces.global_types.len(),
        ExternalKind::Tag => lists.spaces.tags.len(),
    }
}
