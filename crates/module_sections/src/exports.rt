//! What a module exports.

ghost use Rattle.std.specs.Prelude.{◌≡◌, ℕ, ◌<◌, ◌++◌, ◌∷◌, [], List, length, map, All, IfOk, OnOk};
ghost use Rattle.std.specs.List.{flat_map};
ghost use Rattle.wasm_spec.specs.Module.{exports_of_section, HasFewEntries};
ghost use Rattle.wasm_spec.specs.Module as plain;
ghost use Rattle.form_reader.specs.Views.{export_of};
ghost use Rattle.form_rules.specs.Source.{source_module};
ghost use Rattle.form_rules.specs.Names.{exported_names};
ghost use Rattle.module_sections.specs.Entities.{entity_at, exported_entities, resolved_export};
ghost use Rattle.module_sections.specs.Exported.{HasExportableIndex, entered, exported_functions};
ghost use Rattle.module_sections.specs.EscapeLog.{after_escapes};
ghost use Rattle.module_sections.specs.Pooled.{HasText};

use crate::escapes::Escaping;
use entity_map::{Atom, EntityRef, OutOfMemory, StringPool};
use form_reader::Export;
use form_rules::{ModuleSource, count_entries, entries_of};
use indexmap::IndexMap;
use std::alloc::Global;
use wasm_index::{FuncIndex, GlobalIndex, MemoryIndex, TableIndex, TagIndex};
use wasm_spec::ExternalKind;
use wasm_types::EntityIndex;

/// What is exported, in order; exported functions are recorded. The names are the first texts of
/// the pool.
pub(crate) fn convert_exports(
    alloc: Global,
    source: ModuleSource<'_, '_>,
    strings: &StringPool,
    escaping: &mut Escaping,
) -> Result<IndexMap<Atom, EntityIndex>, OutOfMemory>
    requires few { HasFewEntries (source_module source) }
    requires names { (others : List (List ℕ)) × (strings.now ≡ exported_names (flat_map exports_of_section (source_module source)) ++ others) }
    requires in_range { All (HasExportableIndex escaping.old.count) (flat_map exports_of_section (source_module source)) }
    ensures exports { IfOk result (λ es. map (resolved_export strings.now) es.entries
        ≡ exported_entities (flat_map exports_of_section (source_module source.entry))) }
    ensures noted { OnOk result (escaping.new
        ≡ after_escapes escaping.old (exported_functions (flat_map exports_of_section (source_module source.entry)))) }
    ensures pooled { IfOk result (λ es. All (λ e. HasText strings.now e.0) es.entries) }
{
    // An atom is a number that this crate chooses, and no name affects it: the map needs no seed.
    let mut exports = IndexMap::new(alloc);
    exports.reserve(count_entries::<Export<'_>>(source))?;
    for export in entries_of::<Export<'_>>(source) {
        add_export(&mut exports, strings, export)?;
        note_function(escaping, export)?;
    }
    Ok(exports)
}

/// Adds an export to those before, under the atom of its position.
fn add_export(
    entries: &mut IndexMap<Atom, EntityIndex>,
    strings: &StringPool,
    export: &Export<'_>,
) -> Result<(), OutOfMemory>
    requires room { length entries.old.entries < length strings.now }
    requires in_range { export.now.index < u32.MAX }
    ensures { OnOk result ((before : List plain.Export) → entries.old.entries ≡ entered before
        → entries.new.entries ≡ entered (before ++ export_of export.now ∷ [])) }
{
    let name = strings.atom(entries.len());
    entries.insert(name, exported_entity(export))?;
    Ok(())
}

/// The entity that is exported.
fn exported_entity(export: &Export<'_>) -> EntityIndex
    requires { export.now.index < u32.MAX }
    ensures { result ≡ entity_at export.now.kind export.now.index }
{
    match export.kind {
        ExternalKind::Func => EntityIndex::Function(FuncIndex::from_u32(export.index)),
        ExternalKind::Table => EntityIndex::Table(TableIndex::from_u32(export.index)),
        ExternalKind::Memory => EntityIndex::Memory(MemoryIndex::from_u32(export.index)),
        ExternalKind::Global => EntityIndex::Global(GlobalIndex::from_u32(export.index)),
        ExternalKind::Tag => EntityIndex::Tag(TagIndex::from_u32(export.index)),
    }
}

/// Records what is exported, where it is a function.
fn note_function(escaping: &mut Escaping, export: &Export<'_>) -> Result<(), OutOfMemory>
    requires { HasExportableIndex escaping.old.count (export_of export.now) }
    ensures { OnOk result (escaping.new ≡ after_escapes escaping.old (exported_functions (export_of export.now ∷ []))) }
{
    match export.kind {
        ExternalKind::Func => escaping.note_escape(FuncIndex::from_u32(export.index)),
        _ => Ok(()),
    }
}
