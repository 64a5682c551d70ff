//! What a module imports.

ghost use Rattle.std.specs.Prelude.{◌≡◌, ◌+◌, ◌-◌, ◌<◌, ◌^◌, [], length, map, All, IfOk, OnOk};
ghost use Rattle.wasm_spec.specs.Module as plain;
ghost use Rattle.wasm_spec.specs.Module.{HasFewEntries};
ghost use Rattle.form_reader.specs.Views.{import_of};
ghost use Rattle.form_rules.specs.Source.{source_module};
ghost use Rattle.form_rules.specs.Names.{import_names, imported_names};
ghost use Rattle.wasm_index.specs.Index.{index_of};
ghost use Rattle.module_sections.specs.Entities.{imported_entities, resolved_import};
ghost use Rattle.module_sections.specs.Imported.{AreCounted, HaveIndices, counted, next_entity};
ghost use Rattle.module_sections.specs.Pooled.{with_texts, HasTexts};

use entity_map::{EntityRef, OutOfMemory, StringPool};
use form_reader::Import;
use form_rules::{ModuleSource, entries_of};
use std::alloc::Global;
use wasm_index::Index;
use wasm_module::Initializer;
use wasm_spec::TypeRef;
use wasm_types::EntityIndex;

/// How many entities of each kind are imported.
#[derive(Clone, Copy)]
pub(crate) struct ImportCounts {
    pub functions: u32,
    pub tables: u32,
    pub memories: u32,
    pub globals: u32,
    pub tags: u32,
}

impl ImportCounts {
    /// The counts of no import.
    fn none() -> Self
        ensures { AreCounted [] result }
    {
        ImportCounts {
            functions: 0,
            tables: 0,
            memories: 0,
            globals: 0,
            tags: 0,
        }
    }

    /// Counts an import of a type, and gives the entity that it brings.
    fn next(&mut self, ty: TypeRef) -> EntityIndex
        requires { HaveIndices self.old }
        ensures entity { result ≡ next_entity self.old ty }
        ensures counts { self.new ≡ counted self.old ty }
    {
        match ty {
            TypeRef::Func(_) => EntityIndex::Function(take_next(&mut self.functions)),
            TypeRef::Table(_) => EntityIndex::Table(take_next(&mut self.tables)),
            TypeRef::Memory(_) => EntityIndex::Memory(take_next(&mut self.memories)),
            TypeRef::Global(_) => EntityIndex::Global(take_next(&mut self.globals)),
            TypeRef::Tag(_) => EntityIndex::Tag(take_next(&mut self.tags)),
        }
    }
}

/// The index after so many, which is counted.
fn take_next<Space>(count: &mut u32) -> Index<Space>
    requires { count.old < u32.MAX }
    ensures index { result ≡ index_of count.old }
    ensures count { count.new ≡ count.old + 1 }
{
    let index = Index::from_u32(*count);
    *count += 1;
    index
}

/// What is imported, in order; the names are added to the pool.
pub(crate) fn convert_imports(
    alloc: Global,
    source: ModuleSource<'_, '_>,
    strings: &mut StringPool,
) -> Result<(Vec<Initializer>, ImportCounts), OutOfMemory>
    requires few { HasFewEntries (source_module source) }
    requires few_texts { length strings.old < 2 ^ 30 }
    ensures imports { IfOk result (λ r. map (resolved_import strings.new) r.0.items ≡ imported_entities (source_module source.entry)) }
    ensures counts { IfOk result (λ r. AreCounted (plain.imports (source_module source.entry)) r.1) }
    ensures pool { OnOk result (strings.new ≡ with_texts strings.old (imported_names (source_module source.entry))) }
    ensures pooled { IfOk result (λ r. All (HasTexts strings.new) r.0.items) }
{
    let mut initializers = Vec::new(alloc);
    let mut counts = ImportCounts::none();
    // The borrow checker wants the types on the way to an index by name.
    let _named: Option<EntityIndex> = None;
    for import in entries_of::<Import<'_>>(source) {
        let initializer = convert_import(&mut counts, strings, import)?;
        initializers.push(initializer)?;
    }
    Ok((initializers, counts))
}

/// An import by the atoms of its names and by its entity, which is counted.
#[tactic(auto, using(std::proofs::lemmas::Option::slice_get_within))]
fn convert_import(
    counts: &mut ImportCounts,
    strings: &mut StringPool,
    import: &Import<'_>,
) -> Result<Initializer, OutOfMemory>
    requires few { HaveIndices counts.old }
    requires room { length strings.old < u32.MAX - 2 }
    ensures counts { OnOk result (counts.new ≡ counted counts.old import.now.ty) }
    ensures pool { OnOk result (strings.new ≡ with_texts strings.old (import_names (import_of import.now))) }
    ensures pooled { IfOk result (HasTexts strings.new) }
    ensures import { IfOk result (λ i. resolved_import strings.new i
        ≡ ((import_of import.now).space, (import_of import.now).name, next_entity counts.old import.now.ty)) }
{
    let name = strings.insert(import.module)?;
    let field = strings.insert(import.name)?;
    let index = counts.next(import.ty);
    Ok(Initializer::Import { name, field, index })
}
