//! Imports, exports and the module's name as tables.

ghost use Rattle.std.specs.Prelude.{◌≡◌, ◌++◌, length, All, IfOk, OnOk};
ghost use Rattle.std.specs.List.{flat_map};
ghost use Rattle.plan_lines.specs.ModuleLines.{HasNames};
ghost use Rattle.plan_lines.specs.NameLines.{IsInPool, HasName, kind_number};
ghost use Rattle.plan_tables.specs.Names.{entity_kind, name_of, name_part, import_row, import_names, own_parts, own_name, TellsImports, TellsExports, TellsModuleNames};

use crate::record::{ExportsRecord, ImportsRecord, NamesRecord};
use crate::rows::{ExportRow, ImportRow, Span};
use entity_map::{Atom, EntityRef, OutOfMemory, StringPool};
use indexmap::IndexMap;
use std::alloc::Global;
use wasm_module::{Initializer, Module};
use wasm_types::EntityIndex;

fn entity_kind(entity: EntityIndex) -> u32
    ensures { result ≡ entity_kind entity }
{
    match entity {
        EntityIndex::Function(_) => 0,
        EntityIndex::Table(_) => 1,
        EntityIndex::Memory(_) => 2,
        EntityIndex::Global(_) => 3,
        EntityIndex::Tag(_) => 4,
    }
}

fn entity_number(entity: EntityIndex) -> u32
    ensures { result ≡ kind_number entity }
{
    match entity {
        EntityIndex::Function(index) => index.as_u32(),
        EntityIndex::Table(index) => index.as_u32(),
        EntityIndex::Memory(index) => index.as_u32(),
        EntityIndex::Global(index) => index.as_u32(),
        EntityIndex::Tag(index) => index.as_u32(),
    }
}

// Appends the text of a name, and says which part of the names it is.
fn push_name(names: &mut Vec<u8>, pool: &StringPool, name: Atom) -> Result<Span, OutOfMemory>
    requires { IsInPool pool.now name }
    ensures part { IfOk result (λ part. part ≡ name_part pool.now (length names.old.items) name) }
    ensures names { OnOk result (names.new.items ≡ names.old.items ++ name_of pool.now name) }
{
    let text = pool.get(name).as_bytes();
    let part = Span {
        begin: names.len(),
        len: text.len(),
    };
    names.extend_from_slice(text)?;
    Ok(part)
}

// The imports, in order.
fn imports_record<'d>(
    alloc: Global,
    pool: &StringPool,
    imports: &[Initializer],
) -> Result<ImportsRecord<'d>, OutOfMemory>
    requires { All (HasNames pool.now) imports.now }
    ensures { IfOk result (TellsImports pool.now imports.now) }
{
    let mut rows = Vec::with_capacity(alloc, imports.len())?;
    let mut names = Vec::new(alloc);
    for import in imports {
        rows.push(import_row(&mut names, pool, import)?)?;
    }
    Ok(ImportsRecord {
        rows: rows.leak(),
        names: names.leak(),
    })
}

fn import_row(
    names: &mut Vec<u8>,
    pool: &StringPool,
    import: &Initializer,
) -> Result<ImportRow, OutOfMemory>
    requires { HasNames pool.now import.now }
    ensures row { IfOk result (λ row. row ≡ import_row pool.now (length names.old.items) import.now) }
    ensures names { OnOk result (names.new.items ≡ names.old.items ++ import_names pool.now import.now) }
{
    let Initializer::Import { name, field, index } = import;
    let from = push_name(names, pool, *name)?;
    let name = push_name(names, pool, *field)?;
    Ok(ImportRow {
        kind: entity_kind(*index),
        index: entity_number(*index),
        from,
        name,
    })
}

// The exports, in order.
fn exports_record<'d>(
    alloc: Global,
    pool: &StringPool,
    exports: &IndexMap<Atom, EntityIndex>,
) -> Result<ExportsRecord<'d>, OutOfMemory>
    requires { All (λ export. IsInPool pool.now export.0) exports.now.entries }
    ensures { IfOk result (TellsExports pool.now exports.now.entries) }
{
    let mut rows = Vec::new(alloc);
    let mut names = Vec::new(alloc);
    for (name, entity) in exports.iter() {
        let name = push_name(&mut names, pool, *name)?;
        rows.push(ExportRow {
            kind: entity_kind(*entity),
            index: entity_number(*entity),
            name,
        })?;
    }
    Ok(ExportsRecord {
        rows: rows.leak(),
        names: names.leak(),
    })
}

// The text of the module's name, and which part of it the name is: no part without a name.
fn module_name_of(
    alloc: Global,
    pool: &StringPool,
    name: Option<Atom>,
) -> Result<(Vec<Span>, Vec<u8>), OutOfMemory>
    requires { HasName pool.now name }
    ensures parts { IfOk result (λ r. r.0.items ≡ own_parts pool.now name) }
    ensures text { IfOk result (λ r. r.1.items ≡ own_name pool.now name) }
{
    let mut parts = Vec::new(alloc);
    let mut text = Vec::new(alloc);
    if let Some(name) = name {
        parts.push(push_name(&mut text, pool, name)?)?;
    }
    Ok((parts, text))
}

/// Puts imports, exports and the module's name into a record, with the text of that name. Where
/// memory ends it has those that were made.
pub(crate) fn fill_names<'d>(
    alloc: Global,
    module: &Module,
    out: &mut NamesRecord<'d>,
    text_out: &mut &'d [u8],
) -> Result<(), OutOfMemory>
    requires imports { All (HasNames «module».now.strings) «module».now.initializers.items }
    requires exports { All (λ export. IsInPool «module».now.strings export.0) «module».now.exports.entries }
    requires name { HasName «module».now.strings «module».now.name }
    ensures names { OnOk result (TellsModuleNames «module».now out.new) }
    ensures text { OnOk result (text_out.new.now ≡ own_name «module».now.strings «module».now.name) }
{
    out.imports = imports_record(alloc, &module.strings, &module.initializers)?;
    out.exports = exports_record(alloc, &module.strings, &module.exports)?;
    let (own, text) = module_name_of(alloc, &module.strings, module.name)?;
    out.own = own.leak();
    *text_out = text.leak();
    Ok(())
}
