//! The lines of names: exports, and those of the name section.

ghost use Rattle.std.specs.Prelude.{◌≡◌, ◌++◌, All, OnOk, codes};
ghost use Rattle.std.specs.List.{flat_map};
ghost use Rattle.plan_lines.specs.NameLines.{IsInPool, HasName, quoted_atom, entity_text, import_line, export_line, module_name_line, module_name_lines, function_name_line};

use crate::numbers::append_between;
use crate::quoted::append_quoted;
use crate::text::Text;
use entity_map::{Atom, EntityRef, OutOfMemory, StringPool};
use indexmap::IndexMap;
use std::collections::BTreeMap;
use wasm_index::FuncIndex;
use wasm_types::EntityIndex;

fn append_atom(text: &mut Text, pool: &StringPool, atom: Atom) -> Result<(), OutOfMemory>
    requires { IsInPool pool.now atom }
    ensures { OnOk result (text.new ≡ text.old ++ quoted_atom pool.now atom) }
{
    append_quoted(text, pool.get(atom))
}

// Appends the end of a line: an entity.
#[inline(always)]
fn append_entity(text: &mut Text, entity: EntityIndex) -> Result<(), OutOfMemory>
    ensures { OnOk result (text.new ≡ text.old ++ codes " " ++ entity_text entity ++ codes "\n") }
{
    let (kind, number) = match entity {
        EntityIndex::Function(index) => (" function ", index.as_u32()),
        EntityIndex::Table(index) => (" table ", index.as_u32()),
        EntityIndex::Memory(index) => (" memory ", index.as_u32()),
        EntityIndex::Global(index) => (" global ", index.as_u32()),
        EntityIndex::Tag(index) => (" tag ", index.as_u32()),
    };
    append_between(text, kind, number.into(), "\n")
}

/// Appends the line of an import, with its index among the imports. The texts of its names must be
/// in the pool.
///
/// # Errors
/// `OutOfMemory`; the text may then end anywhere.
#[tactic(auto, unfolding(crate::specs::NameLines::import_line))]
pub fn append_import(
    text: &mut Text,
    pool: &StringPool,
    place: usize,
    name: Atom,
    field: Atom,
    entity: EntityIndex,
) -> Result<(), OutOfMemory>
    requires name { IsInPool pool.now name }
    requires field { IsInPool pool.now field }
    ensures { OnOk result (text.new ≡ text.old ++ import_line pool.now place name field entity) }
{
    append_between(text, "import ", place as u64, " ")?;
    append_atom(text, pool, name)?;
    text.push_byte(b' ')?;
    append_atom(text, pool, field)?;
    append_entity(text, entity)
}

/// Appends the line of an export. The text of its name must be in the pool.
///
/// # Errors
/// `OutOfMemory`; the text may then end anywhere.
#[tactic(auto, unfolding(crate::specs::NameLines::export_line))]
pub fn append_export(
    text: &mut Text,
    pool: &StringPool,
    name: Atom,
    entity: EntityIndex,
) -> Result<(), OutOfMemory>
    requires { IsInPool pool.now name }
    ensures { OnOk result (text.new ≡ text.old ++ export_line pool.now name entity) }
{
    text.push_str("export ")?;
    append_atom(text, pool, name)?;
    append_entity(text, entity)
}

/// Appends the lines of the exports. The texts of their names must be in the pool.
///
/// # Errors
/// `OutOfMemory`; the text may then end anywhere.
pub fn append_exports(
    text: &mut Text,
    pool: &StringPool,
    exports: &IndexMap<Atom, EntityIndex>,
) -> Result<(), OutOfMemory>
    requires { All (λ export. IsInPool pool.now export.0) exports.now.entries }
    ensures { OnOk result (text.new ≡ text.old ++ flat_map (λ export. export_line pool.now export.0 export.1) exports.now.entries) }
{
    for (name, entity) in exports.iter() {
        append_export(text, pool, *name, *entity)?;
    }
    Ok(())
}

#[tactic(auto, unfolding(crate::specs::NameLines::module_name_line))]
fn append_name(text: &mut Text, pool: &StringPool, name: Atom) -> Result<(), OutOfMemory>
    requires { IsInPool pool.now name }
    ensures { OnOk result (text.new ≡ text.old ++ module_name_line pool.now name) }
{
    text.push_str("name ")?;
    append_atom(text, pool, name)?;
    text.push_byte(b'\n')
}

/// Appends the line of the module's name, where it has one. Its text must be in the pool.
///
/// # Errors
/// `OutOfMemory`; the text may then end anywhere.
pub fn append_module_name(
    text: &mut Text,
    pool: &StringPool,
    name: Option<Atom>,
) -> Result<(), OutOfMemory>
    requires { HasName pool.now name }
    ensures { OnOk result (text.new ≡ text.old ++ module_name_lines pool.now name) }
{
    match name {
        Some(name) => append_name(text, pool, name),
        None => Ok(()),
    }
}

/// Appends the line of a function's name.
///
/// # Errors
/// `OutOfMemory`; the text may then end anywhere.
#[tactic(auto, unfolding(crate::specs::NameLines::function_name_line))]
pub fn append_function_name(
    text: &mut Text,
    index: FuncIndex,
    name: &str,
) -> Result<(), OutOfMemory>
    ensures { OnOk result (text.new ≡ text.old ++ function_name_line index name.now) }
{
    append_between(text, "func-name ", index.as_u32().into(), " ")?;
    append_quoted(text, name)?;
    text.push_byte(b'\n')
}

/// Appends the lines of the functions' names.
///
/// # Errors
/// `OutOfMemory`; the text may then end anywhere.
pub fn append_function_names(
    text: &mut Text,
    names: &BTreeMap<FuncIndex, &str>,
) -> Result<(), OutOfMemory>
    ensures { OnOk result (text.new ≡ text.old ++ flat_map (λ name. function_name_line name.0 name.1.now) names.now.entries) }
{
    for (index, name) in names.iter() {
        append_function_name(text, *index, name)?;
    }
    Ok(())
}
