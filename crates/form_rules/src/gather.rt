//! Gathers the lists of a module, once, over its sections.

ghost use Rattle.std.specs.Prelude.{◌≡◌, ◌++◌, ◌∷◌, [], map, IfOk, OnOk};
ghost use Rattle.wasm_spec.specs.Module.{imports, groups};
ghost use Rattle.rule_spec.specs.Lists.{declared_groups, lists_of_module};
ghost use Rattle.form_reader.specs.Views.{import_of, table_of, global_of, payload_of};
ghost use Rattle.form_reader.specs.SectionRows.{global_entry};
ghost use Rattle.form_reader.specs.Input.{vector_in};
ghost use Rattle.form_rules.specs.Source.{source_module, sections_in};
ghost use Rattle.form_rules.specs.Views.{lists_of};
ghost use Rattle.form_rules.specs.Gathered.{AddsImports, AddsDefined};

use crate::declared::DeclaredTypes;
use crate::lists::{Lists, Spaces};
use crate::sections::entries_of;
use crate::source::{ModuleSource, Section, sections_of};
use form_reader::{
    DefinedFunction, DefinedGlobal, DefinedTag, GlobalDef, Import, InputEntries, InputVector,
    Payload, TableDef,
};
use std::alloc::{AllocError, Global};
use wasm_spec::{GlobalType, TableType, TypeRef};

/// The lists of a module, whose declared types are given.
///
/// # Errors
/// `AllocError` where the lists find no memory.
pub fn gather_lists<'f, 'd>(
    alloc: Global,
    source: ModuleSource<'f, 'd>,
    types: DeclaredTypes<'f, 'd>,
) -> Result<Lists<'f, 'd>, AllocError>
    requires { types ≡ declared_groups 0 (groups (source_module source)) }
    ensures lists { IfOk result (λ l. lists_of l ≡ lists_of_module (source_module source.entry)) }
    ensures of_source { IfOk result (λ l. l.source ≡ source.entry) }
{
    let mut spaces = Spaces {
        functions: Vec::new(alloc),
        table_types: Vec::new(alloc),
        memories: Vec::new(alloc),
        global_types: Vec::new(alloc),
        tags: Vec::new(alloc),
    };
    add_all_imports(&mut spaces, source)?;
    let imported_functions = spaces.functions.len();
    let imported_globals = spaces.global_types.len();
    add_all_defined(alloc, &mut spaces, source)?;
    Ok(Lists {
        source,
        types,
        spaces,
        imported_functions,
        imported_globals,
    })
}

fn add_all_imports(spaces: &mut Spaces, source: ModuleSource<'_, '_>) -> Result<(), AllocError>
    ensures { OnOk result (AddsImports spaces.old spaces.new (imports (source_module source.entry))) }
{
    for import in entries_of::<Import<'_>>(source) {
        add_import(spaces, import)?;
    }
    Ok(())
}

fn add_import(spaces: &mut Spaces, import: &Import<'_>) -> Result<(), AllocError>
    ensures { OnOk result (AddsImports spaces.old spaces.new (import_of import.now ∷ [])) }
{
    match import.ty {
        TypeRef::Func(ty) => spaces.functions.push(ty)?,
        TypeRef::Table(ty) => spaces.table_types.push(ty)?,
        TypeRef::Memory(ty) => spaces.memories.push(ty)?,
        TypeRef::Global(ty) => spaces.global_types.push(ty)?,
        TypeRef::Tag(ty) => spaces.tags.push(ty)?,
    }
    Ok(())
}

fn add_all_defined(
    alloc: Global,
    spaces: &mut Spaces,
    source: ModuleSource<'_, '_>,
) -> Result<(), AllocError>
    ensures { OnOk result (AddsDefined spaces.old spaces.new (source_module source.entry)) }
{
    for section in sections_of(source) {
        add_section(alloc, spaces, section)?;
    }
    Ok(())
}

fn add_section(
    alloc: Global,
    spaces: &mut Spaces,
    section: Section<'_, '_>,
) -> Result<(), AllocError>
    ensures { OnOk result (AddsDefined spaces.old spaces.new (sections_in section.entry)) }
{
    match section {
        Section::Read(payload) => add_defined(spaces, payload),
        Section::Input(InputEntries::Functions(types)) => {
            types.append_to::<DefinedFunction>(alloc, &mut spaces.functions)
        }
        Section::Input(InputEntries::Tags(types)) => {
            types.append_to::<DefinedTag>(alloc, &mut spaces.tags)
        }
        Section::Input(InputEntries::Globals(globals)) => {
            add_input_globals(alloc, &mut spaces.global_types, globals)
        }
        Section::Input(_) => Ok(()),
        Section::Customs(_) => Ok(()),
    }
}

fn add_defined(spaces: &mut Spaces, payload: &Payload<'_>) -> Result<(), AllocError>
    ensures { OnOk result (AddsDefined spaces.old spaces.new (payload_of payload.now ∷ [])) }
{
    match payload {
        Payload::Functions(types) => spaces.functions.extend_from_slice(types)?,
        Payload::Tables(tables) => add_tables(&mut spaces.table_types, tables)?,
        Payload::Memories(types) => spaces.memories.extend_from_slice(types)?,
        Payload::Tags(types) => spaces.tags.extend_from_slice(types)?,
        Payload::Globals(globals) => add_globals(&mut spaces.global_types, globals)?,
        _ => {}
    }
    Ok(())
}

fn add_tables(types: &mut Vec<TableType>, tables: &[TableDef]) -> Result<(), AllocError>
    ensures { OnOk result (types.new.items ≡ types.old.items ++ map (λ t. t.type) (map table_of tables.now)) }
{
    for table in tables {
        types.push(table.ty)?;
    }
    Ok(())
}

fn add_globals(types: &mut Vec<GlobalType>, globals: &[GlobalDef]) -> Result<(), AllocError>
    ensures { OnOk result (types.new.items ≡ types.old.items ++ map (λ g. g.type) (map global_of globals.now)) }
{
    for global in globals {
        types.push(global.ty)?;
    }
    Ok(())
}

fn add_input_globals(
    alloc: Global,
    types: &mut Vec<GlobalType>,
    globals: InputVector<'_>,
) -> Result<(), AllocError>
    ensures { OnOk result (types.new.items ≡ types.old.items ++ map (λ g. g.type) (vector_in global_entry.read globals.entry)) }
{
    globals.append_to::<DefinedGlobal>(alloc, types)
}
