//! The names that the name sections of a module give.

ghost use Rattle.std.specs.Prelude.{◌≡◌, ◌+◌, ◌<◌, ◌++◌, ◌∷◌, ℕ, List, [], length, map, codes, IfOk, OnOk};
ghost use Rattle.std.specs.Iterator.{YieldsFirstBy, item_count};
ghost use Rattle.std.specs.Option.{option_map, option_or};
ghost use Rattle.wasm_spec.specs.Module as plain;
ghost use Rattle.wasm_spec.specs.Module.{imports_of_section, function_types_of_section, function_import, HasFewEntries};
ghost use Rattle.form_reader.specs.Views.{import_of};
ghost use Rattle.form_rules.specs.Source.{source_module};
ghost use Rattle.form_rules.specs.Singles.{single_of};
ghost use Rattle.wasm_index.specs.Index.{number_of};
ghost use Rattle.custom_sections.specs.NameLists.{NameLists, joined};
ghost use Rattle.custom_sections.specs.Views.{text_of, locals_of, names_of};
ghost use Rattle.module_customs.specs.Names.{functions_among, one_if, contents_of, names_in, names_below, below, module_names, at_number, named, names_left, HasLast, HasLocals, KeepsNames};

use custom_sections::{SectionNames, read_names};
use entity_map::{EntityRef, OutOfMemory};
use form_reader::{DefinedFunction, Import, InputEntries, Payload};
use form_rules::{FormEntry, ModuleSource, Single, singles_of};
use init_plan::NameSection;
use std::alloc::{AllocError, Global};
use std::collections::BTreeMap;
use wasm_index::FuncIndex;
use wasm_spec::TypeRef;

/// The names of the module, its functions and their locals, as the name sections give them (core
/// specification, appendix, name section). Names of locals are read where the caller requires them.
/// The name of a function is kept where the function is declared before its section.
///
/// # Errors
/// `OutOfMemory` where the names find no memory.
pub fn kept_names<'d>(
    alloc: Global,
    source: ModuleSource<'_, 'd>,
    locals: bool,
) -> Result<NameSection<'d>, OutOfMemory>
    requires { HasFewEntries (source_module source) }
    ensures { IfOk result (KeepsNames (module_names locals (source_module source.entry))) }
{
    let mut kept = NameSection {
        module_name: None,
        func_names: BTreeMap::new(alloc),
        locals_names: BTreeMap::new(alloc),
    };
    let mut declared = 0;
    for section in singles_of(source) {
        add_section(alloc, &mut kept, section, declared, locals)?;
        let more = declared_functions(alloc, section)?;
        declared += more;
    }
    Ok(kept)
}

/// Adds the names of a section before which `declared` functions are declared.
#[tactic(auto, using(crate::proofs::AsTold::names_as_told))]
fn add_section<'d>(
    alloc: Global,
    kept: &mut NameSection<'d>,
    section: Single<'_, 'd>,
    declared: usize,
    locals: bool,
) -> Result<(), OutOfMemory>
    requires { declared < u32.MAX }
    ensures { OnOk result ((before : NameLists) → KeepsNames before kept.old
        → KeepsNames (joined before (names_below declared (names_in locals (contents_of (codes "name") (single_of section.entry))))) kept.new) }
{
    if let Some(contents) = contents_named(section, "name") {
        let names = read_names(alloc, contents, locals)?;
        add_names(alloc, kept, &names, declared)?;
    }
    Ok(())
}

/// The contents of a custom section of this name.
pub(crate) fn contents_named<'d>(section: Single<'_, 'd>, title: &str) -> Option<&'d [u8]>
    ensures { option_map (λ bytes. bytes.now) result ≡ contents_of title.now (single_of section.entry) }
{
    match section {
        Single::Read(Payload::Custom(custom)) => contents_if(custom.name, custom.bytes, title),
        Single::Custom { name, bytes } => contents_if(name, bytes, title),
        _ => None,
    }
}

/// The contents of a custom section, if it has the requested name.
fn contents_if<'d>(name: &str, bytes: &'d [u8], title: &str) -> Option<&'d [u8]>
    ensures { option_map (λ contents. contents.now) result ≡ contents_of title.now (plain.Custom name.now bytes.now) }
{
    if name == title { Some(bytes) } else { None }
}

/// How many functions a section imports or declares.
fn declared_functions(alloc: Global, section: Single<'_, '_>) -> Result<usize, AllocError>
    ensures { let p = single_of section.entry in
        IfOk result (λ n. n ≡ functions_among (imports_of_section p) + length (function_types_of_section p)) }
{
    match section {
        Single::Read(Payload::Functions(types)) => Ok(types.len()),
        Single::Read(payload) => Ok(imported_functions(Import::in_section(payload))),
        Single::Input(InputEntries::Functions(types)) => types.length::<DefinedFunction>(alloc),
        _ => Ok(0),
    }
}

fn imported_functions(imports: &[Import<'_>]) -> usize
    ensures { result ≡ functions_among (map import_of imports.now) }
{
    let mut count = 0;
    for import in imports {
        count += imported_function(import);
    }
    count
}

/// 1 where a function is imported, and 0 otherwise.
fn imported_function(import: &Import<'_>) -> usize
    ensures { result ≡ one_if (function_import (import_of import.now).type) }
{
    match import.ty {
        TypeRef::Func(_) => 1,
        _ => 0,
    }
}

/// Adds names to those of the sections before, where `declared` functions are declared.
fn add_names<'d>(
    alloc: Global,
    kept: &mut NameSection<'d>,
    names: &SectionNames<'d>,
    declared: usize,
) -> Result<(), OutOfMemory>
    requires { declared < u32.MAX }
    ensures { OnOk result ((before : NameLists) → KeepsNames before kept.old
        → KeepsNames (joined before (names_below declared (names_of names.now))) kept.new) }
{
    if let Some(name) = names.module_name {
        kept.module_name = Some(name);
    }
    add_function_names(alloc, &mut kept.func_names, &names.functions, declared)?;
    add_locals(alloc, &mut kept.locals_names, &names.locals, declared)
}

/// Adds the names of functions that are declared; a later name replaces an earlier one. The first
/// names are made into a map at once.
fn add_function_names<'d>(
    alloc: Global,
    kept: &mut BTreeMap<FuncIndex, &'d str>,
    names: &[(u32, &'d str)],
    declared: usize,
) -> Result<(), OutOfMemory>
    requires { declared < u32.MAX }
    ensures { OnOk result ((before : List (ℕ × List ℕ)) → HasLast before (at_number number_of kept.old)
        → HasLast (before ++ below declared (map text_of names.now)) (at_number number_of kept.new)) }
{
    if !kept.is_empty() {
        return enter_names(kept, names, declared);
    }
    let declared = declared as u32;
    *kept = DeclaredNames { names, declared }.collect(alloc)?;
    Ok(())
}

/// The names of the functions below a bound, in order.
#[derive(Drop)]
struct DeclaredNames<'n, 'd> {
    names: &'n [(u32, &'d str)],
    declared: u32,
}

impl<'n, 'd> Iterator for DeclaredNames<'n, 'd> {
    type Item = (FuncIndex, &'d str);

    ghost next_gives = { YieldsFirstBy named names_left };

    ghost remaining = { item_count names_left };

    fn next(&mut self) -> Option<(FuncIndex, &'d str)> {
        while let [(function, name), others @ ..] = self.names {
            self.names = others;
            if *function < self.declared {
                return Some((FuncIndex::from_u32(*function), *name));
            }
        }
        None
    }
}

/// Enters the names of functions that are declared; a later name replaces an earlier one.
fn enter_names<'d>(
    kept: &mut BTreeMap<FuncIndex, &'d str>,
    names: &[(u32, &'d str)],
    declared: usize,
) -> Result<(), OutOfMemory>
    requires { declared < u32.MAX }
    ensures { OnOk result ((before : List (ℕ × List ℕ)) → HasLast before (at_number number_of kept.old)
        → HasLast (before ++ below declared (map text_of names.now)) (at_number number_of kept.new)) }
{
    for (function, name) in names {
        if (*function as usize) < declared {
            match kept.insert(FuncIndex::from_u32(*function), *name) {
                Ok(_) => {}
                Err(_) => return Err(OutOfMemory),
            }
        }
    }
    Ok(())
}

/// Adds the names of the locals of functions that are declared; a later name replaces an earlier
/// one.
fn add_locals<'d>(
    alloc: Global,
    kept: &mut BTreeMap<FuncIndex, BTreeMap<u32, &'d str>>,
    locals: &[(u32, Vec<(u32, &'d str)>)],
    declared: usize,
) -> Result<(), OutOfMemory>
    requires { declared < u32.MAX }
    ensures { OnOk result ((before : List (ℕ × List (ℕ × List ℕ))) → HasLocals before kept.old
        → HasLocals (before ++ below declared (map locals_of locals.now)) kept.new) }
{
    for (function, names) in locals {
        if (*function as usize) < declared {
            add_local_names(alloc, kept, FuncIndex::from_u32(*function), names)?;
        }
    }
    Ok(())
}

/// Adds the names of a function's locals. A function has an entry once a local of it has a name.
fn add_local_names<'d>(
    alloc: Global,
    kept: &mut BTreeMap<FuncIndex, BTreeMap<u32, &'d str>>,
    function: FuncIndex,
    names: &[(u32, &'d str)],
) -> Result<(), OutOfMemory>
    ensures { OnOk result ((before : List (ℕ × List (ℕ × List ℕ))) → HasLocals before kept.old
        → HasLocals (before ++ (number_of function, map text_of names.now) ∷ []) kept.new) }
{
    if names.is_empty() {
        return Ok(());
    }
    let mut of_function = match kept.remove(&function) {
        Some(of_function) => of_function,
        None => BTreeMap::new(alloc),
    };
    add_texts(&mut of_function, names)?;
    kept.insert(function, of_function)?;
    Ok(())
}

/// Adds names; a later name of an index replaces an earlier one.
fn add_texts<'d>(
    kept: &mut BTreeMap<u32, &'d str>,
    names: &[(u32, &'d str)],
) -> Result<(), OutOfMemory>
    ensures { OnOk result ((before : List (ℕ × List ℕ)) → HasLast before (at_number (λ n. n) kept.old)
        → HasLast (before ++ map text_of names.now) (at_number (λ n. n) kept.new)) }
{
    for (index, name) in names {
        kept.insert(*index, *name)?;
    }
    Ok(())
}
