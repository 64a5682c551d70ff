//! How many bytes the lines of entities and their names have.

ghost use Rattle.std.specs.Prelude.{◌≡◌, ◌<◌, ◌≤◌, ◌+◌, ◌*◌, ◌^◌, All, IfSome, length, sum_by};
ghost use Rattle.std.specs.List.{flat_map};
ghost use Rattle.std.specs.Option.{option_map};
ghost use Rattle.entity_map.specs.Keyed.{keyed};
ghost use Rattle.wasm_index.specs.declared.index.Index.{Index};
ghost use Rattle.wasm_index.specs.declared.spaces.FuncSpace.{FuncSpace};
ghost use Rattle.wasm_index.specs.Index.{number_of, index_of};
ghost use Rattle.wasm_module.specs.declared.function.FunctionType.{FunctionType};
ghost use Rattle.init_plan.specs.Views.{hints_of};
ghost use Rattle.plan_lines.specs.HintLines.{hint_lines, function_hints};
ghost use Rattle.plan_lines.specs.ModuleLines.{initializer_lines_from, count_lines, escape_lines, start_lines, startup_line};
ghost use Rattle.plan_lines.specs.NameLines.{kind_number, export_line, module_name_lines, function_name_line};
ghost use Rattle.plan_lines.specs.Numbers.{keyed_lines};
ghost use Rattle.plan_lines.specs.TypeLines.{listed_number, declared_line, signature_line};
ghost use Rattle.plan_laws.specs.TextCosts.{name_bytes, import_bytes, module_name_bytes};
ghost use Rattle.plan_laws.specs.Widths.{ImportFits, StartupFits};

use crate::type_bytes::index;
use entity_map::{Atom, EntityRef, PrimaryMap, StringPool};
use indexmap::IndexMap;
use init_plan::{BranchHint, ModuleTranslation};
use std::collections::BTreeMap;
use wasm_index::{FuncIndex, ModuleInternedTypeIndex, TypeIndex};
use wasm_module::{FunctionType, Initializer, Module, ModuleStartup};
use wasm_types::{EngineOrModuleTypeIndex, EntityIndex};

fn indices(indices: &[EngineOrModuleTypeIndex])
    ensures { All (λ i. listed_number i < 2 ^ 32) indices.now }
{
    for i in indices {
        index(*i);
    }
}

/// The types of the type section.
pub(crate) fn declared(types: &PrimaryMap<TypeIndex, EngineOrModuleTypeIndex>)
    ensures { length (keyed_lines declared_line types.now) ≤ 128 * length types.now }
{
    let _count = types.len();
    indices(types.as_slice());
}

fn kind_number(entity: EntityIndex) -> u32
    ensures { result ≡ kind_number entity }
{
    match entity {
        EntityIndex::Function(index) => index.as_u32(),
        EntityIndex::Table(index) => index.as_u32(),
        EntityIndex::Memory(index) => index.as_u32(),
        EntityIndex::Global(index) => index.as_u32(),
        EntityIndex::Tag(index) => index.as_u32(),
    }
}

fn entity(entity: EntityIndex)
    ensures { kind_number entity < 2 ^ 32 }
{
    let _number = kind_number(entity);
}

fn import(import: &Initializer)
    ensures { ImportFits import.now }
{
    let Initializer::Import { index, .. } = import;
    entity(*index);
}

fn each_import(imports: &[Initializer])
    ensures { All ImportFits imports.now }
{
    for each in imports {
        import(each);
    }
}

/// The imports, with the bytes of their names.
pub(crate) fn imports(pool: &StringPool, imports: &[Initializer])
    ensures { length (initializer_lines_from pool.now 0 imports.now)
        ≤ 128 * length imports.now + 3 * sum_by (import_bytes pool.now) imports.now }
{
    let _count = imports.len();
    each_import(imports);
}

fn imported(count: usize)
    ensures { count < 2 ^ 64 }
{
    let _count = count;
}

/// The counts of the entities.
pub(crate) fn counts(module: &Module)
    ensures { length (count_lines «module».now) ≤ 640 }
{
    imported(module.num_imported_funcs);
    imported(module.num_imported_tables);
    imported(module.num_imported_memories);
    imported(module.num_imported_globals);
    imported(module.num_imported_tags);
    let _functions = module.functions.len();
    let _tables = module.tables.len();
    let _memories = module.memories.len();
    let _globals = module.globals.len();
    let _tags = module.tags.len();
}

fn each_function(functions: &[FunctionType])
    ensures { All (λ f. number_of f.func_ref < 2 ^ 32) functions.now }
{
    for function in functions {
        let _number = function.func_ref.as_u32();
    }
}

/// The functions that escape.
pub(crate) fn escapes(functions: &PrimaryMap<FuncIndex, FunctionType>)
    ensures { length (keyed_lines escape_lines functions.now) ≤ 128 * length functions.now }
{
    let _count = functions.len();
    each_function(functions.as_slice());
}

/// The signatures of functions to which references are made.
pub(crate) fn signatures(signatures: &[ModuleInternedTypeIndex])
    ensures { length (flat_map signature_line signatures.now) ≤ 128 * length signatures.now }
{
    each_signature(signatures);
}

fn each_signature(signatures: &[ModuleInternedTypeIndex])
    ensures { All (λ i. number_of i < 2 ^ 32) signatures.now }
{
    for signature in signatures {
        let _number = signature.as_u32();
    }
}

fn each_export(exports: &IndexMap<Atom, EntityIndex>)
    ensures { All (λ export. kind_number export.1 < 2 ^ 32) exports.now.entries }
{
    for (_, exported) in exports.iter() {
        entity(*exported);
    }
}

/// The exports, with the bytes of their names.
pub(crate) fn exports(pool: &StringPool, exports: &IndexMap<Atom, EntityIndex>)
    ensures { length (flat_map (λ export. export_line pool.now export.0 export.1) exports.now.entries)
        ≤ 128 * length exports.now.entries + 3 * sum_by (λ export. name_bytes pool.now export.0) exports.now.entries }
{
    each_export(exports);
}

fn named(function: FuncIndex)
    ensures { number_of function < 2 ^ 32 }
{
    let _number = function.as_u32();
}

fn each_name(names: &BTreeMap<FuncIndex, &str>)
    ensures { All (λ name. number_of name.0 < 2 ^ 32) names.now.entries }
{
    for (index, _) in names.iter() {
        named(*index);
    }
}

/// The names of functions.
pub(crate) fn function_names(names: &BTreeMap<FuncIndex, &str>)
    ensures { length (flat_map (λ name. function_name_line name.0 name.1.now) names.now.entries)
        ≤ 128 * length names.now.entries + 3 * sum_by (λ name. length name.1.now) names.now.entries }
{
    each_name(names);
}

/// The name of the module.
pub(crate) fn module_name(pool: &StringPool, name: Option<Atom>)
    ensures { length (module_name_lines pool.now name) ≤ 128 + 3 * module_name_bytes pool.now name }
{}

fn count(hints: Option<&[BranchHint]>)
    ensures { IfSome (option_map (λ list. list.now) hints.entry) (λ list. length list < 2 ^ 64) }
{
    match hints {
        Some(hints) => {
            let _count = hints.len();
        }
        None => {}
    }
}

fn hints(translation: &ModuleTranslation<'_>, function: FuncIndex)
    ensures { length (hint_lines function (hints_of translation.now (number_of function))) ≤ 128 }
{
    let _number = function.as_u32();
    count(translation.branch_hints(function));
}

fn each_hints(translation: &ModuleTranslation<'_>)
    ensures { All (λ (p : Index FuncSpace × FunctionType). length (function_hints translation.now p.0 p.1) ≤ 128) (keyed index_of translation.now.module.functions) }
{
    for (function, _) in translation.module.functions.iter() {
        hints(translation, function);
    }
}

/// The functions that have hints.
pub(crate) fn function_hints(translation: &ModuleTranslation<'_>)
    ensures { length (keyed_lines (function_hints translation.now) translation.now.module.functions)
        ≤ 128 * length translation.now.module.functions }
{
    each_hints(translation);
}

fn function(function: Option<FuncIndex>)
    ensures { IfSome function (λ i. number_of i < 2 ^ 32) }
{
    match function {
        Some(function) => {
            let _number = function.as_u32();
        }
        None => {}
    }
}

/// The start function.
pub(crate) fn start(start: Option<FuncIndex>)
    ensures { length (start_lines start) ≤ 128 }
{
    function(start);
}

fn startup_type(startup: &ModuleStartup)
    ensures { StartupFits startup.now }
{
    match startup {
        ModuleStartup::None => {}
        ModuleStartup::Always(ty) => index(*ty),
        ModuleStartup::IfMemoriesNeedInit(ty) => index(*ty),
    }
}

/// The startup function.
pub(crate) fn startup(startup: &ModuleStartup)
    ensures { length (startup_line startup.now) ≤ 128 }
{
    startup_type(startup);
}
