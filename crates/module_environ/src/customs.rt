//! What the custom sections of a module give its translation, and the metadata of its functions.

ghost use Rattle.std.specs.Prelude.{◌≡◌, ◌+◌, ◌-◌, ◌<◌, ◌^◌, [], length, IfOk, IfSome, OnOk};
ghost use Rattle.std.specs.List.{cons_option};
ghost use Rattle.std.specs.Option.{option_map};
ghost use Rattle.wasm_spec.specs.Module.{Module};
ghost use Rattle.form_rules.specs.Source.{source_module};
ghost use Rattle.wasm_index.specs.Index.{number_of};
ghost use Rattle.module_customs.specs.Hints.{HasFirst};
ghost use Rattle.module_customs.specs.Names.{at_number, module_names, KeepsNames};
ghost use Rattle.module_environ.specs.Customs.{HasCustoms, hints_asked, names_asked, OnlyCustomsChange};
ghost use Rattle.module_sections.specs.Entities.{text_at};
ghost use Rattle.interned_types.specs.Environment.{LooksUpTypes};
ghost use Rattle.module_sections.specs.Filling.{module_in, IsGathered};
ghost use Rattle.module_environ.specs.Pooled.{own_name};
ghost use Rattle.module_sections.specs.Pooled.{with_texts, HasText};

use crate::metadata::function_metadata;
use entity_map::{Atom, OutOfMemory, StringPool};
use form_rules::{Lists, ModuleSource};
use init_plan::{BranchHint, ModuleTranslation, NameSection};
use module_customs::{has_debug_section, kept_hints, kept_names};
use std::alloc::Global;
use std::collections::BTreeMap;
use std::mem;
use wasm_convert::TypeConvert;
use wasm_index::FuncIndex;
use wasm_types::Tunables;

/// Fills in names, hints of branches and the metadata of functions, as far as the caller requires
/// them, and whether there is debug information.
pub(crate) fn fill_customs<'d>(
    alloc: Global,
    tunables: &Tunables,
    env: &dyn TypeConvert,
    lists: &Lists<'_, 'd>,
    translation: &mut ModuleTranslation<'d>,
) -> Result<(), OutOfMemory>
    requires gathered { IsGathered lists.now }
    requires looks { LooksUpTypes (module_in lists.now) (knows env.now) (look_up env.now) }
    requires few_texts { length translation.old.module.strings < 2 ^ 31 + 2 ^ 30 }
    ensures customs { OnOk result (HasCustoms tunables.now (module_in lists.now) translation.new) }
    ensures texts { OnOk result (translation.new.module.strings
        ≡ with_texts translation.old.module.strings (own_name tunables.now.debug_native (module_in lists.now))) }
    ensures pooled { OnOk result (IfSome translation.new.module.name (HasText translation.new.module.strings)) }
    ensures same { OnOk result (OnlyCustomsChange translation.old translation.new) }
{
    let native = tunables.debug_native;
    let names = kept_names(alloc, lists.source, native)?;
    translation.module.name = pool_name(&mut translation.module.strings, names.module_name)?;
    // The earlier names and functions, which are empty, are dropped as separate values.
    let _no_names = mem::replace(
        &mut translation.debuginfo.name_section,
        asked_names(names, native),
    );
    let functions = function_metadata(alloc, env, lists, native)?;
    let _no_functions = mem::replace(&mut translation.debuginfo.wasm_file.funcs, functions);
    translation.set_branch_hints(asked_hints(alloc, lists.source, tunables.branch_hinting)?);
    translation.has_unparsed_debuginfo = has_debug_section(lists.source);
    Ok(())
}

/// The atom of a name, where there is one; the name is added to the pool.
fn pool_name(strings: &mut StringPool, name: Option<&str>) -> Result<Option<Atom>, OutOfMemory>
    requires { length strings.old < u32.MAX - 1 }
    ensures pool { OnOk result (strings.new ≡ with_texts strings.old (cons_option (option_map (λ text. text.now) name.entry) [])) }
    ensures pooled { IfOk result (λ atom. IfSome atom (HasText strings.new)) }
    ensures text { IfOk result (λ atom. option_map (text_at strings.new) atom ≡ option_map (λ text. text.now) name.entry) }
{
    match name {
        Some(name) => Ok(Some(strings.insert(name)?)),
        None => Ok(None),
    }
}

/// The names as a debugger has them; without one the name of the module is not among them.
fn asked_names(names: NameSection<'_>, native: bool) -> NameSection<'_>
    ensures { (m : Module) → KeepsNames (module_names native m) names.entry → KeepsNames (names_asked native m) result }
{
    if native {
        return names;
    }
    NameSection {
        module_name: None,
        func_names: names.func_names,
        locals_names: names.locals_names,
    }
}

/// The hints of branches by their functions, where the caller requires them.
fn asked_hints(
    alloc: Global,
    source: ModuleSource<'_, '_>,
    asked: bool,
) -> Result<BTreeMap<FuncIndex, Vec<BranchHint>>, OutOfMemory>
    ensures { IfOk result (λ kept. HasFirst (hints_asked asked (source_module source.entry)) (at_number number_of kept)) }
{
    if asked {
        kept_hints(alloc, source)
    } else {
        Ok(BTreeMap::new(alloc))
    }
}
