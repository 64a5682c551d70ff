//! The sections of a module as a translation holds them: all except types, tags, code and custom
//! sections.

ghost use Rattle.std.specs.Prelude.{◌≡◌, ◌<◌, ◌^◌, ◌++◌, ℕ, List, [], length, map, OnOk};
ghost use Rattle.wasm_spec.specs.Module.{imports, function_import};
ghost use Rattle.rule_spec.specs.Lists.{lists_of_module};
ghost use Rattle.form_rules.specs.Names.{imported_names, exported_names};
ghost use Rattle.form_types.specs.Types.{TypesData};
ghost use Rattle.init_plan.specs.Views.{IsNewTranslation, passive_data_of};
ghost use Rattle.module_sections.specs.Entities.{count_of};
ghost use Rattle.interned_types.specs.Environment.{AreHeld, LooksUpTypes};
ghost use Rattle.interned_types.specs.Types.{declared, type_index, AreTypesOf};
ghost use Rattle.module_sections.specs.Sections.{HasSections};
ghost use Rattle.module_sections.specs.Pooled.{with_texts};
ghost use Rattle.module_sections.specs.Filling.{module_in, IsGathered, FillsEntities, FillsInitialisers, LeavesRest};

use crate::data::add_segments;
use crate::elements::{ElementSegments, convert_elements};
use crate::escapes::Escaping;
use crate::exports::convert_exports;
use crate::first_values::{first_values, no_images};
use crate::functions::{exported_signatures, function_types};
use crate::globals::{FirstGlobals, first_globals};
use crate::imports::convert_imports;
use crate::spaces::{convert_globals, convert_memories, convert_tables, hold_collected};
use crate::start::start_function;
use entity_map::{OutOfMemory, PrimaryMap, StringPool};
use form_rules::Lists;
use init_plan::ModuleTranslation;
use std::alloc::Global;
use wasm_convert::TypeConvert;
use wasm_index::TypeIndex;
use wasm_module::Module;
use wasm_types::EngineOrModuleTypeIndex;

/// Fills an empty translation with the sections of a module, whose declared types the builder
/// holds.
pub fn fill_sections<'d>(
    alloc: Global,
    debugged: bool,
    env: &dyn TypeConvert,
    lists: &Lists<'_, 'd>,
    names: StringPool,
    indices: &PrimaryMap<TypeIndex, EngineOrModuleTypeIndex>,
    translation: &mut ModuleTranslation<'d>,
) -> Result<(), OutOfMemory>
    requires gathered { IsGathered lists.now }
    requires names { names ≡ exported_names (lists_of_module (module_in lists.now)).exports }
    requires looks { LooksUpTypes (module_in lists.now) (knows env.now) (look_up env.now) }
    requires of_module { (t : TypesData) × AreTypesOf (module_in lists.now) t }
    requires listed { indices.now ≡ map type_index (declared (module_in lists.now)) }
    requires held { (count : ℕ) × AreHeld indices.now count }
    requires new { IsNewTranslation translation.old.module.module_index translation.old }
    ensures sections { OnOk result (HasSections debugged (module_in lists.now) translation.new) }
    ensures imports { OnOk result
        (translation.new.debuginfo.wasm_file.imported_func_count ≡ count_of function_import (imports (module_in lists.now))) }
    ensures texts { OnOk result (translation.new.module.strings
        ≡ with_texts (exported_names (lists_of_module (module_in lists.now)).exports) (imported_names (module_in lists.now))) }
    ensures rest { OnOk result (LeavesRest translation.old translation.new) }
{
    fill_entities(alloc, env, lists, names, &mut translation.module)?;
    let mut escaping = Escaping::new(alloc, lists.spaces.functions.len())?;
    let imported = lists.imported_functions as u32;
    escaping.note_escape_range(0, imported)?;
    fill_initialisers(alloc, env, lists, &mut escaping, translation)?;
    if debugged {
        escaping.note_escape_range(imported, lists.spaces.functions.len() as u32 - imported)?;
    }
    let functions = lists.spaces.functions.as_slice();
    translation.module.functions = function_types(alloc, functions, indices, &escaping)?;
    translation.exported_signatures = exported_signatures(alloc, functions, indices, &escaping)?;
    translation.module.num_escaped_funcs = escaping.len();
    translation.start_func = start_function(lists.source);
    translation.debuginfo.wasm_file.imported_func_count = imported;
    Ok(())
}

/// Fills in the imports, and all index spaces except those of functions and tags.
fn fill_entities(
    alloc: Global,
    env: &dyn TypeConvert,
    lists: &Lists<'_, '_>,
    names: StringPool,
    entities: &mut Module,
) -> Result<(), OutOfMemory>
    requires gathered { IsGathered lists.now }
    requires names { names ≡ exported_names (lists_of_module (module_in lists.now)).exports }
    requires looks { LooksUpTypes (module_in lists.now) (knows env.now) (look_up env.now) }
    ensures { OnOk result (FillsEntities (module_in lists.now) entities.old entities.new) }
{
    entities.strings = names;
    let (initializers, counts) = convert_imports(alloc, lists.source, &mut entities.strings)?;
    entities.initializers = initializers;
    entities.num_imported_funcs = counts.functions as usize;
    entities.num_imported_tables = counts.tables as usize;
    entities.num_imported_memories = counts.memories as usize;
    entities.num_imported_globals = counts.globals as usize;
    entities.num_imported_tags = counts.tags as usize;
    let spaces = &lists.spaces;
    entities.tables = convert_tables(alloc, env, spaces.table_types.as_slice())?;
    entities.memories = convert_memories(alloc, spaces.memories.as_slice())?;
    entities.globals = convert_globals(alloc, env, spaces.global_types.as_slice())?;
    let (_, defined) = entities
        .tables
        .as_slice()
        .split_at(entities.num_imported_tables);
    entities.needs_gc_heap = hold_collected(defined);
    Ok(())
}

/// Fills in the first contents of tables and globals, exports, and segments.
fn fill_initialisers<'d>(
    alloc: Global,
    env: &dyn TypeConvert,
    lists: &Lists<'_, 'd>,
    escaping: &mut Escaping,
    translation: &mut ModuleTranslation<'d>,
) -> Result<(), OutOfMemory>
    requires gathered { IsGathered lists.now }
    requires looks { LooksUpTypes (module_in lists.now) (knows env.now) (look_up env.now) }
    requires functions { escaping.old.count ≡ length lists.now.spaces.functions.items }
    requires names { (others : List (List ℕ)) × (translation.old.module.strings
        ≡ exported_names (lists_of_module (module_in lists.now)).exports ++ others) }
    requires no_data { passive_data_of translation.old ≡ [] }
    ensures { OnOk result (FillsInitialisers (module_in lists.now) escaping.old escaping.new translation.old translation.new) }
{
    let source = lists.source;
    let values = first_values(alloc, env, source, escaping)?;
    translation.module.table_initialization = no_images(alloc, values.len())?;
    translation.table_initialization.initial_values = values;
    let FirstGlobals { known, left } = first_globals(alloc, env, source, escaping)?;
    translation.module.global_initializers = known;
    translation.global_initializers = left;
    let strings = &translation.module.strings;
    translation.module.exports = convert_exports(alloc, source, strings, escaping)?;
    let ElementSegments {
        active,
        passive,
        kinds,
        numbers,
        count: _,
    } = convert_elements(alloc, env, source, escaping)?;
    translation.table_initialization.segments = active;
    translation.passive_elements = passive;
    translation.module.passive_elements = kinds;
    translation.passive_elem_map = numbers;
    add_segments(alloc, env, source, translation)
}
