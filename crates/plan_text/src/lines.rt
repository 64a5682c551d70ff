//! The lines of a plan.

ghost use Rattle.std.specs.Prelude.{◌≡◌, ◌++◌, IfOk, OnOk};
ghost use Rattle.plan_text.specs.PlanText.{IsPrintable, text_of_plan, entities_text, names_text, tables_text, memories_text, sizes_text};

use crate::Plan;
use entity_map::OutOfMemory;
use init_plan::ModuleTranslation;
use plan_lines::{
    Text, append_alignment, append_context, append_declared, append_elements, append_entity_counts,
    append_escapes, append_exports, append_function_names, append_gc_heap,
    append_global_expressions, append_globals, append_hints, append_imports, append_initialization,
    append_initialization_images, append_layouts, append_module_name, append_passive_data,
    append_passive_elements, append_regions, append_runtime_data, append_segments,
    append_signatures, append_start, append_startup, append_table_images, append_table_values,
    append_types,
};
use std::alloc::Global;

/// The largest capacity, in bytes, with which a text begins.
const MOST_ROOM: usize = 64 << 20;

/// The text of a plan, each line ended by a line feed.
///
/// # Errors
/// `OutOfMemory` where the text finds no memory.
#[tactic(auto, unfolding(crate::specs::PlanText::text_of_plan))]
pub fn plan_text(alloc: Global, plan: &Plan<'_>) -> Result<Vec<u8>, OutOfMemory>
    requires { IsPrintable plan.now.translation }
    ensures { IfOk result (λ text. text.items ≡ text_of_plan plan.now) }
{
    // A long text that grows is moved, and memory that is not written costs nothing: so it begins
    // with more capacity than most texts need.
    let length = plan.translation.wasm.len();
    let mut text = Text::with_capacity(alloc, 4 * length.min(MOST_ROOM / 4))?;
    append_types(&mut text, &plan.types)?;
    append_entities(&mut text, &plan.translation)?;
    append_names(&mut text, &plan.translation)?;
    append_tables(&mut text, &plan.translation)?;
    append_memories(&mut text, &plan.translation)?;
    append_sizes(&mut text, plan)?;
    Ok(text.into_bytes())
}

// Declared types, imports, counts, and what escapes or is exported.
#[tactic(auto, unfolding(crate::specs::PlanText::entities_text))]
fn append_entities(text: &mut Text, translation: &ModuleTranslation<'_>) -> Result<(), OutOfMemory>
    requires { IsPrintable translation.now }
    ensures { OnOk result (text.new ≡ text.old ++ entities_text translation.now) }
{
    let module = &translation.module;
    append_declared(text, &module.types)?;
    append_imports(text, &module.strings, &module.initializers)?;
    append_entity_counts(text, module)?;
    append_gc_heap(text, module.needs_gc_heap)?;
    append_escapes(text, &module.functions)?;
    append_signatures(text, &translation.exported_signatures)?;
    append_exports(text, &module.strings, &module.exports)
}

// The names of the module and of its functions, and the hints of branches.
#[tactic(auto, unfolding(crate::specs::PlanText::names_text))]
fn append_names(text: &mut Text, translation: &ModuleTranslation<'_>) -> Result<(), OutOfMemory>
    requires { IsPrintable translation.now }
    ensures { OnOk result (text.new ≡ text.old ++ names_text translation.now) }
{
    let module = &translation.module;
    append_module_name(text, &module.strings, module.name)?;
    append_function_names(text, &translation.debuginfo.name_section.func_names)?;
    append_hints(text, translation)
}

// The start function, globals, and how tables begin.
#[tactic(auto, unfolding(crate::specs::PlanText::tables_text))]
fn append_tables(text: &mut Text, translation: &ModuleTranslation<'_>) -> Result<(), OutOfMemory>
    ensures { OnOk result (text.new ≡ text.old ++ tables_text translation.now) }
{
    let module = &translation.module;
    let tables = &translation.table_initialization;
    append_start(text, translation.start_func)?;
    append_globals(text, &module.global_initializers)?;
    append_global_expressions(text, &translation.global_initializers)?;
    append_table_values(text, &tables.initial_values)?;
    append_table_images(text, &module.table_initialization)?;
    append_elements(text, &tables.segments)?;
    append_passive_elements(text, &module.passive_elements)
}

// How memories begin, and runtime data.
#[tactic(auto, unfolding(crate::specs::PlanText::memories_text))]
fn append_memories(text: &mut Text, translation: &ModuleTranslation<'_>) -> Result<(), OutOfMemory>
    ensures { OnOk result (text.new ≡ text.old ++ memories_text translation.now) }
{
    let module = &translation.module;
    append_initialization(text, &module.memory_initialization)?;
    append_alignment(text, translation.data_align)?;
    append_initialization_images(text, &module.memory_initialization)?;
    append_segments(text, &translation.memory_init)?;
    append_passive_data(text, &translation.runtime_data_map)?;
    append_runtime_data(text, &module.runtime_data)
}

// Startup, the layouts of objects, and the context region by region.
#[tactic(auto, unfolding(crate::specs::PlanText::sizes_text))]
fn append_sizes(text: &mut Text, plan: &Plan<'_>) -> Result<(), OutOfMemory>
    ensures { OnOk result (text.new ≡ text.old ++ sizes_text plan.now) }
{
    append_startup(text, &plan.translation.module.startup)?;
    append_layouts(text, &plan.layouts)?;
    append_regions(text, &plan.offsets)?;
    append_context(text, &plan.offsets)
}
