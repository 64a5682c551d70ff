//! How long the text of a plan is at most. Each function is the proof of its clauses.

ghost use Rattle.std.specs.Prelude.{◌≤◌, ◌+◌, ◌*◌, length, sum_by, count_by, is_some};
ghost use Rattle.plan_text.specs.PlanText.{entities_text, names_text, tables_text, memories_text, sizes_text};
ghost use Rattle.plan_laws.specs.TextCosts.{
  name_bytes,
  import_bytes,
  module_name_bytes,
  value_operators,
  place_operators,
  layout_fields,
  images_in,
  segments_in,
  TextAtMost,
};

use crate::entity_bytes::{
    counts, declared, escapes, exports, function_hints, function_names, imports, module_name,
    signatures, start, startup,
};
use crate::memory_bytes::{
    alignment, context, data_segments, layouts, memory_images, passive_data, runtime_data,
};
use crate::table_bytes::{
    element_segments, first_values, globals, images, initial_values, passive_elements,
};
use crate::type_list_bytes::type_list;
use init_plan::ModuleTranslation;
use plan_text::Plan;

fn entities(t: &ModuleTranslation<'_>)
    ensures { length (entities_text t.now) ≤ 128 * (6 + length t.now.module.types + length t.now.module.initializers.items
        + length t.now.module.functions + length t.now.exported_signatures.items + length t.now.module.exports.entries)
        + 3 * (sum_by (import_bytes t.now.module.strings) t.now.module.initializers.items
        + sum_by (λ export. name_bytes t.now.module.strings export.0) t.now.module.exports.entries) }
{
    let module = &t.module;
    declared(&module.types);
    imports(&module.strings, module.initializers.as_slice());
    counts(module);
    escapes(&module.functions);
    signatures(t.exported_signatures.as_slice());
    exports(&module.strings, &module.exports);
}

fn names(t: &ModuleTranslation<'_>)
    ensures { length (names_text t.now) ≤ 128 * (1 + length t.now.debuginfo.name_section.func_names.entries + length t.now.module.functions)
        + 3 * (module_name_bytes t.now.module.strings t.now.module.name
        + sum_by (λ name. length name.1.now) t.now.debuginfo.name_section.func_names.entries) }
{
    module_name(&t.module.strings, t.module.name);
    function_names(&t.debuginfo.name_section.func_names);
    function_hints(t);
}

fn tables(t: &ModuleTranslation<'_>)
    ensures { length (tables_text t.now) ≤ 128 * (1 + length t.now.module.global_initializers.items + length t.now.global_initializers.items
        + length t.now.table_initialization.initial_values + length t.now.module.table_initialization
        + length t.now.table_initialization.segments.items + length t.now.module.passive_elements)
        + 48 * (sum_by (λ g. length g.1) t.now.global_initializers.items + sum_by value_operators t.now.table_initialization.initial_values
        + sum_by (λ s. length s.offset) t.now.table_initialization.segments.items)
        + 11 * sum_by (λ image. length image.items) t.now.module.table_initialization }
{
    let module = &t.module;
    start(t.start_func);
    globals(module.global_initializers.as_slice());
    first_values(t.global_initializers.as_slice());
    initial_values(&t.table_initialization.initial_values);
    images(&module.table_initialization);
    element_segments(t.table_initialization.segments.as_slice());
    passive_elements(&module.passive_elements);
}

fn memories(t: &ModuleTranslation<'_>)
    ensures { length (memories_text t.now) ≤ 128 * (2 + length (images_in t.now.module.memory_initialization)
        + length (segments_in t.now.memory_init) + count_by is_some t.now.runtime_data_map.items + length t.now.module.runtime_data)
        + 48 * sum_by (λ s. place_operators s.1) (segments_in t.now.memory_init) }
{
    alignment(t.data_align);
    memory_images(&t.module.memory_initialization);
    data_segments(&t.memory_init);
    passive_data(&t.runtime_data_map);
    runtime_data(&t.module.runtime_data);
}

fn sizes(plan: &Plan<'_>)
    ensures { length (sizes_text plan.now) ≤ 128 * (17 + length plan.now.layouts) + 48 * sum_by layout_fields plan.now.layouts }
{
    startup(&plan.translation.module.startup);
    layouts(&plan.layouts);
    context(&plan.offsets);
}

/// The text of a plan is at most as long as what the plan lists: 128 bytes for each line, 48 for
/// each part of a type, operator of an expression or field of a layout, 11 for each cell of a
/// table's image, and 3 for each byte of a name. It holds of each plan, whatever it was made of.
pub fn text_law(plan: &Plan<'_>)
    ensures { TextAtMost plan.now }
{
    type_list(&plan.types);
    entities(&plan.translation);
    names(&plan.translation);
    tables(&plan.translation);
    memories(&plan.translation);
    sizes(plan);
}
