//! The lines of a plan's text, one function for each kind of line, for `plan_text`.
//!
//! Each call appends exactly the bytes that its definition in `specs/` says. docs/FORMAT.md
//! explains the lines.
//!
//! ```
//! let mut text = Text::new(alloc);
//! append_types(&mut text, &plan.types)?;
//! append_start(&mut text, plan.translation.start_func)?;
//! let bytes = text.into_bytes();
//! ```
//!
//! The only error is `OutOfMemory`; the text may then end anywhere. A line takes memory for its
//! bytes.
//!
//! Read on: `text`, then a file for each kind of line, such as `memory_lines`; `plan_text` puts
//! lines in order.
#![tactic(auto)]

mod context_lines;
mod digits;
mod expressions;
mod field_words;
mod global_lines;
mod hint_lines;
mod layout_lines;
mod memory_lines;
mod module_lines;
mod name_lines;
mod numbers;
mod quoted;
mod reference_words;
mod room;
mod segment_lines;
mod table_lines;
mod text;
mod type_lines;
mod type_list_lines;
mod type_words;
mod value_words;
mod worked;

pub use context_lines::{append_context, append_region, append_regions};
pub use expressions::{append_expression, append_operator};
pub use global_lines::{
    append_global, append_global_expression, append_global_expressions, append_globals, constant_of,
};
pub use hint_lines::{append_function_hints, append_hints};
pub use layout_lines::{append_array_layout, append_fields_layout, append_layout, append_layouts};
pub use memory_lines::{
    append_alignment, append_image, append_images, append_passive, append_passive_data,
    append_runtime_data,
};
pub use module_lines::{
    append_entity_counts, append_escape, append_escapes, append_gc_heap, append_imports,
    append_start, append_startup,
};
pub use name_lines::{
    append_export, append_exports, append_function_name, append_function_names, append_import,
    append_module_name,
};
pub use numbers::{append_counts, append_numbers};
pub use quoted::append_quoted;
pub use segment_lines::{
    append_element, append_elements, append_initialization, append_initialization_images,
    append_offset, append_segment, append_segments, append_table_value, append_table_values,
};
pub use table_lines::{
    append_passive_element, append_passive_elements, append_table_image, append_table_images,
};
pub use text::Text;
pub use type_lines::{append_declared, append_signatures, append_type};
pub use type_list_lines::append_types;
pub use worked::{worked_expressions, worked_lines, worked_names};
