//! A plan as tables of numbers and bytes, for `planner_c`, whose rows C, Rust and the page read.
//!
//! `fill_record` puts every field of the plan into the record, as `Tells` in `specs/` says. Bytes
//! that the plan has from the module stay in the module.
//!
//! ```
//! fill_record(alloc, &mut plan, &mut out)?;
//! let memories = out.kinds.memories; // imported ones first
//! let images = out.memories.images;
//! let regions = out.regions;
//! ```
//!
//! Tables are copies in memory that the caller frees. The plan has no bytes of runtime data after
//! the call, since the record owns them.
//!
//! Read on: `record`, `rows`, `filling`; `embed/README.md` explains the tables for callers.
#![tactic(auto)]

mod bodies;
mod context;
mod debug;
mod expressions;
mod facts;
mod filling;
mod functions;
mod globals;
mod interned;
mod items;
mod kinds;
mod layouts;
mod memories;
mod memory_sizes;
mod names;
mod numbers;
mod operators;
mod places;
mod record;
mod rows;
mod runtime;
mod segments;
mod sizes;
mod struct_rows;
mod structs;
mod tables;
mod types;
mod values;

pub use bodies::{read_heap_number, read_index_list, read_index_number, read_ref_row};
pub use filling::fill_record;
pub use operators::operator_row;
pub use record::{
    BodiesRecord, BodyRow, DebugRecord, ElementItemsRecord, ExportsRecord, ExpressionsRecord,
    FunctionNameRow, FunctionsRecord, GlobalsRecord, ImportsRecord, InternedRecord, ItemsRecord,
    KindsRecord, LayoutsRecord, LocalNameRow, MemoriesRecord, NamesRecord, PlacesRecord,
    PlanRecord, RegionRow, RuntimeRow, TablesRecord, TypesRecord,
};
pub use rows::{
    BranchHintRow, Context, ElementsRow, Entities, ExportRow, Facts, FieldRow, GlobalRow,
    GlobalValueRow, HintsRow, ImageRow, ImportRow, ItemsRow, LayoutFieldRow, LayoutRow, LocalsRow,
    MemoryRow, NumberRange, OperatorRow, PassiveElementsRow, PassiveRow, PassiveSegmentRow,
    SegmentRow, Span, TableRow, TagRow, TrampolineRow, TypeRow, ValueRow,
};
pub use struct_rows::{
    FuncRefLayout, FunctionImportLayout, GlobalDefinitionLayout, GlobalImportLayout,
    MemoryDefinitionLayout, MemoryImportLayout, StaticContextLayout, StoreContextLayout, Structs,
    TableDefinitionLayout, TableImportLayout, TagDefinitionLayout, TagImportLayout,
};
