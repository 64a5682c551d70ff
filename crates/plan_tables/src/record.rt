//! The record of a plan, which C can read.
//!
//! `embed/generate` makes the structs of C and Rust from this file, as of `rows`. A part of the
//! plan without a name in C is no struct there: its fields are fields of the plan. A list of the
//! plan is freed with it.

use crate::rows::{
    BranchHintRow, Context, ElementsRow, Entities, ExportRow, Facts, FieldRow, GlobalRow,
    GlobalValueRow, HintsRow, ImageRow, ImportRow, ItemsRow, LayoutFieldRow, LayoutRow, LocalsRow,
    MemoryRow, NumberRange, OperatorRow, PassiveElementsRow, PassiveRow, PassiveSegmentRow,
    SegmentRow, Span, TableRow, TagRow, TrampolineRow, TypeRow,
};
use crate::struct_rows::Structs;

/// Bytes that a plan refers to, of the module or made by the plan: `bobbinazure_runtime`.
#[repr(C)]
#[derive(Clone, Copy)]
pub struct RuntimeRow<'d> {
    /// Whether the plan made the bytes; 0 where they are those of the module, which must outlive
    /// the plan.
    pub made: u32,
    /// The bytes.
    pub bytes: &'d [u8],
}

/// A region of the context: `bobbinazure_region`.
#[repr(C)]
#[derive(Clone, Copy)]
pub struct RegionRow {
    /// Where in the context it begins, in bytes.
    pub begin: u32,
    /// Its size, in bytes.
    pub size: u32,
    /// Its name, which says what it holds, in ASCII.
    pub name: &'static [u8],
}

/// Types and functions.
#[repr(C)]
#[derive(Clone, Copy)]
pub struct TypesRecord<'d> {
    /// The interned type of each type of the type section.
    pub declared: &'d [u32],
    /// The recursion groups of interned types.
    pub groups: &'d [NumberRange],
    /// The interned type of each function, imported ones first.
    pub functions: &'d [u32],
    /// The index of each function among those that escape; `u32::MAX` of one that does not.
    pub escapes: &'d [u32],
    /// The interned types of the functions that escape, each once.
    pub signatures: &'d [u32],
}

/// The types of the other entities, imported ones first.
#[repr(C)]
#[derive(Clone, Copy)]
pub struct KindsRecord<'d> {
    /// The memories, imported ones first. The next three lists are of the other kinds, likewise.
    pub memories: &'d [MemoryRow],
    pub tables: &'d [TableRow],
    pub globals: &'d [GlobalRow],
    pub tags: &'d [TagRow],
}

/// How memories begin.
#[repr(C)]
#[derive(Clone, Copy)]
pub struct MemoriesRecord<'d> {
    /// The runtime data: images or the bytes of active segments, then those of passive ones.
    pub runtime: &'d [RuntimeRow<'d>],
    /// The range of each runtime data; the ranges are end to end from 0. Images have whole pages, so
    /// each of their ranges begins at a multiple of `data_align`.
    pub runtime_ranges: &'d [NumberRange],
    /// The images of memories, by ascending memory.
    pub images: &'d [ImageRow],
    /// What startup writes to memories, in order: data segments, or, where images are made, each of
    /// the images. An engine leaves out an image that it maps.
    pub segments: &'d [SegmentRow],
    /// The passive data segments, by ascending segment.
    pub passive: &'d [PassiveRow],
}

/// How tables begin.
#[repr(C)]
#[derive(Clone, Copy)]
pub struct TablesRecord<'d> {
    /// The image of each defined table, a part of the next list: `table_images`.
    pub images: &'d [Span],
    /// Functions by their indices; `u32::MAX` for the null reference.
    pub cells: &'d [u32],
    /// The element segments that remain to be written, in order.
    pub elements: &'d [ElementsRow],
}

/// The name of a function: `bobbinazure_function_name`.
#[repr(C)]
#[derive(Clone, Copy)]
pub struct FunctionNameRow<'d> {
    /// The function, by its index.
    pub function: u32,
    /// Its name, in the module's bytes, in UTF-8.
    pub name: &'d [u8],
}

/// Constant expressions: `bobbinazure_expressions`.
#[repr(C)]
#[derive(Clone, Copy)]
pub struct ExpressionsRecord<'d> {
    /// The part of the operators that each is.
    pub parts: &'d [Span],
    /// The operators of all, end to end.
    pub operators: &'d [OperatorRow],
}

/// The items of element segments: `bobbinazure_element_items`.
#[repr(C)]
#[derive(Clone, Copy)]
pub struct ElementItemsRecord<'d> {
    /// The items of each segment, in order.
    pub rows: &'d [ItemsRow],
    /// The items that are functions, by their indices, end to end.
    pub functions: &'d [u32],
    /// The items that are constant expressions, end to end.
    pub expressions: ExpressionsRecord<'d>,
}

/// The items of the element segments of a plan.
#[repr(C)]
#[derive(Clone, Copy)]
pub struct ItemsRecord<'d> {
    /// The items of each of `elements`: `element_items`.
    pub kept: ElementItemsRecord<'d>,
    /// The items of each of `passive_elements`: `passive_items`.
    pub passive: ElementItemsRecord<'d>,
}

/// The body of a function: `bobbinazure_body`.
#[repr(C)]
#[derive(Clone, Copy)]
pub struct BodyRow<'d> {
    /// Its bytes, which follow its size: its locals, then its code. A part of the module's bytes.
    pub bytes: &'d [u8],
    /// Its code, behind its locals, up to the end of the body: a part of the module's bytes.
    pub code: &'d [u8],
    /// Its locals, a part of the plan's list `locals`.
    pub locals: Span,
}

/// The bodies of the defined functions, and their locals end to end.
#[repr(C)]
#[derive(Clone, Copy)]
pub struct BodiesRecord<'d> {
    /// The body of each defined function, in order: `bodies`.
    pub rows: &'d [BodyRow<'d>],
    /// The locals of bodies, end to end, in runs of one type.
    pub locals: &'d [LocalsRow],
}

/// The name of a local: `bobbinazure_local_name`.
#[repr(C)]
#[derive(Clone, Copy)]
pub struct LocalNameRow<'d> {
    /// The function, by its index.
    pub function: u32,
    /// The local, by its index; the parameters come first.
    pub local: u32,
    /// Its name, in the module's bytes, in UTF-8.
    pub name: &'d [u8],
}

/// What `native_debug` keeps besides names of functions.
#[repr(C)]
#[derive(Clone, Copy)]
pub struct DebugRecord<'d> {
    /// How many functions are imported: `imported_func_count`.
    pub imports: u32,
    /// The names of locals from the custom section `name`, by functions and then by locals, as far as
    /// the function is declared before that section; `bobbinazure_names` gives all. This list and the
    /// next two are empty without `native_debug`: `local_names`.
    pub names: &'d [LocalNameRow<'d>],
    /// The locals of each defined function, a part of the next list. Its parameters are those of
    /// its type, which `functions` names: `function_metadata`.
    pub functions: &'d [Span],
    /// The locals of functions, end to end, in runs of one interned type: `metadata_locals`.
    pub locals: &'d [LocalsRow],
}

/// What functions have besides their types, and passive elements.
#[repr(C)]
#[derive(Clone, Copy)]
pub struct FunctionsRecord<'d> {
    /// The passive element segments, in order.
    pub passive_elements: &'d [PassiveElementsRow],
    /// The names of functions, ascending, for each the last one. A function has a name only where it is
    /// declared before the section of names; `bobbinazure_names` gives all: `function_names`.
    pub names: &'d [FunctionNameRow<'d>],
    /// The functions that have an entry in the hints of branches, ascending. The last section without a
    /// fault counts, and in it the first entry of each.
    pub hints: &'d [HintsRow],
    /// The branch hints, function by function, those of a function in the order of the section.
    pub branch_hints: &'d [BranchHintRow],
    /// Which segments of the element section are passive, in order.
    pub passive_segments: &'d [PassiveSegmentRow],
}

/// How globals begin.
#[repr(C)]
#[derive(Clone, Copy)]
pub struct GlobalsRecord<'d> {
    /// The defined globals that begin as a known value: `global_values`.
    pub values: &'d [GlobalValueRow],
    /// The defined globals that begin as the value of an expression, each by its number among the
    /// defined ones: `expressed_globals`.
    pub expressed: &'d [u32],
}

/// Imports, and their names end to end.
#[repr(C)]
#[derive(Clone, Copy)]
pub struct ImportsRecord<'d> {
    /// The imports, in order: `imports`.
    pub rows: &'d [ImportRow],
    /// The names of imports, end to end, in UTF-8: `import_names`.
    pub names: &'d [u8],
}

/// Exports, and their names end to end.
#[repr(C)]
#[derive(Clone, Copy)]
pub struct ExportsRecord<'d> {
    /// The exports, in order: `exports`.
    pub rows: &'d [ExportRow],
    /// The names of exports, end to end, in UTF-8: `export_names`.
    pub names: &'d [u8],
}

/// Layouts of objects, and their fields end to end.
#[repr(C)]
#[derive(Clone, Copy)]
pub struct LayoutsRecord<'d> {
    /// The layouts of the objects of interned types that have some, by ascending type: `layouts`.
    pub rows: &'d [LayoutRow],
    /// The fields of layouts, end to end: `layout_fields`.
    pub fields: &'d [LayoutFieldRow],
}

/// Interned types, and their fields end to end.
#[repr(C)]
#[derive(Clone, Copy)]
pub struct InternedRecord<'d> {
    /// The interned types: `interned`.
    pub types: &'d [TypeRow],
    /// The fields of interned types, end to end.
    pub fields: &'d [FieldRow],
    /// The interned types that have a trampoline, in order.
    pub trampolines: &'d [TrampolineRow],
}

/// The constant expressions of a plan.
#[repr(C)]
#[derive(Clone, Copy)]
pub struct PlacesRecord<'d> {
    /// The expression of each of `expressed_globals`: `global_expressions`.
    pub globals: ExpressionsRecord<'d>,
    /// The offset of each of `segments`, as an expression; it has no operators where the offset is
    /// planned: `segment_places`.
    pub segments: ExpressionsRecord<'d>,
    /// The offset of each of `elements`, as an expression: `element_places`.
    pub elements: ExpressionsRecord<'d>,
    /// The initialiser of each defined table. It has no operators where the table declares none, or
    /// where `lazy_tables` made it an image, even of no cells; plan without that option to
    /// see it: `table_values`.
    pub tables: ExpressionsRecord<'d>,
}

/// Imports and exports with their names, and which part of its text the module's name is.
#[repr(C)]
#[derive(Clone, Copy)]
pub struct NamesRecord<'d> {
    pub imports: ImportsRecord<'d>,
    pub exports: ExportsRecord<'d>,
    /// The module's name, if it has one, a part of `module_text`: `module_names`.
    pub own: &'d [Span],
}

/// A plan, or why there is none: `bobbinazure_plan`.
#[repr(C)]
#[derive(Clone, Copy)]
pub struct PlanRecord<'d> {
    /// Why the module is refused, from `BOBBINAZURE_MALFORMED` on; 0 of a plan.
    pub refusal: u32,
    /// Of an invalid module the rule that it breaks, from 1 to 10; of an unsupported one what is
    /// not supported, from `BOBBINAZURE_COMPONENT` on.
    pub refusal_detail: u32,
    /// The line of the refusal, as the program prints it, with its line feed. It is never freed.
    pub refusal_line: &'static [u8],
    /// How many entities there are.
    pub entities: Entities,
    pub facts: Facts,
    /// Where the parts of the context begin. Align a context to 16 bytes.
    pub context: Context,
    pub types: TypesRecord<'d>,
    pub kinds: KindsRecord<'d>,
    pub memories: MemoriesRecord<'d>,
    pub tables: TablesRecord<'d>,
    /// The regions of the context, the last one first.
    pub regions: &'d [RegionRow],
    pub functions: FunctionsRecord<'d>,
    pub globals: GlobalsRecord<'d>,
    pub places: PlacesRecord<'d>,
    pub names: NamesRecord<'d>,
    pub layouts: LayoutsRecord<'d>,
    pub interned: InternedRecord<'d>,
    /// The text of the module's name, in UTF-8.
    pub module_text: &'d [u8],
    /// The sizes of the structs that compiled code reads, and where their fields begin.
    pub structs: Structs,
    pub items: ItemsRecord<'d>,
    pub bodies: BodiesRecord<'d>,
    pub debug: DebugRecord<'d>,
}
