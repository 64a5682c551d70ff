//! Rows of numbers, with C's layout.
//!
//! `embed/generate` makes the structs of C and Rust from this file: a struct's comment ends with
//! its name in C, a field's with its name in C where that is another one, and the rest is its
//! comment there. A `u8` whose comment begins with `Whether` is a `bool` in Rust.
//!
//! An array of `Context` has a comment in two parts. The first names its region, and says what each
//! entry is: a struct of `structs`, a pointer or a number. The second is for the method of Rust that
//! tells where an entry begins. It ends with that method and what its index counts.

/// How many entities of each kind there are, imported ones among them, and how many are
/// imported: `bobbinazure_entities`.
#[repr(C)]
#[derive(Clone, Copy)]
pub struct Entities {
    /// All functions.
    pub functions: u64,
    /// Those that are imported; they come first.
    pub imported_functions: u64,
    /// All tables.
    pub tables: u64,
    /// Those that are imported.
    pub imported_tables: u64,
    /// All memories.
    pub memories: u64,
    /// Those that are imported.
    pub imported_memories: u64,
    /// All globals.
    pub globals: u64,
    /// Those that are imported.
    pub imported_globals: u64,
    /// All tags.
    pub tags: u64,
    /// Those that are imported.
    pub imported_tags: u64,
}

/// What is given as one number each; these numbers are fields of `bobbinazure_plan`.
#[repr(C)]
#[derive(Clone, Copy)]
pub struct Facts {
    /// When the startup function runs, from `BOBBINAZURE_STARTUP_NONE` on: never, always, or where
    /// a memory does not begin as its image. The engine makes that function.
    pub startup: u32,
    /// The interned type of the startup function. Read it only where one may run: 0 is a type too.
    pub startup_type: u32,
    /// Whether memories begin as images. There may be no image all the same.
    pub images_made: u32,
    /// How many interned types there are.
    pub types: u32,
    /// The alignment of images, in bytes; 0 where `images_made` is 0.
    pub data_align: u64,
    /// The index of the start function; `u32::MAX` where there is none.
    pub start: u32,
    /// Whether a defined table has elements other than references to functions and continuations; those
    /// to i31 count. Where it is 0, imported tables, globals and code may still need a heap.
    pub needs_gc_heap: u32,
    /// How many functions escape, so that the context has a reference to each: `escaped_functions`.
    pub escaped: u64,
    /// Where the contents of the code section begin in the module, in bytes; 0 without a code
    /// section.
    pub code_section_offset: u64,
    /// Where the module begins in the bytes that were read: 0.
    pub module_offset: u64,
    /// Whether the module has sections of debug information (DWARF), none of which is read.
    pub has_unparsed_debuginfo: u32,
    /// The bytes of a pointer of the target: 4 or 8.
    pub pointer: u32,
}

/// Where the parts of a context begin, in bytes. A part has an entry for each thing that it is of, in
/// order: a struct of `structs`, a pointer or a number. Those of `func_refs` are numbered by
/// `escapes`: `bobbinazure_context`.
#[repr(C)]
#[derive(Clone, Copy)]
pub struct Context {
    /// The size of the complete context.
    pub size: u32,
    /// The imported memories, each a `memory_import`.
    /// The import of a memory: `vmctx_vmmemory_import(import)`.
    pub imported_memories: u32,
    /// The defined memories, each a pointer to its definition.
    /// The pointer to the definition of a memory: `vmctx_vmmemory_pointer(defined)`.
    pub memories: u32,
    /// The owned memories, each a `memory_definition`: the defined ones that are not shared.
    /// The definition of a memory that is not shared, by its number among those that the module
    /// defines: `vmctx_vmmemory_definition(owned)`.
    pub owned_memories: u32,
    /// The imported functions, each a `function_import`.
    /// The import of a function: `vmctx_vmfunction_import(import)`.
    pub imported_functions: u32,
    /// The imported tables, each a `table_import`.
    /// The import of a table: `vmctx_vmtable_import(import)`.
    pub imported_tables: u32,
    /// The imported globals, each a `global_import`.
    /// The import of a global: `vmctx_vmglobal_import(import)`.
    pub imported_globals: u32,
    /// The imported tags, each a `tag_import`.
    /// The import of a tag: `vmctx_vmtag_import(import)`.
    pub imported_tags: u32,
    /// The defined tables, each a `table_definition`.
    /// The definition of a table: `vmctx_vmtable_definition(defined)`.
    pub tables: u32,
    /// The defined globals, each a `global_definition` of 16 bytes.
    /// The definition of a global: `vmctx_vmglobal_definition(defined)`.
    pub globals: u32,
    /// The defined tags, each a `tag_definition`.
    /// The definition of a tag: `vmctx_vmtag_definition(defined)`.
    pub tags: u32,
    /// The module functions, each a `func_ref`: those that escape.
    /// A reference to a function, by its number among the functions that escape:
    /// `vmctx_vmfunc_ref(escaping)`.
    pub func_refs: u32,
    /// The runtime data base pointers, each a pointer to bytes.
    /// The pointer to the bytes of a runtime data: `vmctx_runtime_data_base(runtime)`.
    pub runtime_data_bases: u32,
    /// The runtime data lengths, each a number of 4 bytes: a length in bytes.
    /// The length of a runtime data, a number of 32 bits: `vmctx_runtime_data_length(runtime)`.
    pub runtime_data_lengths: u32,
    /// The reference to the startup function, a `func_ref` behind `func_refs`; `u32::MAX` where there
    /// is none.
    pub startup_func_ref: u32,
}

/// From one number up to another, the second not included: `bobbinazure_range`.
#[repr(C)]
#[derive(Clone, Copy)]
pub struct NumberRange {
    /// The first number.
    pub begin: u32,
    /// The number behind the last one.
    pub end: u32,
}

/// A part of a list of the plan: `bobbinazure_span`.
#[repr(C)]
#[derive(Clone, Copy)]
pub struct Span {
    /// The number of its first item.
    pub begin: usize,
    /// How many items it has.
    pub len: usize,
}

/// The type of a value or a field: `bobbinazure_value`.
#[repr(C)]
#[derive(Clone, Copy)]
pub struct ValueRow {
    /// What it is, from `BOBBINAZURE_I32` on: 0 to 4 a number or a vector, 5 a reference, 6 and 7 a
    /// packed integer.
    pub kind: u8,
    /// Whether the reference may be null.
    pub nullable: u8,
    /// What the reference is to, from `BOBBINAZURE_HEAP_EXTERN` on.
    pub heap: u8,
    /// Which list the index is of, from `BOBBINAZURE_NO_INDEX` on.
    pub list: u8,
    /// The index of the type that the reference is to; 0 where it has none.
    pub index: u32,
}

/// A memory: `bobbinazure_memory`.
#[repr(C)]
#[derive(Clone, Copy)]
pub struct MemoryRow {
    /// The least size, in pages.
    pub minimum: u64,
    /// The greatest size, in pages; `u64::MAX` where none is declared.
    pub maximum: u64,
    /// The least size, in bytes; `u64::MAX` where it has more bytes than that.
    pub minimum_bytes: u64,
    /// The greatest size, in bytes; `u64::MAX` where it has more bytes than that. Without a greatest
    /// size in pages it is what addresses reach (2^32, or a page less than 2^64), or the least size if
    /// that is more.
    pub maximum_bytes: u64,
    /// The page size as an exponent of 2: 0 or 16.
    pub page_size_log2: u8,
    /// Whether threads may share it.
    pub shared: u8,
    /// Whether addresses have 64 bits.
    pub wide: u8,
    /// Whether a greatest size is declared, which may be `u64::MAX` too.
    pub bounded: u8,
}

/// A table: `bobbinazure_table`.
#[repr(C)]
#[derive(Clone, Copy)]
pub struct TableRow {
    /// The least size, in cells.
    pub minimum: u64,
    /// The greatest size, in cells; `u64::MAX` where none is declared.
    pub maximum: u64,
    /// The type of its elements, a reference.
    pub element: ValueRow,
    /// Whether indices have 64 bits.
    pub wide: u32,
    /// Whether a greatest size is declared, which may be `u64::MAX` too.
    pub bounded: u32,
}

/// A global: `bobbinazure_global`.
#[repr(C)]
#[derive(Clone, Copy)]
pub struct GlobalRow {
    /// The type of its value.
    pub value: ValueRow,
    /// Whether it is mutable.
    pub writable: u32,
}

/// A tag: `bobbinazure_tag`.
#[repr(C)]
#[derive(Clone, Copy)]
pub struct TagRow {
    /// The interned type of its function.
    pub signature: u32,
    /// The interned type of its exceptions.
    pub exception: u32,
}

/// The image of a memory: `bobbinazure_image`.
#[repr(C)]
#[derive(Clone, Copy)]
pub struct ImageRow {
    /// The memory, by its index.
    pub memory: u32,
    /// The runtime data that holds it.
    pub runtime: u32,
    /// Its address in the memory, in bytes: a multiple of `data_align`, as its length is.
    pub offset: u64,
}

/// A data segment that remains to be written. One of kind `BOBBINAZURE_AT_BYTE` is an image, which
/// is among `images` too: `bobbinazure_segment`.
#[repr(C)]
#[derive(Clone, Copy)]
pub struct SegmentRow {
    /// The memory that it writes, by its index.
    pub memory: u32,
    /// The runtime data that it writes.
    pub runtime: u32,
    /// How `offset` gives its address, from `BOBBINAZURE_AT_BYTE` on: 0 as a planned address, 1 as
    /// a constant, 2 as a global, 3 not at all.
    pub kind: u32,
    /// The address in bytes, or the index of the global that holds it; 0 where another expression
    /// gives it.
    pub offset: u64,
}

/// A passive data segment, also an empty one: `bobbinazure_passive`.
#[repr(C)]
#[derive(Clone, Copy)]
pub struct PassiveRow {
    /// Its number in the data section.
    pub segment: u32,
    /// The runtime data that holds its bytes.
    pub runtime: u32,
}

/// An element segment that remains to be written: `bobbinazure_elements`.
#[repr(C)]
#[derive(Clone, Copy)]
pub struct ElementsRow {
    /// The table that it writes.
    pub table: u32,
    /// How `offset` gives its cell, as of a data segment; never 0.
    pub kind: u32,
    /// The cell at which it begins, or the index of the global that holds it; 0 where another
    /// expression gives it.
    pub offset: u64,
    /// How many elements it has.
    pub count: u64,
}

/// The items of an element segment, of which one of the two lists is empty: `bobbinazure_items`.
#[repr(C)]
#[derive(Clone, Copy)]
pub struct ItemsRow {
    /// The type of each item, a reference.
    pub element: ValueRow,
    /// The items that are functions, a part of `functions` of the list of items.
    pub functions: Span,
    /// The items that are constant expressions, a part of `expressions.parts` of the same list.
    pub expressions: Span,
}

/// Locals of one type: `bobbinazure_locals`.
#[repr(C)]
#[derive(Clone, Copy)]
pub struct LocalsRow {
    /// How many there are.
    pub count: u32,
    /// Their type. In `locals` a type of the module is named by the type section: `list` is
    /// `BOBBINAZURE_OF_SECTION`, and `heap` is `BOBBINAZURE_HEAP_DECLARED`. In `metadata_locals` it is
    /// an interned type.
    pub value: ValueRow,
}

/// An operator of a constant expression: `bobbinazure_operator`.
#[repr(C)]
#[derive(Clone, Copy)]
pub struct OperatorRow {
    /// Which one, from `BOBBINAZURE_I32_CONST` on.
    pub code: u8,
    /// What a null reference is to, from `BOBBINAZURE_HEAP_EXTERN` on.
    pub heap: u8,
    /// Which list the index of a null reference is of, from `BOBBINAZURE_NO_INDEX` on.
    pub list: u8,
    /// The global, the function or the type that it names. An operator that makes an object names its
    /// type by the type section; a null reference by `list`.
    pub index: u32,
    /// The bits of a constant, of a vector the lower half; of `array.new_fixed` the number of
    /// elements.
    pub low: u64,
    /// The upper half of the bits of a vector.
    pub high: u64,
}

/// A defined global that begins as a known value: `bobbinazure_global_value`.
#[repr(C)]
#[derive(Clone, Copy)]
pub struct GlobalValueRow {
    /// The global, by its number among the defined ones.
    pub global: u32,
    /// The constant that makes the value: a number or a vector.
    pub value: OperatorRow,
}

/// How many hints of branches a function has: `bobbinazure_hints`.
#[repr(C)]
#[derive(Clone, Copy)]
pub struct HintsRow {
    /// The function, by its index.
    pub function: u32,
    /// How many hints it has.
    pub count: u64,
}

/// A branch hint: `bobbinazure_branch_hint`.
#[repr(C)]
#[derive(Clone, Copy)]
pub struct BranchHintRow {
    /// The function, by its index. Hints of a function that the module has not are left out; nothing
    /// checks the offset.
    pub function: u32,
    /// Where the branch is, in bytes from the beginning of the function's body, which begins with
    /// its locals.
    pub offset: u32,
    /// Whether it is likely to be taken.
    pub taken: u32,
}

/// Which passive element segment a segment of the module is: `bobbinazure_passive_segment`.
#[repr(C)]
#[derive(Clone, Copy)]
pub struct PassiveSegmentRow {
    /// Its number in the element section.
    pub segment: u32,
    /// Its index among the passive ones: in `passive_elements`, and in `passive_items`.
    pub passive: u32,
}

/// A passive element segment: `bobbinazure_passive_elements`.
#[repr(C)]
#[derive(Clone, Copy)]
pub struct PassiveElementsRow {
    /// The type of its elements, a reference.
    pub element: ValueRow,
    /// How many elements it has.
    pub count: u64,
}

/// An import: `bobbinazure_import`.
#[repr(C)]
#[derive(Clone, Copy)]
pub struct ImportRow {
    /// The kind of its entity, from `BOBBINAZURE_FUNCTION` on.
    pub kind: u32,
    /// The index of its entity, among those of its kind.
    pub index: u32,
    /// The name of the module that it comes from, a part of `import_names`.
    pub from: Span,
    /// Its name there, a part of `import_names`.
    pub name: Span,
}

/// An export: `bobbinazure_export`.
#[repr(C)]
#[derive(Clone, Copy)]
pub struct ExportRow {
    /// The kind of its entity, from `BOBBINAZURE_FUNCTION` on.
    pub kind: u32,
    /// The index of its entity, among those of its kind.
    pub index: u32,
    /// Its name, a part of `export_names`.
    pub name: Span,
}

/// The layout of the objects of an interned type: `bobbinazure_layout`.
#[repr(C)]
#[derive(Clone, Copy)]
pub struct LayoutRow {
    /// The interned type.
    pub ty: u32,
    /// What its objects are, from `BOBBINAZURE_ARRAY_OBJECT` on: 0 an array, 1 a struct, 2 an
    /// exception.
    pub kind: u32,
    /// The size of an object in bytes; of an array, the bytes before its elements.
    pub size: u32,
    /// The alignment of an object, in bytes.
    pub align: u32,
    /// The bytes of an element of an array.
    pub element: u32,
    /// Whether the collector follows the elements of an array, as `is_ref` of a field.
    pub refs: u32,
    /// Its fields, a part of `layout_fields`.
    pub fields: Span,
}

/// A field of a layout: `bobbinazure_layout_field`.
#[repr(C)]
#[derive(Clone, Copy)]
pub struct LayoutFieldRow {
    /// Where in the object it begins, in bytes.
    pub offset: u32,
    /// Whether the collector follows it: a reference, but not to `i31`, functions or continuations. Any
    /// reference has four bytes.
    pub is_ref: u32,
}

/// An interned type: `bobbinazure_type`.
#[repr(C)]
#[derive(Clone, Copy)]
pub struct TypeRow {
    /// What it is, from `BOBBINAZURE_ARRAY` on: 0 an array, 1 a function, 2 a struct, 3 a
    /// continuation, 4 an exception.
    pub kind: u8,
    /// Whether it can have no subtypes.
    pub is_final: u8,
    /// Whether threads may share what is of it.
    pub shared: u8,
    /// Which list the supertype is of, from `BOBBINAZURE_NO_INDEX` on, which says that there is
    /// none.
    pub supertype_list: u8,
    /// Which list the function type is of, from `BOBBINAZURE_NO_INDEX` on, which says that there is
    /// none.
    pub function_list: u8,
    /// The supertype.
    pub supertype: u32,
    /// The function type of a continuation or an exception.
    pub function: u32,
    /// Its fields, or its parameters and then its results: a part of the plan's `fields`.
    pub fields: Span,
    /// How many of them are results.
    pub results: usize,
}

/// A field, a parameter or a result: `bobbinazure_field`.
#[repr(C)]
#[derive(Clone, Copy)]
pub struct FieldRow {
    /// The type of its value.
    pub value: ValueRow,
    /// Whether it is mutable; 0 of a parameter or a result.
    pub writable: u32,
}

/// An interned type that has a trampoline: `bobbinazure_trampoline`.
#[repr(C)]
#[derive(Clone, Copy)]
pub struct TrampolineRow {
    /// The interned type.
    pub ty: u32,
    /// The interned type of its trampoline.
    pub trampoline: u32,
}
