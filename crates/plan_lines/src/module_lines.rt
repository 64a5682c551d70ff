//! The lines of a module's record that are not in a file of their own.

ghost use Rattle.std.specs.Prelude.{◌≡◌, ◌++◌, All, OnOk};
ghost use Rattle.wasm_module.specs.Record.{record_of};
ghost use Rattle.vm_offsets.specs.Modules.{HoldsImports};
ghost use Rattle.plan_lines.specs.Numbers.{keyed_lines};
ghost use Rattle.plan_lines.specs.ModuleLines.{HasNames, initializer_line, initializer_lines_from, count_lines, gc_heap_line, escape_lines, start_lines, startup_line};

use crate::name_lines::append_import;
use crate::numbers::{append_counts, append_numbers};
use crate::text::Text;
use crate::type_lines::listed_number;
use entity_map::{EntityRef, OutOfMemory, PrimaryMap, StringPool};
use wasm_index::FuncIndex;
use wasm_module::{FunctionType, Initializer, Module, ModuleStartup};

fn append_initializer(
    text: &mut Text,
    pool: &StringPool,
    place: usize,
    initializer: &Initializer,
) -> Result<(), OutOfMemory>
    requires { HasNames pool.now initializer.now }
    ensures { OnOk result (text.new ≡ text.old ++ initializer_line pool.now place initializer.now) }
{
    let Initializer::Import { name, field, index } = initializer;
    append_import(text, pool, place, *name, *field, *index)
}

/// Appends the lines of the imports, which are numbered from 0. The texts of their names must be in
/// the pool.
///
/// # Errors
/// `OutOfMemory`; the text may then end anywhere.
pub fn append_imports(
    text: &mut Text,
    pool: &StringPool,
    imports: &[Initializer],
) -> Result<(), OutOfMemory>
    requires { All (HasNames pool.now) imports.now }
    ensures { OnOk result (text.new ≡ text.old ++ initializer_lines_from pool.now 0 imports.now) }
{
    for (place, import) in imports.iter().enumerate() {
        append_initializer(text, pool, place, import)?;
    }
    Ok(())
}

/// Appends the lines of how many entities of each kind are imported, and how many are defined.
///
/// # Errors
/// `OutOfMemory`; the text may then end anywhere.
#[tactic(auto, unfolding(crate::specs::ModuleLines::count_lines))]
pub fn append_entity_counts(text: &mut Text, module: &Module) -> Result<(), OutOfMemory>
    requires { HoldsImports (record_of «module».now) }
    ensures { OnOk result (text.new ≡ text.old ++ count_lines «module».now) }
{
    append_counts(
        text,
        "functions",
        module.num_imported_funcs,
        module.functions.len(),
    )?;
    append_counts(
        text,
        "tables",
        module.num_imported_tables,
        module.tables.len(),
    )?;
    append_counts(
        text,
        "memories",
        module.num_imported_memories,
        module.memories.len(),
    )?;
    append_counts(
        text,
        "globals",
        module.num_imported_globals,
        module.globals.len(),
    )?;
    append_counts(text, "tags", module.num_imported_tags, module.tags.len())
}

/// Appends the line that says whether the heap of a garbage collector is needed.
///
/// # Errors
/// `OutOfMemory`; the text may then end anywhere.
pub fn append_gc_heap(text: &mut Text, needed: bool) -> Result<(), OutOfMemory>
    ensures { OnOk result (text.new ≡ text.old ++ gc_heap_line needed) }
{
    text.push_str(if needed {
        "gc-heap yes\n"
    } else {
        "gc-heap no\n"
    })
}

/// Appends the line of a function that escapes; other functions have none.
///
/// # Errors
/// `OutOfMemory`; the text may then end anywhere.
pub fn append_escape(
    text: &mut Text,
    index: FuncIndex,
    function: &FunctionType,
) -> Result<(), OutOfMemory>
    ensures { OnOk result (text.new ≡ text.old ++ escape_lines index function.now) }
{
    if !function.is_escaping() {
        return Ok(());
    }
    append_numbers(
        text,
        "escape",
        &[index.as_u32().into(), function.func_ref.as_u32().into()],
    )
}

/// Appends the lines of the functions that escape.
///
/// # Errors
/// `OutOfMemory`; the text may then end anywhere.
pub fn append_escapes(
    text: &mut Text,
    functions: &PrimaryMap<FuncIndex, FunctionType>,
) -> Result<(), OutOfMemory>
    ensures { OnOk result (text.new ≡ text.old ++ keyed_lines escape_lines functions.now) }
{
    for (index, function) in functions.iter() {
        append_escape(text, index, function)?;
    }
    Ok(())
}

/// Appends the line of the start function, where there is one.
///
/// # Errors
/// `OutOfMemory`; the text may then end anywhere.
pub fn append_start(text: &mut Text, function: Option<FuncIndex>) -> Result<(), OutOfMemory>
    ensures { OnOk result (text.new ≡ text.old ++ start_lines function) }
{
    match function {
        Some(function) => append_numbers(text, "start", &[function.as_u32().into()]),
        None => Ok(()),
    }
}

/// Appends the line of when the startup function runs, and of its type.
///
/// # Errors
/// `OutOfMemory`; the text may then end anywhere.
pub fn append_startup(text: &mut Text, startup: &ModuleStartup) -> Result<(), OutOfMemory>
    ensures { OnOk result (text.new ≡ text.old ++ startup_line startup.now) }
{
    match startup {
        ModuleStartup::None => text.push_str("startup none\n"),
        ModuleStartup::Always(ty) => append_numbers(
            text,
            "startup always",
            &[listed_number(*ty).into()],
        ),
        ModuleStartup::IfMemoriesNeedInit(ty) => append_numbers(
            text,
            "startup if-memories-need-init",
            &[listed_number(*ty).into()],
        ),
    }
}
