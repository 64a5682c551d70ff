//! A module, from its bytes to what a run of its plan gives.

ghost use Rattle.std.specs.Prelude.{◌≡◌, ◌↔◌, length, All, IsTrue};
ghost use Rattle.plan_run.specs.Finished.{Finished};
ghost use Rattle.plan_run.specs.Values.{IsPlain};

use crate::row::{ModuleRow, Picture};
use command_words::Command;
use entity_map::OutOfMemory;
use init_plan::{ModuleTranslation, RuntimeBytes};
use paged_memory::PagedMemory;
use plan_run::{Imports, Laid, LayError, Value, is_finished, lay};
use plan_text::Plan;
use run_laws::translated_is_finished;
use std::alloc::Global;
use std::test::Fail;
use translate::plan_of;
use wasm_types::Tunables;

const HEADER: [u8; 8] = [0x00, 0x61, 0x73, 0x6D, 0x01, 0x00, 0x00, 0x00];

/// What an imported memory borrows.
static LENT: [u8; 16] = [7, 7, 7, 7, 7, 7, 7, 7, 7, 7, 7, 7, 7, 7, 7, 7];

/// What is imported of a row.
fn given(alloc: Global, row: &ModuleRow) -> Result<Imports<'static>, OutOfMemory> {
    let mut globals = Vec::new(alloc);
    for number in row.globals {
        globals.push(Value::I32(*number))?;
    }
    let mut cells = Vec::new(alloc);
    for number in 0..row.cells {
        cells.push(Value::Host(number))?;
    }
    let mut tables = Vec::new(alloc);
    if row.cells != 0 {
        tables.push(cells)?;
    }
    let mut memories = Vec::new(alloc);
    if row.memory {
        memories.push(PagedMemory::with_image(alloc, 64, 8, 0, &LENT)?)?;
    }
    Ok(Imports {
        globals,
        memories,
        tables,
    })
}

fn is_plain(value: &Value) -> bool
    ensures { IsTrue result ↔ IsPlain value.now }
{
    !matches!(value, Value::Term(_))
}

fn are_plain(values: &[Value]) -> bool
    ensures { IsTrue result ↔ All IsPlain values.now }
{
    values.iter().all(|value| is_plain(value))
}

fn are_plain_tables(tables: &[Vec<Value>]) -> bool
    ensures { IsTrue result ↔ All (λ table. All IsPlain table.items) tables.now }
{
    tables.iter().all(|table| are_plain(table.as_slice()))
}

/// Whether the imports are as many as the module needs, and name no node.
fn can_be_imported(translation: &ModuleTranslation<'_>, imports: &Imports<'_>) -> bool
    ensures globals { IsTrue result → length imports.now.globals.items ≡ translation.now.module.num_imported_globals }
    ensures memories { IsTrue result → length imports.now.memories.items ≡ translation.now.module.num_imported_memories }
    ensures tables { IsTrue result → length imports.now.tables.items ≡ translation.now.module.num_imported_tables }
    ensures plain { IsTrue result → All IsPlain imports.now.globals.items }
    ensures plain_tables { IsTrue result → All (λ table. All IsPlain table.items) imports.now.tables.items }
{
    if imports.globals.len() != translation.module.num_imported_globals {
        return false;
    }
    if imports.memories.len() != translation.module.num_imported_memories {
        return false;
    }
    if imports.tables.len() != translation.module.num_imported_tables {
        return false;
    }
    are_plain(&imports.globals) && are_plain_tables(&imports.tables)
}

fn byte_in(memories: &[PagedMemory<'_>], place: (usize, u64)) -> Option<u8> {
    let Some(memory) = memories.get(place.0) else {
        return None;
    };
    if memory.len() <= place.1 {
        return None;
    }
    Some(memory.byte(place.1))
}

fn shared_in(memories: &[PagedMemory<'_>], memory: usize) -> Option<u64> {
    match memories.get(memory) {
        Some(memory) => Some(memory.shared_pages()),
        None => None,
    }
}

fn cell_in(tables: &[Vec<Value>], place: (usize, usize)) -> Option<Value> {
    match tables.get(place.0) {
        Some(table) => table.get(place.1).copied(),
        None => None,
    }
}

/// What a node took at an index.
fn taken_by(laid: &Laid<'_>, node: usize, place: usize) -> Option<Value> {
    match laid.nodes.get(node) {
        Some(node) => node.args.get(place).copied(),
        None => None,
    }
}

fn planned_byte(translation: &ModuleTranslation<'_>, place: u64) -> Option<u8> {
    match translation.runtime_data.as_slice().first() {
        Some(RuntimeBytes::Owned(bytes)) => bytes.get(place as usize).copied(),
        Some(RuntimeBytes::Borrowed(bytes)) => bytes.get(place as usize).copied(),
        None => None,
    }
}

/// What is seen at the positions of a row.
fn picture_of(row: &ModuleRow, translation: &ModuleTranslation<'_>, laid: &Laid<'_>) -> Picture {
    let globals = laid.globals.as_slice();
    let memories = laid.memories.as_slice();
    let tables = laid.tables.as_slice();
    Picture {
        globals: [
            globals.first().copied(),
            globals.get(1).copied(),
            globals.get(2).copied(),
            globals.get(3).copied(),
            globals.get(4).copied(),
        ],
        bytes: row.places.map(|place| byte_in(memories, place)),
        shared: [shared_in(memories, 0), shared_in(memories, 1)],
        cells: row.cell_places.map(|place| cell_in(tables, place)),
        memory_trap: laid.memory_trap,
        table_trap: laid.table_trap,
        nodes: laid.nodes.len(),
        taken: [taken_by(laid, 1, 0), taken_by(laid, 1, 1)],
        planned: planned_byte(translation, row.places[1].1),
    }
}

/// Writes a byte to the last memory, if it has the position.
fn write_last(
    memories: &mut [PagedMemory<'_>],
    written: Option<(u64, u8)>,
) -> Result<(), OutOfMemory> {
    let Some((place, byte)) = written else {
        return Ok(());
    };
    let Some(memory) = memories.last_mut() else {
        return Ok(());
    };
    if memory.len() <= place {
        return Ok(());
    }
    memory.write(place, &[byte])
}

/// What is seen of the outcome of a run, which is dropped here.
fn looked(
    row: &ModuleRow,
    translation: &ModuleTranslation<'_>,
    mut laid: Laid<'_>,
) -> Result<Picture, OutOfMemory> {
    let written = write_last(&mut laid.memories, row.written);
    let picture = picture_of(row, translation, &laid);
    drop(laid);
    written?;
    Ok(picture)
}

/// What is seen of a plan that is run; none where it is too large.
fn laid_of(
    alloc: Global,
    row: &ModuleRow,
    plan: &Plan<'_>,
    imports: Imports<'_>,
) -> Result<Option<Picture>, Fail>
    requires { Finished plan.now.translation }
{
    // The first holds of each plan, and is checked here so that it is checked once.
    if !is_finished(&plan.translation) || !can_be_imported(&plan.translation, &imports) {
        drop(imports);
        return Err("it cannot be laid".into());
    }
    match lay(alloc, &plan.translation, &plan.types, row.way, imports) {
        Ok(laid) => Ok(Some(looked(row, &plan.translation, laid)?)),
        Err(LayError::TooLarge) => Ok(None),
        Err(LayError::OutOfMemory) => Err("out of memory".into()),
    }
}

/// What is seen of a row.
pub(crate) fn picture(alloc: Global, row: &ModuleRow) -> Result<Option<Picture>, Fail> {
    // Each plan can be run; this does nothing when it is run.
    translated_is_finished();
    let imports = given(alloc, row)?;
    let command = Command {
        tunables: Tunables {
            memory_init_cow: row.images,
            table_lazy_init: row.lazy,
            ..Command::PLAIN.tunables
        },
        ..Command::PLAIN
    };
    let mut bytes = Vec::from_slice(alloc, &HEADER)?;
    bytes.extend_from_slice(row.sections)?;
    let plan = plan_of(alloc, &command, &bytes)?;
    let seen = laid_of(alloc, row, &plan, imports);
    drop(plan);
    seen
}
