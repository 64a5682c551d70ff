//! The call from C that lists the entries of a module's name maps.

ghost use Rattle.std.specs.Prelude.{◌≡◌, ◌≢◌, ◌⊎◌, map, IfOk};
ghost use Rattle.name_maps.specs.Entries.{entry_of};
ghost use Rattle.planner_c.specs.Names.{TellsEntries, entry_told, entry_row};

use entity_map::OutOfMemory;
use name_maps::{NameEntry, name_maps};
use std::alloc::Global;
use translate::{NO_MEMORY, SUCCESS};

/// A name, and what it names: `bobbinazure_name_entry`.
#[repr(C)]
#[derive(Clone, Copy)]
pub struct NameEntryRow<'d> {
    /// What is named, as `BOBBINAZURE_NAME_GLOBAL`.
    pub subsection: u32,
    /// Its index; 0 of the module. Of a local or a label that of its function, of a field that of
    /// its type.
    pub index: u32,
    /// Whether it is a local, a label or a field.
    pub has_inner: u32,
    /// The index of the local, the label or the field; else 0.
    pub inner: u32,
    /// The name, which is UTF-8, in the bytes of the module. It is never freed.
    pub name: &'d [u8],
}

/// The names that a module gives: `bobbinazure_name_list`.
#[repr(C)]
#[derive(Clone, Copy)]
pub struct NameMapsRecord<'d> {
    /// In the order of the bytes. Of several for one index, the last one counts.
    pub entries: &'d [NameEntryRow<'d>],
}

/// Lists the entries of all name maps of the bytes, also where they spell no module:
/// `bobbinazure_names`. Answers 0 where the record has them, and 5 where there is no memory and the
/// record is as it was.
#[unsafe(no_mangle)]
#[tactic(auto, using(crate::proofs::NameRows::rows_of))]
pub extern "C" fn bobbinazure_names<'d>(
    alloc: Global,
    bytes: &'d [u8],
    out: &mut NameMapsRecord<'d>,
) -> u32
    ensures statuses { (result ≡ 0) ⊎ (result ≡ 5) }
    // The record has the entries that the name sections of the bytes tell, and no others.
    ensures told { result ≡ 0 → TellsEntries bytes.now out.new }
    ensures same { result ≢ 0 → out.new ≡ out.old }
{
    let Ok(entries) = name_maps(alloc, bytes) else {
        return u32::from(NO_MEMORY);
    };
    let Ok(rows) = entry_rows(alloc, &entries) else {
        return u32::from(NO_MEMORY);
    };
    *out = NameMapsRecord {
        entries: rows.leak(),
    };
    u32::from(SUCCESS)
}

fn entry_rows<'d>(
    alloc: Global,
    entries: &[NameEntry<'d>],
) -> Result<Vec<NameEntryRow<'d>>, OutOfMemory>
    ensures { IfOk result (λ rows. map entry_told rows.items ≡ map (λ e. entry_row (entry_of e)) entries.now) }
{
    let mut rows = Vec::with_capacity(alloc, entries.len())?;
    for entry in entries {
        rows.push(entry_row(entry))?;
    }
    Ok(rows)
}

fn entry_row<'d>(entry: &NameEntry<'d>) -> NameEntryRow<'d>
    ensures { entry_told result ≡ entry_row (entry_of entry.now) }
{
    NameEntryRow {
        subsection: u32::from(entry.subsection),
        index: entry.index,
        has_inner: u32::from(entry.inner.is_some()),
        inner: entry.inner.unwrap_or(0),
        name: entry.name.as_bytes(),
    }
}
