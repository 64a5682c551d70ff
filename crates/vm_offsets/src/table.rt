//! The table of a context's entries, and how they are placed.

ghost use Rattle.std.specs.Prelude.{◌≡◌, ◌<◌, ◌≤◌, ◌+◌, IfOk, OnErr};
ghost use Rattle.vm_structs.specs.Fields.{IsPointerSize};
ghost use Rattle.vm_offsets.specs.Context.{context_table, context_entries, context_size, placed_from, end_from};
ghost use Rattle.vm_offsets.specs.Entries.{without_texts, rows_of, KeepsEntries};

use crate::fields::VMOffsetsFields;
use crate::overflow::OffsetOverflow;
use crate::row::SizedRow;
use vm_structs::offsets::{
    VMContext, VMFuncRef, VMFunctionImport, VMGlobalDefinition, VMGlobalImport, VMMemoryDefinition,
    VMMemoryImport, VMTableDefinition, VMTableImport, VMTagDefinition, VMTagImport,
};

/// The number of a context's entries.
pub(crate) const ENTRIES: usize = 14;

/// An entry with its position.
#[derive(Clone, Copy, Debug)]
pub struct ContextEntry {
    pub begin: u32,
    pub stride: u32,
    pub count: u32,
}

// The table, at a size of pointers and counts.
#[tactic(auto, unfolding(crate::specs::Context::context_table))]
fn table<P>(pointer: u8, fields: &VMOffsetsFields<P>) -> [SizedRow; ENTRIES]
    requires { IsPointerSize pointer }
    ensures { rows_of result ≡ without_texts (context_table pointer fields.now) }
{
    let func_ref = VMFuncRef(pointer).size();
    [
        SizedRow::new(fields.num_imported_memories, VMMemoryImport(pointer).size()),
        SizedRow::new(fields.num_defined_memories, pointer),
        SizedRow::new(
            fields.num_owned_memories,
            VMMemoryDefinition(pointer).size(),
        ),
        SizedRow::new(
            fields.num_imported_functions,
            VMFunctionImport(pointer).size(),
        ),
        SizedRow::new(fields.num_imported_tables, VMTableImport(pointer).size()),
        SizedRow::new(fields.num_imported_globals, VMGlobalImport(pointer).size()),
        SizedRow::new(fields.num_imported_tags, VMTagImport(pointer).size()),
        SizedRow::new(fields.num_defined_tables, VMTableDefinition(pointer).size()),
        SizedRow::aligned(
            16,
            fields.num_defined_globals,
            VMGlobalDefinition(pointer).size(),
        ),
        SizedRow::new(fields.num_defined_tags, VMTagDefinition(pointer).size()),
        SizedRow::aligned(pointer, fields.num_escaped_funcs, func_ref),
        SizedRow::new(u32::from(fields.has_startup_func), func_ref),
        SizedRow::new(fields.num_runtime_data, pointer),
        SizedRow::new(fields.num_runtime_data, 4),
    ]
}

// The entries of a table that begins at a byte, and where it ends.
fn place(
    begin: u8,
    rows: &[SizedRow; ENTRIES],
) -> Result<([ContextEntry; ENTRIES], u32), OffsetOverflow>
    ensures entries { IfOk result (λ placed. KeepsEntries placed.0 (placed_from begin (rows_of rows.now))) }
    ensures size { IfOk result (λ placed. placed.1 ≡ end_from begin (rows_of rows.now)) }
    ensures fits { IfOk result (λ _. end_from begin (rows_of rows.now) ≤ u32.MAX) }
    ensures overflow { OnErr result (u32.MAX < end_from begin (rows_of rows.now)) }
{
    let mut entries = [ContextEntry {
        begin: 0,
        stride: 0,
        count: 0,
    }; ENTRIES];
    let mut end = u64::from(begin);
    for (place, row) in rows.iter().enumerate() {
        let begin = row.begin(end);
        end = begin + u64::from(row.count) * u64::from(row.size);
        if end > u64::from(u32::MAX) {
            return Err(OffsetOverflow);
        }
        entries[place] = ContextEntry {
            begin: begin as u32,
            stride: u32::from(row.size),
            count: row.count,
        };
    }
    Ok((entries, end as u32))
}

// The entries of a context, and its size.
pub(crate) fn lay_out<P>(
    pointer: u8,
    fields: &VMOffsetsFields<P>,
) -> Result<([ContextEntry; ENTRIES], u32), OffsetOverflow>
    requires { IsPointerSize pointer }
    ensures entries { IfOk result (λ placed. KeepsEntries placed.0 (context_entries pointer fields.now)) }
    ensures size { IfOk result (λ placed. placed.1 ≡ context_size pointer fields.now) }
    ensures fits { IfOk result (λ _. context_size pointer fields.now ≤ u32.MAX) }
    ensures overflow { OnErr result (u32.MAX < context_size pointer fields.now) }
{
    place(
        VMContext(pointer).end_of_static_fields(),
        &table(pointer, fields),
    )
}
