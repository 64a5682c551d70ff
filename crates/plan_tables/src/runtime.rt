//! The bytes of runtime data, moved out of a plan.

ghost use Rattle.std.specs.Prelude.{◌≡◌, length, map, IfOk};
ghost use Rattle.plan_tables.specs.Memories.{runtime_told, runtime_row};

use crate::record::RuntimeRow;
use entity_map::OutOfMemory;
use init_plan::RuntimeBytes;
use std::alloc::Global;
use std::mem;

// The bytes of one runtime data, whose owner then has none.
fn taken_row<'d>(bytes: &mut RuntimeBytes<'d>) -> RuntimeRow<'d>
    ensures { runtime_told result ≡ runtime_row bytes.old }
{
    match mem::replace(bytes, RuntimeBytes::Borrowed(&[])) {
        RuntimeBytes::Borrowed(bytes) => RuntimeRow { made: 0, bytes },
        RuntimeBytes::Owned(bytes) => RuntimeRow {
            made: 1,
            bytes: bytes.leak(),
        },
    }
}

/// As many rows without bytes as requested. They are the capacity for the rows that are moved, so
/// that nothing can fail once one is moved.
pub(crate) fn empty_rows<'d>(
    alloc: Global,
    count: usize,
) -> Result<Vec<RuntimeRow<'d>>, OutOfMemory>
    ensures { IfOk result (λ rows. length rows.items ≡ count) }
{
    let row = RuntimeRow {
        made: 0,
        bytes: &[],
    };
    Ok(Vec::from_elem(alloc, row, count)?)
}

/// Moves the bytes of each runtime data; those that the plan made are not copied.
pub(crate) fn take_bytes<'d>(planned: &mut [RuntimeBytes<'d>], rows: &mut [RuntimeRow<'d>])
    requires { length rows.old ≡ length planned.old }
    ensures { map runtime_told rows.new ≡ map runtime_row planned.old }
{
    for place in 0..rows.len() {
        rows[place] = taken_row(&mut planned[place]);
    }
}
