//! The first index of each kept group, by its canonical members.

ghost use Rattle.std.specs.Prelude.{◌≡◌, ◌≤◌, ◌+◌, [], length, OnOk};
ghost use Rattle.std.specs.HashMap.{spare};
ghost use Rattle.type_registry.specs.Keeping.{Shared, first_of};

use crate::hashing::GroupHashes;
use entity_map::OutOfMemory;
use std::alloc::Global;
use std::collections::HashMap;
use std::mem;
use std::rc::Rc;
use wasm_types::{WasmRecGroup, equality_law};

/// The first index of each kept group, by its canonical members.
pub(crate) type Known = HashMap<Rc<WasmRecGroup>, u32, GroupHashes>;

/// The same groups in another map, which has none yet and capacity for them.
fn moved(old: Known, into: Known) -> Known
    requires empty { into.entries ≡ [] }
    requires room { length old.entries ≤ spare into }
    ensures known { (q : Shared) → first_of result q ≡ first_of old q }
    ensures spare { spare into ≤ spare result + length old.entries }
{
    equality_law();
    let mut into = into;
    for (name, first) in old {
        into.insert(name, first).ok();
    }
    into
}

/// Reserves capacity for more groups. Where the map has to grow, another one is made that has
/// capacity for twice as many, whose hashes begin from the seed.
///
/// # Errors
/// `OutOfMemory`. The map is unchanged then.
pub(crate) fn reserve(
    alloc: Global,
    known: &mut Known,
    more: usize,
    seed: u64,
) -> Result<(), OutOfMemory>
    ensures known { (q : Shared) → first_of known.new q ≡ first_of known.old q }
    ensures spare { OnOk result (more ≤ spare known.new) }
{
    let len = known.len();
    if more <= known.capacity() - len {
        return Ok(());
    }
    let Some(room) = (2 * len).checked_add(more) else {
        return Err(OutOfMemory);
    };
    let hashes = GroupHashes::new(seed);
    let into = HashMap::with_capacity_and_hasher(alloc, room, hashes)?;
    let old = mem::replace(known, HashMap::with_hasher(alloc, hashes));
    *known = moved(old, into);
    Ok(())
}
