//! Capacity for more groups and indices.

ghost use Rattle.std.specs.Prelude.{◌≡◌, ◌≤◌, ◌<◌, ◌-◌, ◌++◌, None, IfOk, length, map, replicate, vec_len, vec_capacity};
ghost use Rattle.type_registry.specs.Owners.{free_count};

use crate::kept::Kept;
use crate::owners::Owner;
use entity_map::OutOfMemory;
use free_numbers::FreeNumbers;
use std::alloc::Global;

/// The capacity for indices where it is `len` and so many are needed: at least twice as many, as
/// far as they can be counted.
pub(crate) fn room_for(needed: u32, len: usize) -> usize
    requires { len < 4294967296 }
    ensures enough { needed ≤ result }
    ensures longer { len ≤ result }
    ensures few { result < 4294967296 }
{
    let twice = (2 * len).min(u32::MAX as usize);
    twice.max(needed as usize)
}

/// A 1 where there is no owner.
fn count_free(owner: Option<Owner>) -> u32
    ensures { result ≡ free_count owner }
{
    match owner {
        None => 1,
        Some(_) => 0,
    }
}

/// The numbers up to `room` that have no owner.
pub(crate) fn free_again(
    alloc: Global,
    owners: &[Option<Owner>],
    room: usize,
) -> Result<FreeNumbers, OutOfMemory>
    requires long { length owners.now ≤ room }
    requires few { room < 4294967296 }
    ensures { IfOk result (λ f. f ≡ map free_count owners.now ++ replicate (room - length owners.now) 1) }
{
    let mut counts = Vec::with_capacity(alloc, room)?;
    for owner in owners {
        counts.push(count_free(*owner))?;
    }
    counts.resize(room, 1)?;
    Ok(FreeNumbers::of(alloc, counts)?)
}

/// Puts no group at each of the positions up to `room`, for which there is memory.
pub(crate) fn fill(kept: &mut Vec<Option<Kept>>, room: usize)
    requires { room ≤ vec_capacity kept.old }
    ensures { kept.new.items ≡ kept.old.items ++ replicate (room - length kept.old.items) None }
{
    for _place in kept.len()..room {
        kept.push_reserved(None);
    }
}
