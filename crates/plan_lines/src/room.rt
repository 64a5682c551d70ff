//! A buffer in memory, of which the first bytes are in use. What is written says where it ends; the
//! bytes behind may be anything.

ghost use Rattle.std.specs.Prelude.{◌≡◌, ◌+◌, ◌<◌, ◌≤◌, ◌++◌, ◌∷◌, [], ℕ, length, take, vec_len, OnOk};

use entity_map::OutOfMemory;

// What is added where no more is requested.
static BLOCK: [u8; 1024] = [0; 1024];

// Reserves capacity for so many more bytes behind those in use, which stay.
#[inline(always)]
pub(crate) fn make_room(
    room: &mut Vec<u8>,
    used: usize,
    additional: usize,
) -> Result<(), OutOfMemory>
    requires { used ≤ vec_len room.old }
    ensures kept { take used room.new.items ≡ take used room.old.items }
    ensures within { used ≤ vec_len room.new }
    ensures ok { OnOk result (used + additional ≤ vec_len room.new) }
{
    if additional <= room.len() - used {
        return Ok(());
    }
    extend(room, additional)
}

// Adds at least so many bytes. The test of whether it is needed is not here, but where bytes are
// written.
#[cold]
#[inline(never)]
fn extend(room: &mut Vec<u8>, additional: usize) -> Result<(), OutOfMemory>
    ensures kept { (n : ℕ) → n ≤ vec_len room.old → take n room.new.items ≡ take n room.old.items }
    ensures longer { vec_len room.old ≤ vec_len room.new }
    ensures ok { OnOk result (vec_len room.old + additional ≤ vec_len room.new) }
{
    if additional <= BLOCK.len() {
        room.extend_from_slice(&BLOCK)?;
        return Ok(());
    }
    let Some(len) = room.len().checked_add(additional) else {
        return Err(OutOfMemory);
    };
    room.resize(len, 0)?;
    Ok(())
}

// Writes bytes behind those in use.
#[inline(always)]
pub(crate) fn put(room: &mut [u8], used: usize, bytes: &[u8]) -> usize
    requires { used + length bytes.now ≤ length room.old }
    ensures written { take result room.new ≡ take used room.old ++ bytes.now }
    ensures end { result ≡ used + length bytes.now }
{
    let end = used + bytes.len();
    room[used..end].copy_from_slice(bytes);
    end
}

// Writes a byte behind those in use.
#[inline(always)]
pub(crate) fn put_byte(room: &mut [u8], used: usize, byte: u8) -> usize
    requires { used < length room.old }
    ensures written { take result room.new ≡ take used room.old ++ byte ∷ [] }
    ensures end { result ≡ used + 1 }
{
    room[used] = byte;
    used + 1
}

// Writes the first few of eight bytes. All eight are copied, which takes one step.
#[inline(always)]
pub(crate) fn put_part(room: &mut [u8], used: usize, bytes: &[u8; 8], len: usize) -> usize
    requires { (len ≤ 8) × (used + 8 ≤ length room.old) }
    ensures written { take result room.new ≡ take used room.old ++ take len bytes.now }
    ensures end { result ≡ used + len }
{
    put(room, used, bytes);
    used + len
}
