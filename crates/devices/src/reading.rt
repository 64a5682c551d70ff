//! Reads a source to its end.

ghost use Rattle.std.specs.Prelude.{◌≡◌, ◌≢◌, ◌<◌, ◌≤◌, ◌⊎◌, [], None, Some, IsNone, OnOk, OnErr, vec_len};
ghost use Rattle.devices.specs.Device.{TellsFront, NothingLeft, IsNotPassed};
ghost use Rattle.devices.specs.Counter.{Rose};

use crate::device::{Failed, Source};
use std::alloc::AllocError;

/// The most bytes that one read requests.
const BUFFER: usize = 4096;

/// Why reading stopped before the end.
#[derive(Clone, Copy, Debug, PartialEq, Eq)]
pub enum ReadStop {
    /// A read failed.
    Failed,
    /// Out of memory.
    OutOfMemory,
}

impl From<Failed> for ReadStop {
    ghost use Rattle.std.specs.Prelude.{◌≡◌};
    ghost use Rattle.devices.specs.declared.reading.ReadStop.TheVariants.{Failed};

    ghost from_gives = { λ _ stop. stop ≡ Failed };

    fn from(_failed: Failed) -> ReadStop {
        ReadStop::Failed
    }
}

impl From<AllocError> for ReadStop {
    ghost use Rattle.std.specs.Prelude.{◌≡◌};
    ghost use Rattle.devices.specs.declared.reading.ReadStop.TheVariants.{OutOfMemory};

    ghost from_gives = { λ _ stop. stop ≡ OutOfMemory };

    fn from(_error: AllocError) -> ReadStop {
        ReadStop::OutOfMemory
    }
}

/// Reads into the empty store until the source ends, or until `most` bytes were read.
///
/// # Errors
/// `Failed` where a read failed; `OutOfMemory` where the store cannot grow. What was read is in the
/// store.
pub fn read_all<S: Source>(source: &mut S, store: &mut Vec<u8>, most: usize) -> Result<(), ReadStop>
    requires { store.old.items ≡ [] }

    // Whatever the outcome, no byte that was read is lost.
    ensures bytes { TellsFront (S.left source.old) store.new.items (S.left source.new) }
    ensures within { vec_len store.new ≤ most }

    ensures ended { OnOk result (NothingLeft (S.left source.new) ⊎ (vec_len store.new ≡ most)) }
    ensures short { OnOk result (vec_len store.new < most → NothingLeft (S.left source.new)) }
    ensures stopped { OnErr result (vec_len store.new < most) }

    // A source that does not report its bytes is read to its end as well, and not past it.
    ensures to_the_end { OnOk result (IsNone (S.left source.old) → S.since_end source.old ≡ None → vec_len store.new < most → S.since_end source.new ≡ Some 0) }
    ensures not_past { IsNone (S.left source.old) → S.since_end source.old ≡ None → IsNotPassed (S.since_end source.new) }

    // `Failed` is returned where a read failed, and only there.
    ensures cause { result ≡ Err ReadStop.Failed → Rose (S.faults source.old) (S.faults source.new) }
    ensures no_fault { result ≢ Err ReadStop.Failed → S.faults source.new ≡ S.faults source.old }
    ensures counted { S.faults source.old ≤ S.faults source.new }
{
    let mut buffer = [0u8; BUFFER];
    'reads: while store.len() < most {
        // The capacity is there before the bytes are, so running out of memory loses none.
        store.reserve(BUFFER)?;
        let room = (most - store.len()).min(BUFFER);
        let count = source.read(&mut buffer[..room])?;
        if count == 0 {
            return Ok(());
        }
        store.extend_from_slice(&buffer[..count]).unwrap();
    }
    Ok(())
}
