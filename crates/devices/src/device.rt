//! What a source and a sink promise.

ghost use Rattle.std.specs.Prelude.{◌≡◌, ◌<◌, ◌≤◌, ℕ, List, Option, IfOk, OnOk, OnErr, IsNone, length, take};
ghost use Rattle.devices.specs.Device.{TellsFront, AppendsFront, NothingLeft, since_end_after, since_end_after_fault};
ghost use Rattle.devices.specs.Counter.{Rose};

use std::alloc::AllocError;

/// A read or a write failed.
#[derive(Clone, Copy, Debug, PartialEq, Eq)]
pub struct Failed;

/// Out of memory.
// This crate depends on no other, so its callers convert this error into their own.
#[derive(Clone, Copy, Debug, PartialEq, Eq)]
pub struct OutOfMemory;

impl From<AllocError> for OutOfMemory {
    fn from(_error: AllocError) -> OutOfMemory {
        OutOfMemory
    }
}

/// Where bytes come from.
pub trait Source {
    /// The bytes that remain, where the source reports them.
    ghost left: { Self → Option (List ℕ) };

    /// How many reads failed, on a counter of 64 bits that stays at its last value.
    ghost faults: { Self → ℕ };

    /// How many reads were made since the first that moved no byte, if one did. A source that
    /// reports its bytes need not count.
    ghost since_end: { Self → Option ℕ };

    /// Moves the first remaining bytes into the front of `buf`, and returns how many: 0 only at the
    /// end.
    /// `Failed` leaves the remaining bytes as they were.
    fn read(&mut self, buf: &mut [u8]) -> Result<usize, Failed>
        requires { 0 < length buf.old }
        ensures within { IfOk result (λ n. n ≤ length buf.old) }
        ensures moves { IfOk result (λ n. TellsFront (left self.old) (take n buf.new) (left self.new)) }
        ensures ends { IfOk result (λ n. n ≡ 0 → NothingLeft (left self.old)) }
        ensures end_noted { IfOk result (λ n. IsNone (left self.old) → since_end self.new ≡ since_end_after n (since_end self.old)) }
        ensures no_fault { OnOk result (faults self.new ≡ faults self.old) }

        // A failed read moves nothing, and is counted.
        ensures stays { OnErr result (left self.new ≡ left self.old) }
        ensures no_end { OnErr result (IsNone (left self.old) → since_end self.new ≡ since_end_after_fault (since_end self.old)) }
        ensures counted { faults self.old ≤ faults self.new }
        ensures cause { OnErr result (Rose (faults self.old) (faults self.new)) };
}

/// Where bytes go.
pub trait Sink {
    /// The bytes held, where the sink reports them.
    ghost held: { Self → Option (List ℕ) };

    /// How many writes failed, on a counter of 64 bits that stays at its last value.
    ghost faults: { Self → ℕ };

    /// Appends the first bytes of `piece`, at least one, and returns how many.
    /// `Failed` leaves the bytes held as they were.
    fn write(&mut self, piece: &[u8]) -> Result<usize, Failed>
        requires { 0 < length piece.now }
        ensures takes { IfOk result (λ n. (0 < n) × (n ≤ length piece.now)) }
        ensures appends { IfOk result (λ n. AppendsFront (held self.old) (take n piece.now) (held self.new)) }
        ensures no_fault { OnOk result (faults self.new ≡ faults self.old) }

        // A failed write appends nothing, and is counted.
        ensures stays { OnErr result (held self.new ≡ held self.old) }
        ensures counted { faults self.old ≤ faults self.new }
        ensures cause { OnErr result (Rose (faults self.old) (faults self.new)) };
}
