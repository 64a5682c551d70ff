//! A sink that holds bytes up to its capacity, and fails at listed writes.

ghost use Rattle.std.specs.Prelude.{◌≡◌, ◌<◌, ◌≤◌, ◌-◌, ◌↔◌, ◌⊎◌, ◌++◌, [], Some, IsErr, IfOk, OnErr, length, take, min};
ghost use Rattle.devices.specs.Calls.{no_calls, FailsNext, after_success, after_fault};
ghost use Rattle.devices.specs.ListSink.{IsFull};

use crate::calls::Calls;
use crate::device::{Failed, OutOfMemory, Sink};
use std::alloc::Global;
use std::marker::Model;

/// Holds the bytes that were written, up to its capacity. It takes at most `most` of them a write,
/// and fails at the listed writes and where it is full.
#[derive(Drop)]
pub struct ListSink<'a> {
    bytes: Vec<u8>,
    room: usize,
    most: usize,
    calls: Calls<'a>,
}

impl<'a> Model for ListSink<'a> {
    ghost use Rattle.std.specs.Prelude.{◌<◌, ◌≤◌, vec_len};
    ghost use Rattle.std.specs.Vec.{vec_capacity};
    ghost use Rattle.devices.specs.ListSink.{ListSink};

    ghost Value = { ListSink };

    ghost view = { λ s. record { held = s.bytes.items; room = s.room; most = s.most; calls = s.calls } };

    // The capacity was allocated at creation, so a write needs no memory.
    ghost invariant = { λ s. (0 < s.most) × (vec_len s.bytes ≤ s.room) × (s.room ≤ vec_capacity s.bytes) };
}

impl<'a> ListSink<'a> {
    /// A sink that holds nothing, with its capacity allocated at once; `most` is not 0. Write
    /// number `k`, from 1, fails where `k` is in `failing`.
    ///
    /// # Errors
    /// `OutOfMemory` where the capacity finds no memory.
    pub fn new(
        alloc: Global,
        room: usize,
        most: usize,
        failing: &'a [u64],
    ) -> Result<Self, OutOfMemory>
        requires { 0 < most }
        ensures { IfOk result (λ sink. sink ≡ record {
          held = [];
          room = room;
          most = most;
          calls = no_calls failing.now;
        }) }
    {
        let bytes = Vec::with_capacity(alloc, room)?;
        Ok(ListSink {
            bytes,
            room,
            most,
            calls: Calls::new(failing),
        })
    }

    /// The bytes held.
    pub fn held(&self) -> &[u8]
        ensures { result.now ≡ self.now.held }
    {
        self.bytes.as_slice()
    }
}

impl<'a> Sink for ListSink<'a> {
    ghost held = { λ s. Some s.held };

    ghost faults = { λ s. s.calls.faults };

    fn write(&mut self, piece: &[u8]) -> Result<usize, Failed>
        requires { 0 < length piece.now }
        // A listed write and one at a full sink fail, append nothing, and are counted.
        ensures fails { IsErr result ↔ (FailsNext self.old.calls ⊎ IsFull self.old) }
        ensures err { OnErr result (self.new ≡ record self.old { calls = after_fault self.old.calls }) }
        ensures counted { self.old.calls.faults ≤ self.new.calls.faults }

        // Any other write appends what fits, up to the most that one write takes.
        ensures takes { IfOk result (λ n. (0 < n) × (n ≤ length piece.now)) }
        ensures count { IfOk result (λ n. n
            ≡ min (min (length piece.now) self.old.most) (self.old.room - length self.old.held)) }
        ensures ok { IfOk result (λ n. self.new ≡ record self.old {
          held = self.old.held ++ take n piece.now;
          calls = after_success self.old.calls;
        }) }
    {
        self.calls.begin()?;
        if self.bytes.len() == self.room {
            self.calls.fault();
            return Err(Failed);
        }
        let count = piece.len().min(self.most).min(self.room - self.bytes.len());
        self.bytes.extend_from_slice(&piece[..count]).unwrap();
        Ok(count)
    }
}
