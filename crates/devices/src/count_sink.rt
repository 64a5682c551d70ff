//! A sink that only counts the bytes.

ghost use Rattle.std.specs.Prelude.{◌≡◌, ◌<◌, None, length};
ghost use Rattle.devices.specs.Counter.{raised_by};

use crate::device::{Failed, Sink};
use std::marker::Model;

/// Accepts every byte, never fails, and keeps only how many it accepted. A contract sees that
/// number, which stays at `u64::MAX` once it is reached.
#[derive(Default, Drop)]
pub struct CountSink {
    total: u64,
}

impl Model for CountSink {
    ghost use Rattle.std.specs.Prelude.{ℕ};

    ghost Value = { ℕ };

    ghost view = { λ s. s.total };
}

impl CountSink {
    /// A sink that accepted nothing yet.
    pub fn new() -> Self
        ensures { result ≡ 0 }
    {
        CountSink { total: 0 }
    }

    /// How many bytes it accepted, or `u64::MAX` where these were more.
    pub fn total(&self) -> u64
        ensures { result ≡ self.now }
    {
        self.total
    }
}

impl Sink for CountSink {
    ghost held = { λ _. None };

    ghost faults = { λ _. 0 };

    fn write(&mut self, piece: &[u8]) -> Result<usize, Failed>
        requires { 0 < length piece.now }
        ensures count { result ≡ Ok (length piece.now) }
        ensures total { self.new ≡ raised_by (length piece.now) self.old }
    {
        self.total = self.total.saturating_add(piece.len() as u64);
        Ok(piece.len())
    }
}
