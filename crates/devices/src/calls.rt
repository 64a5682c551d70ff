//! The calls of a device that fails at listed calls.

ghost use Rattle.std.specs.Prelude.{◌≡◌, ◌≤◌, ◌↔◌, IsErr, OnOk, OnErr};
ghost use Rattle.devices.specs.Calls.{no_calls, FailsNext, after_success, after_fault};
ghost use Rattle.devices.specs.Counter.{raised_by};

use crate::device::Failed;
use std::marker::Model;

/// Counts the calls of a device, and fails those that are listed.
#[derive(Drop)]
pub struct Calls<'a> {
    failing: &'a [u64],
    made: u64,
    faults: u64,
}

impl<'a> Model for Calls<'a> {
    ghost use Rattle.std.specs.Prelude.{◌<◌, ◌^◌, All};
    ghost use Rattle.devices.specs.Calls.{Calls};

    ghost Value = { Calls };

    ghost view = { λ c. record { failing = c.failing.now; made = c.made; faults = c.faults } };

    // The listed numbers have 64 bits, so no call past the counter's last value is listed.
    ghost invariant = { λ c. All (λ k. k < 2 ^ 64) c.failing.now };
}

impl<'a> Calls<'a> {
    /// No call was made yet; call number `k`, from 1, fails where `k` is in `failing`.
    pub fn new(failing: &'a [u64]) -> Self
        ensures { result ≡ no_calls failing.now }
    {
        Calls {
            failing,
            made: 0,
            faults: 0,
        }
    }

    /// Counts a call that begins. It fails where it is listed.
    ///
    /// # Errors
    /// `Failed` exactly where the call is listed; it counts as a fault then.
    pub fn begin(&mut self) -> Result<(), Failed>
        ensures fails { IsErr result ↔ FailsNext self.old }
        ensures ok { OnOk result (self.new ≡ after_success self.old) }
        ensures err { OnErr result (self.new ≡ after_fault self.old) }
        ensures counted { self.old.faults ≤ self.new.faults }
    {
        // Past the counter's last value no call is listed.
        let Some(number) = self.made.checked_add(1) else {
            return Ok(());
        };
        self.made = number;
        if self.failing.contains(&number) {
            self.fault();
            return Err(Failed);
        }
        Ok(())
    }

    /// Counts a fault.
    pub fn fault(&mut self)
        ensures raised { self.new ≡ record self.old { faults = raised_by 1 self.old.faults } }
        ensures counted { self.old.faults ≤ self.new.faults }
    {
        self.faults = self.faults.saturating_add(1);
    }
}
