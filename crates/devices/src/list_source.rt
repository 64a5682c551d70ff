//! A source that gives a list of bytes piece by piece, and fails at listed reads.

ghost use Rattle.std.specs.Prelude.{None, ◌≡◌, ◌<◌, ◌≤◌, ◌↔◌, ◌++◌, [], Some, IsErr, IfOk, OnErr, length, take, drop, min};
ghost use Rattle.devices.specs.Calls.{no_calls, FailsNext, after_success, after_fault};

use crate::calls::Calls;
use crate::device::{Failed, Source};
use crate::slice_source::SliceSource;
use std::marker::Model;

/// Gives the bytes of a slice, at most `piece` of them a read, and fails at the listed reads.
#[derive(Drop)]
pub struct ListSource<'a> {
    source: SliceSource<'a>,
    piece: usize,
    calls: Calls<'a>,
}

impl<'a> Model for ListSource<'a> {
    ghost use Rattle.std.specs.Prelude.{◌<◌};
    ghost use Rattle.devices.specs.ListSource.{ListSource};

    ghost Value = { ListSource };

    ghost view = { λ s. record { left = s.source; piece = s.piece; calls = s.calls } };

    ghost invariant = { λ s. 0 < s.piece };
}

impl<'a> ListSource<'a> {
    /// A source of these bytes, at most `piece` of them a read, which is not 0. Read number `k`,
    /// from 1, fails where `k` is in `failing`.
    pub fn new(bytes: &'a [u8], piece: usize, failing: &'a [u64]) -> Self
        requires { 0 < piece }
        ensures { result ≡ record { left = bytes.now; piece = piece; calls = no_calls failing.now } }
    {
        ListSource {
            source: SliceSource::new(bytes),
            piece,
            calls: Calls::new(failing),
        }
    }
}

impl<'a> Source for ListSource<'a> {
    ghost left = { λ s. Some s.left };

    ghost faults = { λ s. s.calls.faults };

    ghost since_end = { λ _. None };

    fn read(&mut self, buf: &mut [u8]) -> Result<usize, Failed>
        requires { 0 < length buf.old }
        // A listed read fails, moves nothing, and is counted.
        ensures fails { IsErr result ↔ FailsNext self.old.calls }
        ensures err { OnErr result (self.new ≡ record self.old { calls = after_fault self.old.calls }) }
        ensures untouched { OnErr result (buf.new ≡ buf.old) }
        ensures counted { self.old.calls.faults ≤ self.new.calls.faults }

        // Any other read moves what fits, up to a piece, and is the end only where nothing remains.
        ensures count { IfOk result (λ n. n ≡ min (min (length buf.old) self.old.piece) (length self.old.left)) }
        ensures bytes { IfOk result (λ n. buf.new ≡ take n self.old.left ++ drop n buf.old) }
        ensures ends { IfOk result (λ n. n ≡ 0 → self.old.left ≡ []) }
        ensures ok { IfOk result (λ n. self.new ≡ record self.old {
          left = drop n self.old.left;
          calls = after_success self.old.calls;
        }) }
    {
        self.calls.begin()?;
        let most = buf.len().min(self.piece);
        self.source.read(&mut buf[..most])
    }
}
