//! Numbers of entries.

ghost use Rattle.std.specs.Prelude.{◌≡◌, ◌+◌, IfOk};

use std::alloc::AllocError;

/// The index of an entry in 32 bits. An index past that gives an `AllocError`: no module has so
/// many entries.
pub(crate) fn numbered(index: usize) -> Result<u32, AllocError>
    ensures { IfOk result (λ number. number ≡ index) }
{
    u32::try_from(index).or(Err(AllocError))
}

/// The number of the next entry. More entries than 32 bits count give an `AllocError`.
pub(crate) fn next_number(entry: u32) -> Result<u32, AllocError>
    ensures { IfOk result (λ next. next ≡ entry + 1) }
{
    entry.checked_add(1).ok_or(AllocError)
}
