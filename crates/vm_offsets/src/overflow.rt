//! Sizes that do not fit.

/// The size of a context, in bytes, is past `u32::MAX`.
#[derive(Clone, Copy, Debug)]
pub struct OffsetOverflow;
