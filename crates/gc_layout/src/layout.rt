//! A size and an alignment.

/// The size and the alignment of a block of memory, in bytes.
#[derive(Clone, Copy, Debug, PartialEq, Eq)]
pub struct Layout {
    pub size: usize,
    /// A power of two.
    pub align: usize,
}
