//! The start of a region.

/// A region's description, and its first byte.
#[derive(Clone, Copy)]
pub struct ContextPart {
    pub description: &'static str,
    pub begin: u32,
}
