//! A text in memory that C frees.

/// The text of a plan, or the line of a refusal: `bobbinazure_text`.
#[repr(C)]
#[derive(Clone, Copy)]
pub struct TextRecord<'d> {
    /// In UTF-8, without a zero at the end.
    pub text: &'d [u8],
    /// Whether the text is in memory of its own, which `bobbinazure_text_free` frees.
    pub made: u32,
}
