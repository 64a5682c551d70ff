//! What C reads of two modules that are linked.

/// What an import is given: `bobbinazure_import_answer`.
#[repr(C)]
#[derive(Clone, Copy)]
pub struct ImportAnswerRecord {
    /// What it is, from `BOBBINAZURE_GIVEN` on: 0 given, 1 missing, 2 a mismatch.
    pub answer: u32,
    /// Where it is given, the number of the export, from 0 on; of a mismatch the rule that it
    /// breaks, from `BOBBINAZURE_MISMATCH_KIND` on; else 0.
    pub detail: u32,
    /// The text of a mismatch, without a line feed; else empty. It is never freed.
    pub line: &'static [u8],
}

/// What each import of a module is given, or which module is refused: `bobbinazure_link_record`.
#[repr(C)]
#[derive(Clone, Copy)]
pub struct LinkRecord<'d> {
    /// 1 where the first module is refused, 2 where the second is; 0 where both are planned.
    pub refused: u32,
    /// Why that module is refused: this field and the next two are those of a plan.
    pub refusal: u32,
    pub refusal_detail: u32,
    /// The line of the refusal, as the program prints it, with its line feed. It is never freed.
    pub refusal_line: &'static [u8],
    /// The answer to each import of the second module, in order.
    pub answers: &'d [ImportAnswerRecord],
}
