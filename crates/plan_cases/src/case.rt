//! A case: what is given to a run, and what it must give.

use entity_map::OutOfMemory;
use std::alloc::{AllocError, Global};

/// Why lines are not a case.
#[derive(Clone, Copy)]
pub enum CaseError {
    OutOfMemory,
    /// A line begins with no known word.
    UnknownLine,
    /// A line is before the name, or there is a second name.
    Name,
    /// A piece is neither bytes of two hexadecimal digits each, nor text in quotes, nor a run of
    /// bytes.
    UnknownPiece,
    /// A number is missing, is not a number, or is out of its range.
    NoNumber,
}

/// The words that are printed for an error.
pub fn words_of_error(error: CaseError) -> &'static str {
    match error {
        CaseError::OutOfMemory => "out of memory",
        CaseError::UnknownLine => "a line of no known kind",
        CaseError::Name => "no name before a line, or a second name",
        CaseError::UnknownPiece => "a piece of no known kind",
        CaseError::NoNumber => "no number, or one out of its range",
    }
}

impl From<AllocError> for CaseError {
    fn from(_error: AllocError) -> CaseError {
        CaseError::OutOfMemory
    }
}

impl From<OutOfMemory> for CaseError {
    fn from(_error: OutOfMemory) -> CaseError {
        CaseError::OutOfMemory
    }
}

/// What is given to a run: its words, the bytes of its source, and how its devices behave.
#[derive(Drop)]
pub struct Given {
    pub words: Vec<String>,
    pub bytes: Vec<u8>,
    /// How many of the bytes are given at least and at most: one run for each number between.
    pub shortest: u64,
    pub longest: u64,
    /// The most bytes that one read gives.
    pub piece: usize,
    pub failing_reads: Vec<u64>,
    /// The most bytes that the sink holds.
    pub room: usize,
    /// The most bytes that one write takes.
    pub most: usize,
    pub failing_writes: Vec<u64>,
}

/// How many lines of a text begin with these words.
#[derive(Drop)]
pub struct LineCount {
    pub count: u64,
    pub words: String,
}

/// The bytes of a runtime data entry.
#[derive(Drop)]
pub struct DataBytes {
    pub place: u64,
    pub bytes: Vec<u8>,
}

/// Where bytes are refused: an offset, and the entry of a section, where one is wrong.
#[derive(Clone, Copy, PartialEq, Eq)]
pub struct RefusalSpot {
    pub byte: u64,
    pub entry: Option<u64>,
}

/// What a case says of where its bytes are refused.
#[derive(Clone, Copy)]
pub enum At {
    /// They are read whole, and satisfy all rules.
    Nowhere,
    /// Where they end, and no entry is wrong.
    End,
    Spot(RefusalSpot),
}

/// What a run must give.
#[derive(Drop)]
pub struct Expected {
    pub status: u64,
    /// The text that is written, and whether the case gives all of it.
    pub text: String,
    pub is_text_said: bool,
    /// Lines that the text has.
    pub lines: Vec<String>,
    /// How many lines of a kind it has.
    pub counts: Vec<LineCount>,
    /// What the plan's runtime data are.
    pub data: Vec<DataBytes>,
    /// How many bytes are read, where the case says.
    pub read: Option<u64>,
    /// Where the bytes are refused, where the case says.
    pub at: Option<At>,
}

#[derive(Drop)]
pub struct Case {
    pub name: String,
    pub given: Given,
    pub expected: Expected,
}

/// What is given where no line says more.
fn plain_given(alloc: Global) -> Given {
    Given {
        words: Vec::new(alloc),
        bytes: Vec::new(alloc),
        shortest: u64::MAX,
        longest: u64::MAX,
        piece: 4096,
        failing_reads: Vec::new(alloc),
        room: 1 << 20,
        most: 4096,
        failing_writes: Vec::new(alloc),
    }
}

/// What is expected where no line says more: a plan.
fn plain_expected(alloc: Global) -> Expected {
    Expected {
        status: 0,
        text: String::new(alloc),
        is_text_said: false,
        lines: Vec::new(alloc),
        counts: Vec::new(alloc),
        data: Vec::new(alloc),
        read: None,
        at: None,
    }
}

/// The case without lines.
pub fn empty_case(alloc: Global) -> Result<Box<Case>, AllocError> {
    let case = Case {
        name: String::new(alloc),
        given: plain_given(alloc),
        expected: plain_expected(alloc),
    };
    Ok(Box::new(alloc, case)?)
}

/// Whether the case has a name. No line of another kind is accepted before its name, so a block
/// without one has comments alone.
pub fn is_named(case: &Case) -> bool {
    !case.name.is_empty()
}
