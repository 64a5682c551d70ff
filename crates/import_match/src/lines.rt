//! The text of a rule of matching.

ghost use Rattle.std.specs.Prelude.{◌≡◌, Some};
ghost use Rattle.import_match.specs.Lines.{text_of_mismatch};

use crate::error::Mismatch;
use std::error::Error;
use std::fmt;

/// The text of a rule, in memory that nobody frees.
pub fn mismatch_line(rule: Mismatch) -> &'static str
    ensures { result.now ≡ text_of_mismatch rule }
{
    match rule {
        Mismatch::Kind => "the kinds differ",
        Mismatch::FuncType => "the function types differ",
        Mismatch::TableElement => "the element types of the tables differ",
        Mismatch::TableIndexType => "the index types of the tables differ",
        Mismatch::TableMin => "the table is too small",
        Mismatch::TableMax => "the table may grow too large",
        Mismatch::MemoryIndexType => "the index types of the memories differ",
        Mismatch::MemoryShared => "one memory is shared, the other is not",
        Mismatch::MemoryPage => "the page sizes differ",
        Mismatch::MemoryMin => "the memory is too small",
        Mismatch::MemoryMax => "the memory may grow too large",
        Mismatch::GlobalMutability => "one global can be written, the other cannot",
        Mismatch::GlobalType => "the value types of the globals differ",
        Mismatch::TagType => "the types of the tags differ",
    }
}

impl fmt::Display for Mismatch {
    ghost output = { λ rule. Some (text_of_mismatch rule) };

    fn fmt<W: fmt::Write>(&self, f: &mut fmt::Formatter<W>) -> fmt::Result {
        f.write_str(mismatch_line(*self))
    }
}

impl Error for Mismatch {}
