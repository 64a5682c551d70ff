//! What an import is given.

use import_match::Mismatch;

/// What an import is given by the exports of another module.
#[derive(Clone, Copy, Debug, Drop, PartialEq, Eq)]
pub enum ImportAnswer {
    /// The export of this number, counted from 0 in their order.
    Given(usize),
    /// No export has its names.
    Missing,
    /// The export with its names breaks this rule, the first in the table.
    Mismatch(Mismatch),
}
