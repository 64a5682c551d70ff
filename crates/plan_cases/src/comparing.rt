//! What a run gave, compared with what it must give.

use crate::case::{At, Case, DataBytes, Expected, LineCount, RefusalSpot};
use crate::running::{Outcome, Refusal};

/// What differs from what is expected.
#[derive(Clone, Copy)]
pub enum Difference<'a> {
    Status(u64),
    Read,
    Text,
    /// The text lacks this line.
    Line(&'a str),
    /// Another number of lines begins with these words.
    Count(&'a LineCount),
    /// The runtime data of this number differ.
    Data(u64),
    /// The bytes are refused elsewhere, or one of the two is nowhere.
    Place {
        wanted: Option<RefusalSpot>,
        found: Option<Refusal>,
    },
}

/// Whether a line is these words, or begins with them and a space.
fn begins_with(line: &str, words: &str) -> bool {
    match line.strip_prefix(words) {
        Some(rest) => rest.is_empty() || rest.starts_with(' '),
        None => false,
    }
}

/// How many lines of the text begin with these words.
fn count_lines(text: &str, words: &str) -> u64 {
    let mut count = 0u64;
    for line in text.lines() {
        if begins_with(line, words) {
            count = count.saturating_add(1);
        }
    }
    count
}

fn has_line(text: &str, wanted: &str) -> bool {
    for line in text.lines() {
        if line == wanted {
            return true;
        }
    }
    false
}

/// The first of the lines that the text lacks.
fn missing_line<'a>(lines: &'a [String], text: &str) -> Option<Difference<'a>> {
    for line in lines {
        if !has_line(text, line.as_str()) {
            return Some(Difference::Line(line.as_str()));
        }
    }
    None
}

/// The first kind of lines of which the text has another number.
fn wrong_count<'a>(counts: &'a [LineCount], text: &str) -> Option<Difference<'a>> {
    for one in counts {
        if count_lines(text, one.words.as_str()) != one.count {
            return Some(Difference::Count(one));
        }
    }
    None
}

/// The first of the runtime data that differ.
fn wrong_data<'a>(wanted: &'a [DataBytes], data: &[Vec<u8>]) -> Option<Difference<'a>> {
    for one in wanted {
        match data.get(one.place as usize) {
            Some(bytes) if bytes.as_slice() == one.bytes.as_slice() => {}
            _ => return Some(Difference::Data(one.place)),
        }
    }
    None
}

/// The difference in the status, in how many bytes were read or in the complete text.
fn wrong_end<'a>(expected: &'a Expected, outcome: &Outcome) -> Option<Difference<'a>> {
    if u64::from(outcome.status) != expected.status {
        return Some(Difference::Status(expected.status));
    }
    if let Some(read) = expected.read
        && outcome.read as u64 != read
    {
        return Some(Difference::Read);
    }
    if expected.is_text_said && expected.text.as_bytes() != outcome.text.as_slice() {
        return Some(Difference::Text);
    }
    None
}

/// The spot of a refusal; an input and a context that are too large have none.
fn spot_of(refusal: Refusal) -> Option<RefusalSpot> {
    match refusal {
        Refusal::Unread(place) => Some(RefusalSpot {
            byte: u64::from(place.byte),
            entry: place.entry.map(u64::from),
        }),
        Refusal::Broken(broken) => Some(entry_spot(broken.byte, broken.section_entry)),
        Refusal::Large(excess) => excess
            .place
            .map(|place| entry_spot(place.byte, place.section_entry)),
    }
}

/// The spot of an entry.
fn entry_spot(byte: u32, entry: u32) -> RefusalSpot {
    RefusalSpot {
        byte: u64::from(byte),
        entry: Some(u64::from(entry)),
    }
}

/// The spot at which the bytes must be refused, where they must be.
fn wanted_spot(at: At, outcome: &Outcome) -> Option<RefusalSpot> {
    match at {
        At::Nowhere => None,
        At::End => Some(RefusalSpot {
            byte: outcome.read as u64,
            entry: None,
        }),
        At::Spot(spot) => Some(spot),
    }
}

/// The place of the refusal, where the case says another.
fn wrong_place<'a>(expected: &Expected, outcome: &Outcome) -> Option<Difference<'a>> {
    let at = expected.at?;
    let found = outcome.refusal;
    let wanted = wanted_spot(at, outcome);
    if found.and_then(spot_of) == wanted {
        return None;
    }
    Some(Difference::Place { wanted, found })
}

/// The text that was written; empty where the bytes are not text.
pub fn text_of(outcome: &Outcome) -> &str {
    str::from_utf8(outcome.text.as_slice()).unwrap_or("")
}

/// The first difference between what the run gave and what it must give.
pub fn difference_of<'a>(case: &'a Case, outcome: &Outcome) -> Option<Difference<'a>> {
    let expected = &case.expected;
    let text = text_of(outcome);
    if let Some(wrong) = wrong_end(expected, outcome) {
        return Some(wrong);
    }
    if let Some(wrong) = wrong_place(expected, outcome) {
        return Some(wrong);
    }
    if let Some(wrong) = missing_line(expected.lines.as_slice(), text) {
        return Some(wrong);
    }
    if let Some(wrong) = wrong_count(expected.counts.as_slice(), text) {
        return Some(wrong);
    }
    wrong_data(expected.data.as_slice(), outcome.data.as_slice())
}
