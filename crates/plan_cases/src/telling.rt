//! What is printed of a case that failed.

use crate::case::{Case, CaseError, RefusalSpot, words_of_error};
use crate::comparing::{Difference, text_of};
use crate::running::{Outcome, Refusal};
use std::io;

/// Prints where the bytes must be refused.
fn tell_wanted(rt: &HostRuntime, wanted: Option<RefusalSpot>) -> io::Result<()> {
    let Some(spot) = wanted else {
        return println!(rt; "wanted: no place");
    };
    match spot.entry {
        Some(entry) => println!(rt; "wanted: byte {}, entry {entry}", spot.byte),
        None => println!(rt; "wanted: byte {}, no entry", spot.byte),
    }
}

/// Prints where and why the bytes are refused.
fn tell_found(rt: &HostRuntime, found: Option<Refusal>) -> io::Result<()> {
    match found {
        Some(Refusal::Unread(place)) => println!(rt; "found: byte {}: {place}", place.byte),
        Some(Refusal::Broken(broken)) => println!(rt;
            "found: byte {}: {}, entry {}: {}",
            broken.byte, broken.section, broken.section_entry, broken.fault
        ),
        Some(Refusal::Large(excess)) => match excess.place {
            Some(place) => println!(rt; "found: byte {}: {excess}", place.byte),
            None => println!(rt; "found: {excess}, at no place"),
        },
        None => println!(rt; "found: no place"),
    }
}

/// Prints what differs.
fn tell_difference(rt: &HostRuntime, difference: Difference<'_>) -> io::Result<()> {
    match difference {
        Difference::Status(status) => println!(rt; "the status is not {status}"),
        Difference::Read => println!(rt; "another number of bytes was read"),
        Difference::Text => println!(rt; "the text is another"),
        Difference::Line(line) => println!(rt; "no line '{line}'"),
        Difference::Count(wanted) => {
            println!(rt; "not {} lines that begin '{}'", wanted.count, wanted.words)
        }
        Difference::Data(place) => println!(rt; "runtime data {place} are others"),
        Difference::Place { wanted, found } => {
            println!(rt; "the place is another")?;
            tell_wanted(rt, wanted)?;
            tell_found(rt, found)
        }
    }
}

/// Prints the bytes of runtime data, as a line of a case.
fn tell_bytes(rt: &HostRuntime, place: usize, bytes: &[u8]) -> io::Result<()> {
    print!(rt; "data {place}")?;
    for byte in bytes {
        print!(rt; " {byte:02X}")?;
    }
    println!(rt)
}

/// Prints how a case failed, and what it gave.
pub fn tell_outcome(
    rt: &HostRuntime,
    path: &str,
    case: &Case,
    outcome: &Outcome,
    difference: Difference<'_>,
) -> io::Result<()> {
    println!(rt; "FAILED {path}: {}", case.name)?;
    tell_difference(rt, difference)?;
    println!(rt; "status {}, {} bytes read", outcome.status, outcome.read)?;
    println!(rt; "{}", text_of(outcome))?;
    if !case.expected.data.is_empty() {
        for (place, bytes) in outcome.data.iter().enumerate() {
            tell_bytes(rt, place, bytes.as_slice())?;
        }
    }
    Ok(())
}

/// Prints why a block is not a case, or why its case could not be run.
pub fn tell_fault(rt: &HostRuntime, path: &str, block: &str, fault: CaseError) -> io::Result<()> {
    println!(rt; "FAILED {path}: {}", words_of_error(fault))?;
    println!(rt; "{block}")
}
