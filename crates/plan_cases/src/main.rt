//! A program that runs the planner over the cases of text files, for tests of the complete planner.
//!
//! It reports each case whose outcome differs from what its file wants, and counts cases and
//! failures. The cases are in `data/`, and the folder's README explains their lines.
//!
//! ```text
//! case words that name no command: Plan
//! words Plan
//! status 2
//! no-text
//! ```
//!
//! Cases run one after another, and each names the words, bytes and devices of its run.
//!
//! Read on: `case`, `given`, `expected`, `comparing`; docs/CONTRIBUTING.md says how to add a case.
#![tactic(auto)]

mod case;
mod comparing;
mod expected;
mod given;
mod lines;
mod pieces;
mod running;
mod telling;

use case::{Case, is_named};
use comparing::difference_of;
use lines::read_case;
use running::outcome_of;
use std::process::ExitCode;
use std::{env, fs, io};
use telling::{tell_fault, tell_outcome};

/// How many cases there were, and how many of them failed.
#[derive(Clone, Copy)]
struct Totals {
    cases: u64,
    failed: u64,
}

/// Runs a case over the first `length` of its bytes, and reports it where it fails. Returns whether
/// it passed.
fn try_length(rt: &HostRuntime, path: &str, case: &Case, length: u64) -> io::Result<bool> {
    match outcome_of(rt.alloc(), case, length) {
        Ok(outcome) => match difference_of(case, &outcome) {
            Some(difference) => {
                tell_outcome(rt, path, case, &outcome, difference)?;
                Ok(false)
            }
            None => Ok(true),
        },
        Err(fault) => {
            tell_fault(rt, path, case.name.as_str(), fault)?;
            Ok(false)
        }
    }
}

/// Runs a case over each number of its bytes that it names, up to the first that fails. Returns
/// whether all passed.
fn try_case(rt: &HostRuntime, path: &str, case: &Case) -> io::Result<bool> {
    for length in case.given.shortest..=case.given.longest {
        if !try_length(rt, path, case, length)? {
            return Ok(false);
        }
    }
    Ok(case.given.shortest <= case.given.longest)
}

/// Runs the case of a block, if it is one, and counts it; its bytes become those of the case
/// before.
fn try_block(
    rt: &HostRuntime,
    path: &str,
    block: &str,
    before: &mut Vec<u8>,
    totals: &mut Totals,
) -> io::Result<()> {
    let is_well = match read_case(rt.alloc(), before.as_slice(), block) {
        Ok(case) => {
            if !is_named(&case) {
                return Ok(());
            }
            *before = Vec::from_slice(rt.alloc(), case.given.bytes.as_slice())?;
            try_case(rt, path, &case)?
        }
        Err(fault) => {
            tell_fault(rt, path, block, fault)?;
            false
        }
    };
    totals.cases = totals.cases.saturating_add(1);
    if !is_well {
        totals.failed = totals.failed.saturating_add(1);
    }
    Ok(())
}

/// Runs the cases of a file, between which there are empty lines.
fn try_file(rt: &HostRuntime, path: &str, totals: &mut Totals) -> io::Result<()> {
    let text = fs::read_to_string(rt, path)?;
    let mut before = Vec::new(rt.alloc());
    for block in text.as_str().split("\n\n") {
        try_block(rt, path, block, &mut before, totals)?;
    }
    Ok(())
}

/// Runs the cases of the files that the words name.
fn main(rt: HostRuntime) -> io::Result<ExitCode> {
    let mut totals = Totals {
        cases: 0,
        failed: 0,
    };
    for path in env::args(&rt)?.skip(1) {
        try_file(&rt, path.as_str(), &mut totals)?;
    }
    println!(rt; "{} cases, {} failed", totals.cases, totals.failed)?;
    Ok(ExitCode::from(if totals.failed == 0 { 0 } else { 1 }))
}
