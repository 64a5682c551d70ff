//! A run of a case over devices in memory.

use crate::case::{Case, CaseError, Given};
use devices::{ListSink, ListSource};
use entity_map::OutOfMemory;
use init_plan::RuntimeBytes;
use plan_excess::{Excess, locate_excess};
use refusal_place::{Place, locate};
use rule_breaks::{BrokenRule, locate_broken_rule};
use std::alloc::{AllocError, Global};
use translate::{Report, read_words, run};

/// Where and why bytes are refused.
#[derive(Clone, Copy)]
pub enum Refusal {
    /// They are not read as a module.
    Unread(Place),
    /// They break a rule.
    Broken(BrokenRule),
    /// They are too large to be planned.
    Large(Excess),
}

/// What a run gave.
#[derive(Drop)]
pub struct Outcome {
    pub status: u8,
    /// How many bytes were read.
    pub read: usize,
    pub text: Vec<u8>,
    /// The bytes of the plan's runtime data, in order.
    pub data: Vec<Vec<u8>>,
    /// Where the bytes are refused, where the case says something of it.
    pub refusal: Option<Refusal>,
}

fn slice_of<'a>(data: &'a RuntimeBytes<'_>) -> &'a [u8] {
    match data {
        RuntimeBytes::Borrowed(bytes) => bytes,
        RuntimeBytes::Owned(bytes) => bytes.as_slice(),
    }
}

/// The bytes of the runtime data of a report's plan; none where there is no plan.
fn data_of(alloc: Global, report: &Report<'_>) -> Result<Vec<Vec<u8>>, AllocError> {
    let mut all = Vec::new(alloc);
    if let Some(plan) = &report.plan {
        for data in plan.translation.runtime_data.values() {
            all.push(Vec::from_slice(alloc, slice_of(data))?)
                .map_err(AllocError::from)?;
        }
    }
    Ok(all)
}

/// Where the bytes are refused, where the case says something of it.
fn refusal_of(alloc: Global, case: &Case, bytes: &[u8]) -> Result<Option<Refusal>, OutOfMemory> {
    if case.expected.at.is_none() {
        return Ok(None);
    }
    if let Some(place) = locate(alloc, bytes)? {
        return Ok(Some(Refusal::Unread(place)));
    }
    match locate_broken_rule(alloc, bytes)? {
        Some(broken) => Ok(Some(Refusal::Broken(broken))),
        None => Ok(excess_of(alloc, case.given.words.as_slice(), bytes)?.map(Refusal::Large)),
    }
}

/// What makes the bytes too large to be planned with these words, where something does.
fn excess_of(alloc: Global, words: &[String], bytes: &[u8]) -> Result<Option<Excess>, OutOfMemory> {
    match read_words(words) {
        Some(command) => locate_excess(alloc, &command, bytes),
        None => Ok(None),
    }
}

/// The run of these words over bytes that are refused so. Its text is the sink's.
fn outcome_over(
    alloc: Global,
    words: &[String],
    source: &mut ListSource<'_>,
    sink: &mut ListSink<'_>,
    refusal: Option<Refusal>,
) -> Result<Outcome, AllocError> {
    let mut store = Vec::new(alloc);
    let report = run(alloc, words, source, &mut store, sink);
    let read = report.bytes.len();
    let data = data_of(alloc, &report);
    let status = report.into_status();
    let data = data?;
    let text = Vec::from_slice(alloc, sink.held())?;
    Ok(Outcome {
        status,
        read,
        text,
        data,
        refusal,
    })
}

/// The first `length` bytes that are given, or all where there are fewer.
fn first_bytes(given: &Given, length: u64) -> &[u8] {
    let end = given.bytes.len().min(length as usize);
    &given.bytes[..end]
}

/// What a run of the case gives over the first `length` of its bytes.
pub fn outcome_of(alloc: Global, case: &Case, length: u64) -> Result<Outcome, CaseError> {
    let given = &case.given;
    if given.piece == 0 || given.most == 0 {
        return Err(CaseError::NoNumber);
    }
    let bytes = first_bytes(given, length);
    let refusal = refusal_of(alloc, case, bytes)?;
    let mut source = ListSource::new(bytes, given.piece, given.failing_reads.as_slice());
    let failing = given.failing_writes.as_slice();
    let Ok(mut sink) = ListSink::new(alloc, given.room, given.most, failing) else {
        return Err(CaseError::OutOfMemory);
    };
    Ok(outcome_over(
        alloc,
        given.words.as_slice(),
        &mut source,
        &mut sink,
        refusal,
    )?)
}
