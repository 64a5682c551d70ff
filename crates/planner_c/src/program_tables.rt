//! What the linker finds for the modules of a program, as lists.

ghost use Rattle.std.specs.Prelude.{◌≡◌, ◌<◌, ◌+◌, ◌++◌, List, All, IfOk, IfSome, OnOk, length, map, slice_get};
ghost use Rattle.std.specs.List.{AllZip};
ghost use Rattle.wasm_index.specs.Index.{number_of};
ghost use Rattle.plan_link.specs.declared.answer.ImportAnswer.{ImportAnswer as Answer};
ghost use Rattle.plan_link.specs.Answers.{IsBelow};
ghost use Rattle.plan_link.specs.Program.{GivesEarlier};
ghost use Rattle.planner_c.specs.Members.{BeginAtZero, IsBetween};
ghost use Rattle.planner_c.specs.Programs.{TellsAnswer, all_answers, all_types, module_row, module_rows};

use crate::linking::mismatch_number;
use crate::programs::{LinkedModuleRecord, ProgramAnswerRecord};
use entity_map::{EntityRef, OutOfMemory};
use plan_link::{ImportAnswer, LinkedModule, mismatch_line};
use plan_tables::Span;
use std::alloc::Global;
use wasm_index::VMSharedTypeIndex;

/// The lists of the record of a program.
#[derive(Drop)]
pub(crate) struct ProgramTables {
    pub(crate) modules: Vec<LinkedModuleRecord>,
    pub(crate) types: Vec<u32>,
    pub(crate) answers: Vec<ProgramAnswerRecord>,
}

/// What is found for the modules of a program, as lists, in which the parts of each module follow
/// those of the one before.
pub(crate) fn program_tables(
    alloc: Global,
    linked: &[LinkedModule],
) -> Result<ProgramTables, OutOfMemory>
    requires zero { BeginAtZero linked.now }
    requires earlier { All GivesEarlier linked.now }
    ensures modules { IfOk result (λ t. t.modules.items ≡ module_rows 0 0 linked.now) }
    ensures types { IfOk result (λ t. t.types.items ≡ all_types linked.now) }
    ensures answers { IfOk result (λ t. AllZip (TellsAnswer (IsBetween linked.now)) (all_answers linked.now) t.answers.items) }
{
    let mut modules = Vec::with_capacity(alloc, linked.len())?;
    let mut types = Vec::new(alloc);
    let mut answers = Vec::new(alloc);
    for (place, found) in linked.iter().enumerate() {
        modules.push(module_row(found, types.len(), answers.len()))?;
        push_indices(&mut types, &found.types)?;
        push_answers(&mut answers, linked, place, &found.answers)?;
    }
    Ok(ProgramTables {
        modules,
        types,
        answers,
    })
}

// A module whose types and answers begin behind so many others.
fn module_row(found: &LinkedModule, types: usize, answers: usize) -> LinkedModuleRecord
    ensures { result ≡ module_row types answers found.now }
{
    LinkedModuleRecord {
        types: Span {
            begin: types,
            len: found.types.len(),
        },
        answers: Span {
            begin: answers,
            len: found.answers.len(),
        },
        first_export: found.first_export,
    }
}

fn push_indices(numbers: &mut Vec<u32>, indices: &[VMSharedTypeIndex]) -> Result<(), OutOfMemory>
    ensures { OnOk result (numbers.new.items ≡ numbers.old.items ++ map number_of indices.now) }
{
    for index in indices {
        numbers.push(index.as_u32())?;
    }
    Ok(())
}

// Appends the answers to the imports of the module at a position.
fn push_answers(
    rows: &mut Vec<ProgramAnswerRecord>,
    linked: &[LinkedModule],
    place: usize,
    answers: &[ImportAnswer],
) -> Result<(), OutOfMemory>
    requires zero { BeginAtZero linked.now }
    requires place { place < length linked.now }
    requires earlier { IfSome (slice_get linked.now place) (λ x. All (IsBelow x.first_export) answers.now) }
    ensures long { OnOk result (length rows.new.items ≡ length rows.old.items + length answers.now) }
    ensures told { OnOk result ((before : List Answer) → AllZip (TellsAnswer (IsBetween linked.now)) before rows.old.items
        → AllZip (TellsAnswer (IsBetween linked.now)) (before ++ answers.now) rows.new.items) }
{
    for answer in answers {
        rows.push(answer_row(linked, place, *answer))?;
    }
    Ok(())
}

// The answer to an import of the module at a position.
fn answer_row(linked: &[LinkedModule], place: usize, answer: ImportAnswer) -> ProgramAnswerRecord
    requires zero { BeginAtZero linked.now }
    requires place { place < length linked.now }
    requires earlier { IfSome (slice_get linked.now place) (λ x. IsBelow x.first_export answer) }
    ensures { TellsAnswer (IsBetween linked.now) answer result }
{
    match answer {
        ImportAnswer::Given(number) => {
            let (exporter, export_number) = exporter_of(linked, place, number);
            ProgramAnswerRecord {
                answer: 0,
                rule: 0,
                module: exporter,
                export_number,
                line: "".as_bytes(),
            }
        }
        ImportAnswer::Missing => ProgramAnswerRecord {
            answer: 1,
            rule: 0,
            module: 0,
            export_number: 0,
            line: "".as_bytes(),
        },
        ImportAnswer::Mismatch(rule) => ProgramAnswerRecord {
            answer: 2,
            rule: mismatch_number(rule),
            module: 0,
            export_number: 0,
            line: mismatch_line(rule).as_bytes(),
        },
    }
}

// The module that has the export of a number, before the module at a position, and the number of
// the export there.
fn exporter_of(linked: &[LinkedModule], place: usize, number: usize) -> (usize, usize)
    requires zero { BeginAtZero linked.now }
    requires place { place < length linked.now }
    requires earlier { IfSome (slice_get linked.now place) (λ x. number < x.first_export) }
    ensures { IsBetween linked.now number result.0 result.1 }
{
    let mut low = 0;
    let mut high = place;
    // The export is not before the first one of `low`, and before the first one of `high`.
    'halves: while high - low > 1 {
        let middle = low + (high - low) / 2;
        if linked[middle].first_export <= number {
            low = middle;
        } else {
            high = middle;
        }
    }
    (low, number - linked[low].first_export)
}
