//! The call from C that links two modules.

ghost use Rattle.std.specs.Prelude.{◌≡◌, ◌≢◌, ◌⊎◌, ◌↔◌, ◌^◌, All, IfOk, map};
ghost use Rattle.std.specs.Str.{IsUtf8};
ghost use Rattle.translate.specs.Valid.{IsValid};
ghost use Rattle.import_match.specs.declared.error.Mismatch.{Mismatch};
ghost use Rattle.plan_link.specs.Answers.{IsBelow};
ghost use Rattle.plan_link.specs.Linked.{IsSomePlan};
ghost use Rattle.planner_c.specs.Calls.{AreRight, IsStatus, options_for};
ghost use Rattle.planner_c.specs.Links.{mismatch_number, answer_row, answer_told, TellsLinks, LinksPlans, TellsRefusalOf, RefusesOne};

use crate::links::{ImportAnswerRecord, LinkRecord};
use crate::options::{PlanOptions, command_of};
use crate::refusals::refusal_numbers;
use entity_map::OutOfMemory;
use import_match::Mismatch;
use plan_link::{ImportAnswer, link_plans, mismatch_line};
use plan_text::{Plan, TranslateError};
use std::alloc::Global;
use translate::{NO_MEMORY, REFUSED, SUCCESS, USAGE, plan_of, refusal_line};

/// Plans two modules, and puts into the record what each import of the second is given by the
/// exports of the first, which are defined under the name `as_module`: `bobbinazure_link`.
/// Answers 0 where both are planned, 1 where one is refused, 2 where the options are wrong or the
/// name is not UTF-8, 5 where there is no memory.
/// At 2 and 5 the record is as it was.
#[unsafe(no_mangle)]
pub extern "C" fn bobbinazure_link<'d>(
    alloc: Global,
    exporter: &'d [u8],
    importer: &'d [u8],
    as_module: &'d [u8],
    options: &PlanOptions,
    out: &mut LinkRecord<'d>,
) -> u32
    ensures statuses { IsStatus result }
    // Both spell modules that keep the listed rules, and the record reports what each import of the
    // second is given.
    ensures planned { result ≡ 0 → LinksPlans options.now exporter.now importer.now as_module.now out.new }
    // The refusal that is reported has its cause, and is of the first module that is refused.
    ensures refused { result ≡ 1 → RefusesOne options.now exporter.now importer.now out.new }
    // Wrong options, or a name that is not UTF-8, are reported, exactly; where nothing is answered,
    // nothing is changed.
    ensures usage { (result ≡ 2) ↔ ¬ (AreRight options.now × IsUtf8 as_module.now) }
    ensures same { (result ≡ 2) ⊎ (result ≡ 5) → out.new ≡ out.old }
    // Valid input is not refused.
    ensures complete { IsValid (options_for options.now) exporter.now → IsValid (options_for options.now) importer.now → result ≢ 1 }
{
    let Some(command) = command_of(options) else {
        return u32::from(USAGE);
    };
    let Ok(as_module) = std::str::from_utf8(as_module) else {
        return u32::from(USAGE);
    };
    match plan_of(alloc, &command, exporter) {
        Ok(first) => match plan_of(alloc, &command, importer) {
            Ok(second) => tell_links(alloc, &first, as_module, &second, out),
            Err(refusal) => tell_refusal_of(2, &refusal, out),
        },
        Err(refusal) => tell_refusal_of(1, &refusal, out),
    }
}

/// Puts a refusal into a record, and which module it is of. Answers 1, or 5 where memory ended and
/// the record is as it was.
fn tell_refusal_of(which: u32, refusal: &TranslateError, out: &mut LinkRecord<'_>) -> u32
    ensures statuses { (result ≡ 1) ⊎ (result ≡ 5) }
    ensures told { result ≡ 1 → TellsRefusalOf which refusal.now out.new }
    ensures same { result ≡ 5 → out.new ≡ out.old }
    ensures memory { refusal.now ≡ TranslateError.OutOfMemory → result ≡ 5 }
{
    match refusal {
        TranslateError::OutOfMemory => u32::from(NO_MEMORY),
        refusal => {
            let (kind, detail) = refusal_numbers(refusal);
            out.refused = which;
            out.refusal = kind;
            out.refusal_detail = detail;
            out.refusal_line = refusal_line(refusal).as_bytes();
            u32::from(REFUSED)
        }
    }
}

/// Links two plans, and puts the answers into a record. Answers 0, or 5 where memory ended and the
/// record is as it was.
fn tell_links(
    alloc: Global,
    first: &Plan<'_>,
    as_module: &str,
    second: &Plan<'_>,
    out: &mut LinkRecord<'_>,
) -> u32
    requires first { IsSomePlan first.now }
    requires second { IsSomePlan second.now }
    ensures statuses { (result ≡ 0) ⊎ (result ≡ 5) }
    ensures told { result ≡ 0 → TellsLinks first.now as_module.now second.now out.new }
    ensures same { result ≡ 5 → out.new ≡ out.old }
{
    let Ok(answers) = link_plans(alloc, first, as_module, second) else {
        return u32::from(NO_MEMORY);
    };
    let Ok(rows) = answer_rows(alloc, &answers) else {
        return u32::from(NO_MEMORY);
    };
    *out = LinkRecord {
        refused: 0,
        refusal: 0,
        refusal_detail: 0,
        refusal_line: "".as_bytes(),
        answers: rows.leak(),
    };
    u32::from(SUCCESS)
}

fn answer_rows(
    alloc: Global,
    answers: &[ImportAnswer],
) -> Result<Vec<ImportAnswerRecord>, OutOfMemory>
    requires { All (IsBelow (2 ^ 30)) answers.now }
    ensures { IfOk result (λ rows. map answer_told rows.items ≡ map answer_row answers.now) }
{
    let mut rows = Vec::with_capacity(alloc, answers.len())?;
    for answer in answers {
        rows.push(answer_record(*answer))?;
    }
    Ok(rows)
}

fn answer_record(answer: ImportAnswer) -> ImportAnswerRecord
    requires { IsBelow (2 ^ 30) answer }
    ensures { answer_told result ≡ answer_row answer }
{
    match answer {
        ImportAnswer::Given(number) => ImportAnswerRecord {
            answer: 0,
            detail: number as u32,
            line: "".as_bytes(),
        },
        ImportAnswer::Missing => ImportAnswerRecord {
            answer: 1,
            detail: 0,
            line: "".as_bytes(),
        },
        ImportAnswer::Mismatch(rule) => ImportAnswerRecord {
            answer: 2,
            detail: mismatch_number(rule),
            line: mismatch_line(rule).as_bytes(),
        },
    }
}

pub(crate) fn mismatch_number(rule: Mismatch) -> u32
    ensures { result ≡ mismatch_number rule }
{
    match rule {
        Mismatch::Kind => 1,
        Mismatch::FuncType => 2,
        Mismatch::TableElement => 3,
        Mismatch::TableIndexType => 4,
        Mismatch::TableMin => 5,
        Mismatch::TableMax => 6,
        Mismatch::MemoryIndexType => 7,
        Mismatch::MemoryShared => 8,
        Mismatch::MemoryPage => 9,
        Mismatch::MemoryMin => 10,
        Mismatch::MemoryMax => 11,
        Mismatch::GlobalMutability => 12,
        Mismatch::GlobalType => 13,
        Mismatch::TagType => 14,
    }
}
