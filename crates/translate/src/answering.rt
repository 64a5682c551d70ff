//! The answer of a run over bytes.

ghost use Rattle.std.specs.Prelude.{◌≡◌, ◌≢◌, ◌<◌, ◌≤◌, ◌^◌, ◌⊎◌, List, ℕ, Option, None, Err, length, IsNone, IfOk, IfErr};
ghost use Rattle.devices.specs.Counter.{Rose};
ghost use Rattle.devices.specs.Device.{AppendsFront, AppendsPart};
ghost use Rattle.plan_text.specs.PlanText.{IsPrintable};
ghost use Rattle.command_words.specs.Commands.{IsUsable};
ghost use Rattle.translate.specs.Options.{options_of};
ghost use Rattle.translate.specs.Valid.{IsValid};
ghost use Rattle.translate.specs.Planned.{IsPlanned, HasCause, SucceedsOrNoMemory};
ghost use Rattle.translate.specs.Runs.{IsSuccess, IsRefusal, IsCutShort, HasEnoughInput, IsAnswer, text_for};

use crate::running::{Report, empty_report};
use crate::status::{NO_MEMORY, REFUSED, SUCCESS, WRITE_FAILED};
use crate::translating::plan_of;
use command_words::Command;
use devices::{Sink, write_all};
use entity_map::OutOfMemory;
use plan_text::{Plan, TranslateError, plan_text, refusal_line, summary_text};
use std::alloc::Global;

/// The plan of the bytes, or their refusal, with its text written. The bytes are the complete input
/// of the command, or 2^30 bytes of it.
pub(crate) fn answer<'d, K: Sink>(
    alloc: Global,
    command: &Command,
    bytes: &'d [u8],
    sink: &mut K,
) -> Report<'d>
    requires { IsUsable command.now }
    ensures bytes { result.bytes.now ≡ bytes.now }
    ensures statuses { IsAnswer result.status }
    ensures success { result.status ≡ 0 → (left : Option (List ℕ)) → HasEnoughInput command.now.generate bytes.now left →
        IsSuccess bytes.now left result.plan result.refusal (K.held sink.old) (K.held sink.new) command.now }
    ensures refused { result.status ≡ 1 → (left : Option (List ℕ)) → HasEnoughInput command.now.generate bytes.now left →
        IsRefusal bytes.now left result.plan result.refusal (K.held sink.old) (K.held sink.new) command.now }
    ensures cut_short { result.status ≡ 4 → (left : Option (List ℕ)) → HasEnoughInput command.now.generate bytes.now left →
        IsCutShort bytes.now left result.plan result.refusal (K.held sink.old) (K.held sink.new) command.now }
    ensures write_failed { result.status ≡ 4 → Rose (K.faults sink.old) (K.faults sink.new) }
    ensures no_write_failed { result.status ≢ 4 → K.faults sink.new ≡ K.faults sink.old }
    ensures nothing { result.status ≡ 5 → IsNone result.plan × IsNone result.refusal × (sink.new ≡ sink.old) }
    ensures counted { K.faults sink.old ≤ K.faults sink.new }
    ensures too_long { 2 ^ 30 ≤ length bytes.now → (result.status ≡ 1) ⊎ (result.status ≡ 4) }
    // Valid bytes are not refused, at any status.
    ensures never_refused { IsValid (options_of command.now) bytes.now → IsNone result.refusal }
    ensures complete { IsValid (options_of command.now) bytes.now → result.status ≢ 1 }
{
    match planned_text(alloc, command, bytes) {
        Ok((plan, text)) => Report {
            status: write_answer(sink, &text, SUCCESS),
            bytes,
            plan: Some(plan),
            refusal: None,
        },
        Err(TranslateError::OutOfMemory) => empty_report(NO_MEMORY, bytes),
        Err(refusal) => Report {
            status: write_answer(sink, refusal_line(&refusal).as_bytes(), REFUSED),
            bytes,
            plan: None,
            refusal: Some(refusal),
        },
    }
}

/// The plan of the bytes and its complete text.
fn planned_text<'d>(
    alloc: Global,
    command: &Command,
    bytes: &'d [u8],
) -> Result<(Plan<'d>, Vec<u8>), TranslateError>
    requires { IsUsable command.now }
    ensures planned { IfOk result (λ answer. IsPlanned (options_of command.now) bytes.now answer.0) }
    ensures text { IfOk result (λ answer. answer.1.items ≡ text_for command.now.generate bytes.now answer.0) }
    ensures cause { IfErr result (HasCause (options_of command.now) bytes.now) }
    ensures too_long { 2 ^ 30 ≤ length bytes.now → result ≡ Err TranslateError.TooLarge }
    ensures complete { IsValid (options_of command.now) bytes.now → SucceedsOrNoMemory result }
{
    let plan = plan_of(alloc, command, bytes)?;
    match text_of(alloc, command, bytes.len() as u64, &plan) {
        Ok(text) => Ok((plan, text)),
        Err(_) => Err(TranslateError::OutOfMemory),
    }
}

/// The text of a plan, or the summary of a module that was made, of so many bytes.
fn text_of(
    alloc: Global,
    command: &Command,
    byte_count: u64,
    plan: &Plan<'_>,
) -> Result<Vec<u8>, OutOfMemory>
    requires { IsPrintable plan.now.translation }
    ensures { IfOk result (λ text. (bytes : List ℕ) → length bytes ≡ byte_count → text.items ≡ text_for command.now.generate bytes plan.now) }
{
    match command.generate {
        None => plan_text(alloc, plan),
        Some(number) => summary_text(alloc, number, byte_count, plan),
    }
}

/// Writes the text. Returns the status of a text that is written completely, or that of a write
/// that failed.
fn write_answer<K: Sink>(sink: &mut K, text: &[u8], status: u8) -> u8
    requires { status < 4 }
    ensures statuses { (result ≡ status) ⊎ (result ≡ 4) }
    ensures whole { result ≡ status → AppendsFront (K.held sink.old) text.now (K.held sink.new) }
    ensures part { result ≡ 4 → AppendsPart (K.held sink.old) text.now (K.held sink.new) }
    ensures failed { result ≡ 4 → Rose (K.faults sink.old) (K.faults sink.new) }
    ensures none_failed { result ≢ 4 → K.faults sink.new ≡ K.faults sink.old }
    ensures counted { K.faults sink.old ≤ K.faults sink.new }
{
    match write_all(sink, text) {
        Ok(()) => status,
        Err(_) => WRITE_FAILED,
    }
}
