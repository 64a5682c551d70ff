//! The calls from C.

ghost use Rattle.std.specs.Prelude.{◌≡◌, ◌≢◌, ◌⊎◌, ◌↔◌, IfOk, IfErr};
ghost use Rattle.command_words.specs.Commands.{IsUsable};
ghost use Rattle.translate.specs.Options.{options_of};
ghost use Rattle.translate.specs.Planned.{IsPlanned, HasCause, SucceedsOrNoMemory};
ghost use Rattle.translate.specs.Valid.{IsValid};
ghost use Rattle.plan_text.specs.PlanText.{IsPrintable, text_of_plan};
ghost use Rattle.plan_text.specs.Refusals.{text_of_refusal};
ghost use Rattle.plan_tables.specs.Plan.{Tells};
ghost use Rattle.planner_c.specs.Calls.{HasPlan, HasRefusal, GivesText, AreRight, IsStatus, options_for};
ghost use Rattle.planner_c.specs.Refusals.{TellsRefusal};

use crate::options::{PlanOptions, command_of};
use crate::refusals::tell_refusal;
use crate::text::TextRecord;
use plan_tables::{PlanRecord, fill_record};
use plan_text::{Plan, TranslateError};
use std::alloc::Global;
use translate::{Command, NO_MEMORY, REFUSED, SUCCESS, USAGE, plan_of, plan_text, refusal_line};

/// Plans the module that the bytes spell, and puts the plan into the record:
/// `bobbinazure_make_plan`.
/// Answers 0 of a plan, 1 of a refusal, 2 where the options are wrong, 5 where there is no memory.
/// At 2 the record is as it was; at 5 it has the tables that were made.
#[unsafe(no_mangle)]
pub extern "C" fn bobbinazure_make_plan<'d>(
    alloc: Global,
    bytes: &'d [u8],
    options: &PlanOptions,
    out: &mut PlanRecord<'d>,
) -> u32
    ensures statuses { IsStatus result }
    // The bytes spell a module that keeps the listed rules, and the record represents its plan.
    ensures planned { result ≡ 0 → HasPlan options.now bytes.now (λ plan. Tells plan out.new) }
    // Each refusal has its cause, and the record reports it.
    ensures refused { result ≡ 1 → HasRefusal options.now bytes.now (λ refusal. TellsRefusal refusal out.new) }
    // Wrong options are reported, exactly, and change nothing.
    ensures usage { (result ≡ 2) ↔ ¬ AreRight options.now }
    ensures same { result ≡ 2 → out.new ≡ out.old }
    // Valid input is not refused.
    ensures complete { IsValid (options_for options.now) bytes.now → result ≢ 1 }
{
    let Some(command) = command_of(options) else {
        return u32::from(USAGE);
    };
    match plan_of(alloc, &command, bytes) {
        Ok(mut plan) => match fill_record(alloc, &mut plan, out) {
            Ok(()) => u32::from(SUCCESS),
            Err(_) => u32::from(NO_MEMORY),
        },
        Err(TranslateError::OutOfMemory) => u32::from(NO_MEMORY),
        Err(refusal) => {
            tell_refusal(&refusal, out);
            u32::from(REFUSED)
        }
    }
}

/// Plans the module that the bytes spell, and gives the text of the plan, or the line of the
/// refusal: `bobbinazure_make_text`.
/// Answers as `bobbinazure_make_plan`; the record is as it was at 2 and 5.
#[unsafe(no_mangle)]
pub extern "C" fn bobbinazure_make_text<'d>(
    alloc: Global,
    bytes: &'d [u8],
    options: &PlanOptions,
    out: &mut TextRecord<'d>,
) -> u32
    ensures statuses { IsStatus result }
    ensures planned { result ≡ 0 → HasPlan options.now bytes.now (λ plan. GivesText 1 (text_of_plan plan) out.new) }
    ensures refused { result ≡ 1 → HasRefusal options.now bytes.now (λ refusal. GivesText 0 (text_of_refusal refusal) out.new) }
    ensures usage { (result ≡ 2) ↔ ¬ AreRight options.now }
    ensures same { (result ≡ 2) ⊎ (result ≡ 5) → out.new ≡ out.old }
    ensures complete { IsValid (options_for options.now) bytes.now → result ≢ 1 }
{
    let Some(command) = command_of(options) else {
        return u32::from(USAGE);
    };
    match texted(alloc, &command, bytes) {
        Ok((_plan, text)) => {
            out.text = text.leak();
            out.made = 1;
            u32::from(SUCCESS)
        }
        Err(TranslateError::OutOfMemory) => u32::from(NO_MEMORY),
        Err(refusal) => {
            out.text = refusal_line(&refusal).as_bytes();
            out.made = 0;
            u32::from(REFUSED)
        }
    }
}

/// Plans the module once, and gives both the record of its plan and the text:
/// `bobbinazure_make_plan_and_text`.
/// Answers as the other two.
#[unsafe(no_mangle)]
pub extern "C" fn bobbinazure_make_plan_and_text<'d>(
    alloc: Global,
    bytes: &'d [u8],
    options: &PlanOptions,
    out: &mut PlanRecord<'d>,
    text_out: &mut TextRecord<'d>,
) -> u32
    ensures statuses { IsStatus result }
    ensures planned { result ≡ 0 → HasPlan options.now bytes.now (λ plan. Tells plan out.new × GivesText 1 (text_of_plan plan) text_out.new) }
    ensures refused { result ≡ 1 → HasRefusal options.now bytes.now (λ refusal. TellsRefusal refusal out.new × GivesText 0 (text_of_refusal refusal) text_out.new) }
    ensures usage { (result ≡ 2) ↔ ¬ AreRight options.now }
    ensures same { result ≡ 2 → (out.new ≡ out.old) × (text_out.new ≡ text_out.old) }
    ensures kept { result ≡ 5 → text_out.new ≡ text_out.old }
    ensures complete { IsValid (options_for options.now) bytes.now → result ≢ 1 }
{
    let Some(command) = command_of(options) else {
        return u32::from(USAGE);
    };
    match texted(alloc, &command, bytes) {
        Ok((mut plan, text)) => match fill_record(alloc, &mut plan, out) {
            Ok(()) => {
                text_out.text = text.leak();
                text_out.made = 1;
                u32::from(SUCCESS)
            }
            Err(_) => u32::from(NO_MEMORY),
        },
        Err(TranslateError::OutOfMemory) => u32::from(NO_MEMORY),
        Err(refusal) => {
            tell_refusal(&refusal, out);
            text_out.text = refusal_line(&refusal).as_bytes();
            text_out.made = 0;
            u32::from(REFUSED)
        }
    }
}

/// The plan of the bytes and its complete text.
fn texted<'d>(
    alloc: Global,
    command: &Command,
    bytes: &'d [u8],
) -> Result<(Plan<'d>, Vec<u8>), TranslateError>
    requires { IsUsable command.now }
    ensures planned { IfOk result (λ answer. IsPlanned (options_of command.now) bytes.now answer.0) }
    ensures printable { IfOk result (λ answer. IsPrintable answer.0.translation) }
    ensures text { IfOk result (λ answer. answer.1.items ≡ text_of_plan answer.0) }
    ensures cause { IfErr result (HasCause (options_of command.now) bytes.now) }
    ensures complete { IsValid (options_of command.now) bytes.now → SucceedsOrNoMemory result }
{
    let plan = plan_of(alloc, command, bytes)?;
    match plan_text(alloc, &plan) {
        Ok(text) => Ok((plan, text)),
        Err(_) => Err(TranslateError::OutOfMemory),
    }
}
