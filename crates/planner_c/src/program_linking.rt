//! The call from C that links the modules of a program.

ghost use Rattle.std.specs.Prelude.{◌≡◌, ◌≢◌, ◌⊎◌, ◌↔◌, List, All};
ghost use Rattle.std.specs.List.{AllZip};
ghost use Rattle.plan_text.specs.declared.error.TranslateError.TheVariants as refusal;
ghost use Rattle.plan_link.specs.declared.program.ProgramModule.{ProgramModule as Member};
ghost use Rattle.plan_link.specs.declared.program_error.ProgramError.TheVariants as error;
ghost use Rattle.plan_link.specs.Program.{IsPlannedModule, GivesEarlier};
ghost use Rattle.planner_c.specs.Calls.{AreRight, IsStatus};
ghost use Rattle.planner_c.specs.Members.{BeginAtZero, IsBetween};
ghost use Rattle.planner_c.specs.Programs.{HasName, IsValidModule, IsMemberOf, HasNoFault, TellsFound, TellsProgram, LinksProgram, TellsCause, TellsError, TellsModule, TellsFault, RefusesProgram};

use crate::options::{PlanOptions, command_of};
use crate::program_plans::{RefusedModule, are_named, members_of, plans_of};
use crate::program_tables::program_tables;
use crate::programs::{NamedModule, ProgramRecord};
use crate::refusals::refusal_numbers;
use plan_link::{LinkedModule, ProgramError, ProgramModule, link_program, planned_can_link};
use plan_text::TranslateError;
use std::alloc::Global;
use translate::{NO_MEMORY, REFUSED, SUCCESS, USAGE, refusal_line};

/// Plans the modules of a program and links them in order: `bobbinazure_link_program`.
/// The imports of each module are given by the exports of those before it, each under the name of
/// its module. The types of all modules are registered together.
/// Answers 0 where the record has the program, 1 where it is refused, 2 where the options are wrong
/// or a name is not UTF-8, 5 where there is no memory.
/// At 2 and 5 the record is as it was.
#[unsafe(no_mangle)]
pub extern "C" fn bobbinazure_link_program<'d>(
    alloc: Global,
    modules: &'d [NamedModule<'d>],
    options: &PlanOptions,
    out: &mut ProgramRecord<'d>,
) -> u32
    ensures statuses { IsStatus result }
    // Each module has a plan, and the record reports the index of each type and the answer to each
    // import.
    ensures linked { result ≡ 0 → LinksProgram options.now modules.now out.new }
    // The record reports the first module that has no plan, and why; or, where all have one, the
    // first module with which the program has too many types, or that has both names of an export
    // of an earlier one.
    ensures refused { result ≡ 1 → RefusesProgram options.now modules.now out.new }
    // Wrong options, or a name that is not UTF-8, are reported, exactly; there, and without memory,
    // nothing is changed.
    ensures usage { (result ≡ 2) ↔ ¬ (AreRight options.now × All HasName modules.now) }
    ensures same { (result ≡ 2) ⊎ (result ≡ 5) → out.new ≡ out.old }
    // Valid modules are not refused, where their types are not too many and no export has both names
    // of an earlier one.
    ensures complete { All (IsValidModule options.now) modules.now
        → ((program : List Member) → AllZip (IsMemberOf options.now) modules.now program → HasNoFault program) → result ≢ 1 }
{
    let Some(command) = command_of(options) else {
        return u32::from(USAGE);
    };
    if !are_named(modules) {
        return u32::from(USAGE);
    }
    match plans_of(alloc, &command, modules) {
        Ok(plans) => match members_of(alloc, modules, &plans) {
            Ok(program) => link_members(alloc, &program, out),
            Err(_) => u32::from(NO_MEMORY),
        },
        Err(refused) => tell_module(&refused, out),
    }
}

/// Links the members of a program, and puts what is found, or why the program is refused, into a
/// record. Answers 0 or 1, or 5 where memory ended and the record is as it was.
fn link_members(
    alloc: Global,
    program: &[ProgramModule<'_, '_>],
    out: &mut ProgramRecord<'_>,
) -> u32
    requires { All IsPlannedModule program.now }
    ensures statuses { (result ≡ 0) ⊎ (result ≡ 1) ⊎ (result ≡ 5) }
    ensures told { result ≡ 0 → TellsProgram program.now out.new }
    ensures fault { result ≡ 1 → TellsFault program.now out.new }
    ensures same { result ≡ 5 → out.new ≡ out.old }
    ensures complete { HasNoFault program.now → result ≢ 1 }
{
    planned_can_link();
    match link_program(alloc, program) {
        Ok(linked) => tell_linked(alloc, &linked, out),
        Err(refusal) => tell_fault(refusal, out),
    }
}

/// Puts what the linker finds into a record. Answers 0, or 5 where memory ended and the record is
/// as it was.
fn tell_linked(alloc: Global, linked: &[LinkedModule], out: &mut ProgramRecord<'_>) -> u32
    requires zero { BeginAtZero linked.now }
    requires earlier { All GivesEarlier linked.now }
    ensures statuses { (result ≡ 0) ⊎ (result ≡ 5) }
    ensures told { result ≡ 0 → TellsFound (IsBetween linked.now) linked.now out.new }
    ensures same { result ≡ 5 → out.new ≡ out.old }
{
    let Ok(tables) = program_tables(alloc, linked) else {
        return u32::from(NO_MEMORY);
    };
    *out = ProgramRecord {
        cause: 0,
        refusal: 0,
        refusal_detail: 0,
        refusal_line: "".as_bytes(),
        refused: 0,
        modules: tables.modules.leak(),
        types: tables.types.leak(),
        answers: tables.answers.leak(),
    };
    u32::from(SUCCESS)
}

/// Puts into a record why a program is refused whose modules have plans, and at which module.
/// Answers 1, or 5 where memory ended and the record is as it was.
fn tell_fault(refusal: ProgramError, out: &mut ProgramRecord<'_>) -> u32
    ensures statuses { (result ≡ 1) ⊎ (result ≡ 5) }
    ensures told { result ≡ 1 → TellsError refusal out.new }
    ensures memory { refusal ≡ error.OutOfMemory → result ≡ 5 }
    ensures same { result ≡ 5 → out.new ≡ out.old }
{
    match refusal {
        ProgramError::Duplicate(place) => tell_cause(2, place, out),
        ProgramError::TooManyTypes(place) => tell_cause(3, place, out),
        ProgramError::OutOfMemory => u32::from(NO_MEMORY),
    }
}

/// Puts a cause, from `BOBBINAZURE_CAUSE_MODULE` on, and a module into a record. Answers 1.
fn tell_cause(cause: u32, place: usize, out: &mut ProgramRecord<'_>) -> u32
    ensures status { result ≡ 1 }
    ensures told { TellsCause cause place out.new }
{
    out.cause = cause;
    out.refused = place;
    out.refusal = 0;
    out.refusal_detail = 0;
    out.refusal_line = "".as_bytes();
    u32::from(REFUSED)
}

/// Puts into a record which module has no plan, and why. Answers 1, or 5 where memory ended and the
/// record is as it was.
fn tell_module(refused: &RefusedModule, out: &mut ProgramRecord<'_>) -> u32
    ensures statuses { (result ≡ 1) ⊎ (result ≡ 5) }
    ensures told { result ≡ 1 → TellsModule refused.now.place refused.now.why out.new }
    ensures same { result ≡ 5 → out.new ≡ out.old }
    ensures memory { refused.now.why ≡ refusal.OutOfMemory → result ≡ 5 }
{
    match &refused.why {
        TranslateError::OutOfMemory => u32::from(NO_MEMORY),
        why => {
            let (kind, detail) = refusal_numbers(why);
            out.cause = 1;
            out.refused = refused.place;
            out.refusal = kind;
            out.refusal_detail = detail;
            out.refusal_line = refusal_line(why).as_bytes();
            u32::from(REFUSED)
        }
    }
}
