//! The plans of the modules of a program.

ghost use Rattle.std.specs.Prelude.{◌≡◌, ◌↔◌, true, All, IfOk, IfErr, OnOk, length, map};
ghost use Rattle.std.specs.List.{AllZip};
ghost use Rattle.command_words.specs.Commands.{IsUsable};
ghost use Rattle.translate.specs.Options.{options_of};
ghost use Rattle.translate.specs.Planned.{HasCause};
ghost use Rattle.translate.specs.Valid.{IsValid};
ghost use Rattle.planner_c.specs.Members.{HasThisPlan, IsNamedAs, AddsPlan, IsFirstRefused};
ghost use Rattle.planner_c.specs.Programs.{HasName};

use crate::programs::NamedModule;
use entity_map::OutOfMemory;
use plan_link::ProgramModule;
use plan_text::{Plan, TranslateError};
use std::alloc::Global;
use translate::{Command, plan_of};

/// Why the first module that is refused is refused, and which one it is.
#[derive(Drop)]
pub(crate) struct RefusedModule {
    pub(crate) place: usize,
    pub(crate) why: TranslateError,
}

/// Whether each module has a name in UTF-8.
pub(crate) fn are_named(modules: &[NamedModule<'_>]) -> bool
    ensures { (result ≡ true) ↔ All HasName modules.now }
{
    for module in modules {
        if !has_name(module) {
            return false;
        }
    }
    true
}

fn has_name(module: &NamedModule<'_>) -> bool
    ensures { (result ≡ true) ↔ HasName «module».now }
{
    match std::str::from_utf8(module.name) {
        Ok(_) => true,
        Err(_) => false,
    }
}

/// The plan of each module, in order, up to the first that is refused.
pub(crate) fn plans_of<'d>(
    alloc: Global,
    command: &Command,
    modules: &[NamedModule<'d>],
) -> Result<Vec<Plan<'d>>, RefusedModule>
    requires { IsUsable command.now }
    ensures planned { IfOk result (λ plans. AllZip (HasThisPlan (options_of command.now)) modules.now plans.items) }
    ensures refused { IfErr result (λ refused. IsFirstRefused (options_of command.now) modules.now refused.place refused.why) }
{
    let mut plans = Vec::new(alloc);
    for (place, module) in modules.iter().enumerate() {
        if let Err(why) = push_plan(alloc, command, module.bytes, &mut plans) {
            return Err(RefusedModule { place, why });
        }
    }
    Ok(plans)
}

// Appends the plan of the bytes.
fn push_plan<'d>(
    alloc: Global,
    command: &Command,
    bytes: &'d [u8],
    plans: &mut Vec<Plan<'d>>,
) -> Result<(), TranslateError>
    requires { IsUsable command.now }
    ensures planned { OnOk result (AddsPlan (options_of command.now) bytes.now plans.old.items plans.new.items) }
    ensures cause { IfErr result (HasCause (options_of command.now) bytes.now) }
    ensures complete { IfErr result (λ why. IsValid (options_of command.now) bytes.now → why ≡ TranslateError.OutOfMemory) }
{
    let plan = plan_of(alloc, command, bytes)?;
    let Ok(()) = plans.push(plan) else {
        return Err(TranslateError::OutOfMemory);
    };
    Ok(())
}

/// The modules as a program: each plan under the name of its module.
pub(crate) fn members_of<'a, 'd>(
    alloc: Global,
    modules: &[NamedModule<'d>],
    plans: &'a [Plan<'d>],
) -> Result<Vec<ProgramModule<'a, 'd>>, OutOfMemory>
    requires named { All HasName modules.now }
    requires long { length plans.now ≡ length modules.now }
    ensures named { IfOk result (λ members. AllZip IsNamedAs modules.now members.items) }
    ensures plans { IfOk result (λ members. map (λ m. m.plan.now) members.items ≡ plans.now) }
{
    let mut members = Vec::with_capacity(alloc, modules.len())?;
    for (place, module) in modules.iter().enumerate() {
        members.push(member_of(module, &plans[place]))?;
    }
    Ok(members)
}

// A plan under the name of its module, which is UTF-8.
fn member_of<'a, 'd>(module: &NamedModule<'d>, plan: &'a Plan<'d>) -> ProgramModule<'a, 'd>
    requires { HasName «module».now }
    ensures named { IsNamedAs «module».now result }
    ensures plan { result.plan.now ≡ plan.now }
{
    match std::str::from_utf8(module.name) {
        Ok(name) => ProgramModule { name, plan },
        Err(_) => unreachable!(),
    }
}
