//! Modules whose types are registered.

ghost use Rattle.std.specs.Prelude.{IfOk};
ghost use Rattle.module_types.specs.Listed.{Listed};
ghost use Rattle.plan_link.specs.Linked.{IsSomePlan};

use crate::translated::translated;
use module_environ::EnvironError;
use module_types::ModuleTypes;
use plan_link::planned_can_link;
use std::alloc::Global;
use translate::{Command, Plan, TranslateError};

/// A function type without parameters and results twice, each in its own group, and one that is not
/// final. The first two are equal, so the list has two types.
pub(crate) const FINAL_OR_NOT: [u8; 22] = [
    0x00, 0x61, 0x73, 0x6D, 0x01, 0x00, 0x00, 0x00, // the header
    0x01, 0x0C, 0x03, 0x60, 0x00, 0x00, 0x60, 0x00, 0x00, 0x50, 0x00, 0x60, 0x00, 0x00, // types
];

/// A function type that refers to itself. The list has it, and the type by which it is called.
pub(crate) const OF_ITSELF: [u8; 16] = [
    0x00, 0x61, 0x73, 0x6D, 0x01, 0x00, 0x00, 0x00, // the header
    0x01, 0x06, 0x01, 0x60, 0x01, 0x64, 0x00, 0x00, // types
];

/// A memory and two data segments. The list has the type of the startup function alone, without
/// parameters and results.
pub(crate) const TWO_SEGMENTS: [u8; 30] = [
    0x00, 0x61, 0x73, 0x6D, 0x01, 0x00, 0x00, 0x00, // the header
    0x05, 0x03, 0x01, 0x00, 0x01, // memories
    0x0B, 0x0F, 0x02, 0x00, 0x41, 0x10, 0x0B, 0x03, 0x01, 0x02, 0x03, 0x00, 0x41, 0x11, 0x0B, 0x01,
    0x09, // data segments
];

/// A group of two functions, each of the other; a function of an i32; and an exception of that
/// type. The list has the group, the type by which both of its functions are called, the third
/// function, and the exception.
pub(crate) const GROUP_AND_EXCEPTION: [u8; 32] = [
    0x00, 0x61, 0x73, 0x6D, 0x01, 0x00, 0x00, 0x00, // the header
    0x01, 0x11, 0x02, 0x4E, 0x02, 0x60, 0x01, 0x64, 0x01, 0x00, 0x60, 0x01, 0x64, 0x00, 0x00, 0x60,
    0x01, 0x7F, 0x00, // types
    0x0D, 0x03, 0x01, 0x00, 0x02, // tags
];

/// The same after a function without parameters and results, so that each type has another index.
pub(crate) const SAME_BEHIND_ANOTHER: [u8; 35] = [
    0x00, 0x61, 0x73, 0x6D, 0x01, 0x00, 0x00, 0x00, // the header
    0x01, 0x14, 0x03, 0x60, 0x00, 0x00, 0x4E, 0x02, 0x60, 0x01, 0x64, 0x02, 0x00, 0x60, 0x01, 0x64,
    0x01, 0x00, 0x60, 0x01, 0x7F, 0x00, // types
    0x0D, 0x03, 0x01, 0x00, 0x03, // tags
];

/// The plan of a module.
pub(crate) fn plan_of<'d>(alloc: Global, bytes: &'d [u8]) -> Result<Plan<'d>, TranslateError>
    ensures some { IfOk result IsSomePlan }
    ensures listed { IfOk result (λ plan. Listed plan.types) }
{
    planned_can_link();
    translate::plan_of(alloc, &Command::PLAIN, bytes)
}

/// The types of a module, as they are translated.
pub(crate) fn types_of(alloc: Global, bytes: &[u8]) -> Result<ModuleTypes, EnvironError>
    ensures { IfOk result Listed }
{
    let (translation, types) = translated(alloc, bytes)?;
    drop(translation);
    Ok(types)
}
