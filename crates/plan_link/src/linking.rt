//! Two plans are linked.

ghost use Rattle.std.specs.Prelude.{◌^◌, All, IfOk};
ghost use Rattle.plan_link.specs.Answers.{IsBelow};
ghost use Rattle.plan_link.specs.Linked.{IsSomePlan, IsLinked};

use crate::answer::ImportAnswer;
use crate::answering::{answers_of, exports_of};
use crate::laws::planned_can_link;
use crate::registering::register;
use entity_map::OutOfMemory;
use plan_text::Plan;
use std::alloc::Global;
use type_registry::{TypeRegistry, same_law};

/// As many types as a registry may hold, and more than two modules have.
const MOST_TYPES: u32 = u32::MAX - 1;

/// What each import of the second module is given by the exports of the first, which are defined
/// under the name `as_module`: an answer an import, in order, each by itself.
///
/// # Errors
/// Only `OutOfMemory`: a registry has capacity for the types of any two plans, and no two exports
/// have one name.
pub fn link_plans(
    alloc: Global,
    exporter: &Plan<'_>,
    as_module: &str,
    importer: &Plan<'_>,
) -> Result<Vec<ImportAnswer>, OutOfMemory>
    requires exporter { IsSomePlan exporter.now }
    requires importer { IsSomePlan importer.now }
    ensures linked { IfOk result (λ answers. IsLinked exporter.now as_module.now importer.now answers.items) }
    ensures few { IfOk result (λ answers. All (IsBelow (2 ^ 30)) answers.items) }
{
    planned_can_link();
    same_law();
    let mut registry = TypeRegistry::new(alloc, MOST_TYPES);
    let first = register(&mut registry, &exporter.types)?;
    let second = register(&mut registry, &importer.types)?;
    let linker = exports_of(
        alloc,
        &registry,
        first,
        as_module,
        &exporter.translation.module,
    )?;
    answers_of(
        alloc,
        &linker,
        &registry,
        second,
        &importer.translation.module,
    )
}
