//! Two plans that are linked, import by import, and the lines of the rules.

ghost use Rattle.plan_link.specs.Linked.{IsSomePlan};

use crate::modules::plan_of;
use crate::two_modules::{FIRST, MEMORY_MIN, SECOND, TAG_NAME};
use import_match::Mismatch;
use plan_link::{ImportAnswer, link_plans, mismatch_line};
use std::alloc::Global;
use std::test::Fail;
use translate::Plan;

fn link_to(alloc: Global, exporter: &Plan<'_>, importer: &[u8]) -> Result<Vec<ImportAnswer>, Fail>
    requires { IsSomePlan exporter.now }
{
    let importer = plan_of(alloc, importer)?;
    let answers = link_plans(alloc, exporter, "m", &importer);
    // A large value is dropped by one call.
    drop(importer);
    Ok(answers?)
}

/// Links the plans of two modules, the first under the name `m`.
fn linked_plans(
    alloc: Global,
    exporter: &[u8],
    importer: &[u8],
) -> Result<Vec<ImportAnswer>, Fail> {
    let exporter = plan_of(alloc, exporter)?;
    let answers = link_to(alloc, &exporter, importer);
    drop(exporter);
    answers
}

#[test]
fn each_import_of_a_plan_is_answered_by_itself(rt: HostRuntime) -> Result<(), Fail> {
    let mut second = SECOND;
    second[TAG_NAME] = 0x7A;
    second[MEMORY_MIN] = 2;
    let answers = linked_plans(rt.alloc(), &FIRST, &second)?;
    let wanted = [
        ImportAnswer::Missing,
        ImportAnswer::Given(3),
        ImportAnswer::Mismatch(Mismatch::MemoryMin),
        ImportAnswer::Given(1),
        ImportAnswer::Given(0),
    ];
    assert!(rt; answers.as_slice() == wanted.as_slice());
    Ok(())
}

#[test]
fn lines_are_what_errors_display(rt: HostRuntime) -> Result<(), Fail> {
    for rule in [
        Mismatch::Kind,
        Mismatch::FuncType,
        Mismatch::TableElement,
        Mismatch::TableIndexType,
        Mismatch::TableMin,
        Mismatch::TableMax,
        Mismatch::MemoryIndexType,
        Mismatch::MemoryShared,
        Mismatch::MemoryPage,
        Mismatch::MemoryMin,
        Mismatch::MemoryMax,
        Mismatch::GlobalMutability,
        Mismatch::GlobalType,
        Mismatch::TagType,
    ] {
        let displayed = format!(in rt.alloc(); "{rule}")?;
        assert!(rt; displayed.as_str() == mismatch_line(rule));
    }
    Ok(())
}
