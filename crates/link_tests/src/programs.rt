//! Programs of three modules.

ghost use Rattle.plan_link.specs.Linked.{IsSomePlan};
ghost use Rattle.plan_link.specs.Program.{IsPlannedModule};

use crate::modules::plan_of;
use plan_link::{ImportAnswer, LinkedModule, ProgramError, ProgramModule, link_program};
use std::alloc::Global;
use std::test::Fail;
use translate::Plan;

/// It has the type `(func (param i32) (result i32))`, and exports a function `f` of it.
const BASE: [u8; 35] = [
    0x00, 0x61, 0x73, 0x6D, 0x01, 0x00, 0x00, 0x00, // the header
    0x01, 0x06, 0x01, 0x60, 0x01, 0x7F, 0x01, 0x7F, // types
    0x03, 0x02, 0x01, 0x00, // functions
    0x07, 0x05, 0x01, 0x01, 0x66, 0x00, 0x00, // exports
    0x0A, 0x06, 0x01, 0x04, 0x00, 0x20, 0x00, 0x0B, // code
];

/// It has the types `(func)` and that of `BASE`, imports the function `f` of `a`, and exports it as
/// `g`.
const MIDDLE: [u8; 35] = [
    0x00, 0x61, 0x73, 0x6D, 0x01, 0x00, 0x00, 0x00, // the header
    0x01, 0x09, 0x02, 0x60, 0x00, 0x00, 0x60, 0x01, 0x7F, 0x01, 0x7F, // types
    0x02, 0x07, 0x01, 0x01, 0x61, 0x01, 0x66, 0x00, 0x01, // imports
    0x07, 0x05, 0x01, 0x01, 0x67, 0x00, 0x00, // exports
];

/// It has the type of `BASE`, and imports functions of it: `g` of `b`, `f` of `a`, and `g` of `c`.
const TOP: [u8; 37] = [
    0x00, 0x61, 0x73, 0x6D, 0x01, 0x00, 0x00, 0x00, // the header
    0x01, 0x06, 0x01, 0x60, 0x01, 0x7F, 0x01, 0x7F, // types
    0x02, 0x13, 0x03, // three imports
    0x01, 0x62, 0x01, 0x67, 0x00, 0x00, // of `b`
    0x01, 0x61, 0x01, 0x66, 0x00, 0x00, // of `a`
    0x01, 0x63, 0x01, 0x67, 0x00, 0x00, // of `c`
];

type Linked = Result<Vec<LinkedModule>, ProgramError>;

fn module_of<'a, 'd>(name: &'a str, plan: &'a Plan<'d>) -> ProgramModule<'a, 'd>
    requires { IsSomePlan plan.now }
    ensures { IsPlannedModule result }
{
    ProgramModule { name, plan }
}

/// Links the plans of three modules under their names.
fn linked<'x>(
    alloc: Global,
    first: (&'x str, &'x [u8]),
    second: (&'x str, &'x [u8]),
    third: (&'x str, &'x [u8]),
) -> Result<Linked, Fail> {
    let base = plan_of(alloc, first.1)?;
    let middle = plan_of(alloc, second.1)?;
    let top = plan_of(alloc, third.1)?;
    let linked = link_program(
        alloc,
        &[
            module_of(first.0, &base),
            module_of(second.0, &middle),
            module_of(third.0, &top),
        ],
    );
    Ok(linked)
}

#[test]
fn imports_are_given_by_the_modules_before(rt: HostRuntime) -> Result<(), Fail> {
    let linked = linked(rt.alloc(), ("a", &BASE), ("b", &MIDDLE), ("c", &TOP))??;
    assert!(rt; linked.len() == 3);
    let wanted = [
        (0, [].as_slice()),
        (1, [ImportAnswer::Given(0)].as_slice()),
        (
            2,
            [
                ImportAnswer::Given(1),
                ImportAnswer::Given(0),
                ImportAnswer::Missing,
            ]
            .as_slice(),
        ),
    ];
    for (module, (first_export, answers)) in linked.iter().zip(wanted) {
        assert!(rt; module.first_export == first_export);
        assert!(rt; module.answers.as_slice() == answers);
    }
    Ok(())
}

#[test]
fn later_modules_give_nothing(rt: HostRuntime) -> Result<(), Fail> {
    let linked = linked(rt.alloc(), ("c", &TOP), ("b", &MIDDLE), ("a", &BASE))??;
    for (module, count) in linked.iter().zip([3, 1, 0]) {
        assert!(rt; module.answers.len() == count);
        for answer in &module.answers {
            assert!(rt; *answer == ImportAnswer::Missing);
        }
    }
    Ok(())
}

#[test]
fn equal_types_of_three_modules_have_one_index(rt: HostRuntime) -> Result<(), Fail> {
    let linked = linked(rt.alloc(), ("a", &BASE), ("b", &MIDDLE), ("c", &TOP))??;
    assert!(rt; linked.len() == 3);
    let (base, middle, top) = (&linked[0], &linked[1], &linked[2]);
    assert!(rt; base.types.len() == 1);
    assert!(rt; middle.types.len() == 2);
    assert!(rt; top.types.as_slice() == base.types.as_slice());
    assert!(rt; middle.types.get(1) == base.types.first());
    assert!(rt; middle.types.first() != base.types.first());
    Ok(())
}

#[test]
fn two_exports_of_one_name_are_refused(rt: HostRuntime) -> Result<(), Fail> {
    let alloc = rt.alloc();
    let twice = linked(alloc, ("a", &BASE), ("b", &MIDDLE), ("a", &BASE))?;
    assert!(rt; twice.err() == Some(ProgramError::Duplicate(2)));
    let next = linked(alloc, ("a", &BASE), ("a", &BASE), ("a", &BASE))?;
    assert!(rt; next.err() == Some(ProgramError::Duplicate(1)));
    // Modules of one name may export entities of different names.
    let apart = linked(alloc, ("a", &BASE), ("a", &MIDDLE), ("c", &TOP))?;
    assert!(rt; apart.is_ok());
    Ok(())
}
