//! Entries that break a rule: each public call of `rule_breaks` once, with ample memory.

use form_reader::read_module;
use form_rules::{CheckError, check};
use refusal_place::SectionKind;
use rule_breaks::{
    Break, BrokenRule, ModuleList, RuleFault, fault_of_break, locate_break, locate_broken_rule,
};
use rule_spec::Rule;
use std::test::Fail;

/// A memory of at least one page, and one whose maximum is below the minimum.
const NARROW: [u8; 16] = [
    0x00, 0x61, 0x73, 0x6D, 0x01, 0x00, 0x00, 0x00, 0x05, 0x06, 0x02, 0x00, 0x01, 0x01, 0x02, 0x01,
];

#[test]
fn the_second_memory_breaks_a_rule(rt: HostRuntime) -> Result<(), Fail> {
    let form = read_module(rt.alloc(), &NARROW)?;
    let Err(CheckError::Invalid(rule)) = check(rt.alloc(), &form) else {
        return Err(Fail::from("not refused"));
    };
    let place = Break {
        list: ModuleList::Memories,
        entry: 1,
    };
    assert!(rt; locate_break(rt.alloc(), &form, rule) == Ok(Some(place)));
    Ok(())
}

/// A type whose parameter refers to a type past its group.
const PAST_GROUP: [u8; 16] = [
    0x00, 0x61, 0x73, 0x6D, 0x01, 0x00, 0x00, 0x00, 0x01, 0x06, 0x01, 0x60, 0x01, 0x63, 0x01, 0x00,
];

#[test]
fn the_first_type_breaks_a_rule(rt: HostRuntime) -> Result<(), Fail> {
    let form = read_module(rt.alloc(), &PAST_GROUP)?;
    let Err(CheckError::Invalid(rule)) = check(rt.alloc(), &form) else {
        return Err(Fail::from("not refused"));
    };
    let place = Break {
        list: ModuleList::Types,
        entry: 0,
    };
    assert!(rt; locate_break(rt.alloc(), &form, rule) == Ok(Some(place)));
    Ok(())
}

/// A function import, and an import of a memory whose maximum is below the minimum.
const NARROW_IMPORT: [u8; 27] = [
    0x00, 0x61, 0x73, 0x6D, 0x01, 0x00, 0x00, 0x00, 0x01, 0x04, 0x01, 0x60, 0x00, 0x00, 0x02, 0x0B,
    0x02, 0x00, 0x00, 0x00, 0x00, 0x00, 0x00, 0x02, 0x01, 0x02, 0x01,
];

#[test]
fn the_import_of_a_memory_is_the_second(rt: HostRuntime) -> Result<(), Fail> {
    let broken = BrokenRule {
        rule: Rule::L4,
        place: Break {
            list: ModuleList::Memories,
            entry: 0,
        },
        section: SectionKind::Import,
        section_entry: 1,
        byte: 21,
        fault: RuleFault::MaximumBelowMinimum {
            minimum: 2,
            maximum: 1,
        },
    };
    assert!(rt; locate_broken_rule(rt.alloc(), &NARROW_IMPORT)? == Some(broken));
    Ok(())
}

/// An imported memory, and two that are defined, of which the second has a maximum below its
/// minimum.
const NARROW_DEFINED: [u8; 24] = [
    0x00, 0x61, 0x73, 0x6D, 0x01, 0x00, 0x00, 0x00, 0x02, 0x06, 0x01, 0x00, 0x00, 0x02, 0x00, 0x01,
    0x05, 0x06, 0x02, 0x00, 0x01, 0x01, 0x02, 0x01,
];

#[test]
fn the_third_memory_is_the_second_that_is_defined(rt: HostRuntime) -> Result<(), Fail> {
    let broken = BrokenRule {
        rule: Rule::L4,
        place: Break {
            list: ModuleList::Memories,
            entry: 2,
        },
        section: SectionKind::Memory,
        section_entry: 1,
        byte: 21,
        fault: RuleFault::MaximumBelowMinimum {
            minimum: 2,
            maximum: 1,
        },
    };
    assert!(rt; locate_broken_rule(rt.alloc(), &NARROW_DEFINED)? == Some(broken));
    Ok(())
}

/// A start function that takes a parameter.
const STARTS_WITH_PARAMETER: [u8; 28] = [
    0x00, 0x61, 0x73, 0x6D, 0x01, 0x00, 0x00, 0x00, 0x01, 0x05, 0x01, 0x60, 0x01, 0x7F, 0x00, 0x03,
    0x02, 0x01, 0x00, 0x08, 0x01, 0x00, 0x0A, 0x04, 0x01, 0x02, 0x00, 0x0B,
];

#[test]
fn a_start_function_is_behind_the_size(rt: HostRuntime) -> Result<(), Fail> {
    let broken = BrokenRule {
        rule: Rule::L8,
        place: Break {
            list: ModuleList::Starts,
            entry: 0,
        },
        section: SectionKind::Start,
        section_entry: 0,
        byte: 21,
        fault: RuleFault::StartType { function: 0 },
    };
    assert!(rt; locate_broken_rule(rt.alloc(), &STARTS_WITH_PARAMETER)? == Some(broken));
    Ok(())
}

/// A group of two types, and a group of one, which refers to a type past it.
const PAST_SECOND_GROUP: [u8; 24] = [
    0x00, 0x61, 0x73, 0x6D, 0x01, 0x00, 0x00, 0x00, 0x01, 0x0E, 0x02, 0x4E, 0x02, 0x60, 0x00, 0x00,
    0x60, 0x00, 0x00, 0x60, 0x01, 0x63, 0x05, 0x00,
];

#[test]
fn the_third_type_is_in_the_second_group(rt: HostRuntime) -> Result<(), Fail> {
    let broken = BrokenRule {
        rule: Rule::L1,
        place: Break {
            list: ModuleList::Types,
            entry: 2,
        },
        section: SectionKind::Type,
        section_entry: 1,
        byte: 19,
        fault: RuleFault::NoEarlierType { index: 5, bound: 3 },
    };
    assert!(rt; locate_broken_rule(rt.alloc(), &PAST_SECOND_GROUP)? == Some(broken));
    let text = format!(in rt.alloc(); "{broken}")?;
    assert!(rt;
        text.as_str()
            == "type section, entry 1: type index 5, but only those below 3 may be named here"
    );
    Ok(())
}

/// What is wrong with the first entry that breaks the rule.
fn fault_of(rt: &HostRuntime, bytes: &[u8]) -> Result<RuleFault, Fail> {
    let form = read_module(rt.alloc(), bytes)?;
    let Err(CheckError::Invalid(rule)) = check(rt.alloc(), &form) else {
        return Err(Fail::from("not refused"));
    };
    let Some(place) = locate_break(rt.alloc(), &form, rule)? else {
        return Err(Fail::from("no place"));
    };
    Ok(fault_of_break(rt.alloc(), &form, rule, place)?)
}

#[test]
fn the_maximum_is_below_the_minimum(rt: HostRuntime) -> Result<(), Fail> {
    let fault = fault_of(&rt, &NARROW)?;
    let expected = RuleFault::MaximumBelowMinimum {
        minimum: 2,
        maximum: 1,
    };
    assert!(rt; fault == expected);
    let text = format!(in rt.alloc(); "{fault}")?;
    assert!(rt; text.as_str() == "the maximum 1 is below the minimum 2");
    Ok(())
}

#[test]
fn a_type_names_one_past_its_group(rt: HostRuntime) -> Result<(), Fail> {
    let fault = fault_of(&rt, &PAST_GROUP)?;
    let text = format!(in rt.alloc(); "{fault}")?;
    assert!(rt; text.as_str() == "type index 1, but only those below 1 may be named here");
    Ok(())
}
