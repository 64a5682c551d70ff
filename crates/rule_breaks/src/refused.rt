//! The first break of a rule, from the bytes of a module.

ghost use Rattle.std.specs.Prelude.{◌≡◌, ◌<◌, ◌^◌, Some, length, IfOk, IfSome};
ghost use Rattle.wasm_spec.specs.Grammar.{Spells};
ghost use Rattle.wasm_spec.specs.Interfaces.{HasNoInterfaceTypes};
ghost use Rattle.rule_spec.specs.Lists.{lists_of_module};
ghost use Rattle.rule_spec.specs.Rules.{KeepsBefore};
ghost use Rattle.form_reader.specs.Views.{module_of};
ghost use Rattle.rule_breaks.specs.Breaks.{IsFirstBreak};
ghost use Rattle.rule_breaks.specs.FaultTexts.{broken_text};
ghost use Rattle.rule_breaks.specs.BrokenAt.{IsBrokenAt};
ghost use Rattle.rule_breaks.specs.Listed.{IsListed};
ghost use Rattle.rule_breaks.specs.Refused.{BreaksFirst, KeepsIfRead};

use crate::fault::RuleFault;
use crate::faults::fault_of_break;
use crate::forms::locate_break;
use crate::list_places::entry_place_in;
use crate::lists::Break;
use entity_map::OutOfMemory;
use form_reader::{Form, ReadError, read_module};
use form_rules::{CheckError, check};
use refusal_place::SectionKind;
use rule_spec::Rule;
use std::alloc::Global;
use std::fmt;

/// A rule that a module breaks, and the entry that is the first to break it.
#[derive(Clone, Copy, Debug, PartialEq, Eq)]
pub struct BrokenRule {
    pub rule: Rule,
    pub place: Break,
    /// The kind of the section that has the entry: the import section where the entry is imported.
    pub section: SectionKind,
    /// The entry of that section, from 0 on: of a type the recursion group that has it. It is 0 in
    /// start and data count sections, which have one number.
    pub section_entry: u32,
    /// The offset in the input at which that entry begins.
    pub byte: u32,
    /// What is wrong with the entry.
    pub fault: RuleFault,
}

/// As in `memory section, entry 1: the maximum 1 is below the minimum 2`.
impl fmt::Display for BrokenRule {
    ghost output = { λ b. Some (broken_text b) };

    fn fmt<W: fmt::Write>(&self, f: &mut fmt::Formatter<W>) -> fmt::Result {
        match self.section {
            SectionKind::Start | SectionKind::DataCount => {
                write!(f, "{}: {}", self.section, self.fault)
            }
            section => write!(f, "{section}, entry {}: {}", self.section_entry, self.fault),
        }
    }
}

/// The first rule that the module breaks, and the first entry that breaks it, in the first of the
/// lists of the rule that has one, with where it begins and what is wrong; none where the bytes are
/// not read as a module, and where the module satisfies all rules.
///
/// # Errors
/// `OutOfMemory` where the module, the check or an entry finds no memory.
pub fn locate_broken_rule(alloc: Global, bytes: &[u8]) -> Result<Option<BrokenRule>, OutOfMemory>
    ensures none { IfOk result (λ b. b ≡ None → KeepsIfRead bytes.now) }
    ensures first { IfOk result (λ b. IfSome b (BreaksFirst bytes.now)) }
{
    let form = match read_module(alloc, bytes) {
        Ok(form) => form,
        Err(ReadError::OutOfMemory) => return Err(OutOfMemory),
        Err(ReadError::Malformed) => return Ok(None),
        Err(ReadError::Unsupported(_)) => return Ok(None),
        Err(ReadError::TooLarge) => return Ok(None),
    };
    match check(alloc, &form) {
        Ok(()) => Ok(None),
        Err(CheckError::OutOfMemory) => Err(OutOfMemory),
        Err(CheckError::Invalid(rule)) => match locate_break(alloc, &form, rule)? {
            Some(place) => Ok(Some(broken_at(alloc, bytes, &form, rule, place)?)),
            None => unreachable!(),
        },
    }
}

/// The broken rule, with where the entry begins.
fn broken_at(
    alloc: Global,
    bytes: &[u8],
    form: &Form<'_>,
    rule: Rule,
    place: Break,
) -> Result<BrokenRule, OutOfMemory>
    requires few { length bytes.now < 2 ^ 30 }
    requires spelled { Spells bytes.now (module_of form.now) }
    requires no_interface_types { HasNoInterfaceTypes (module_of form.now) }
    requires listed { IsListed (module_of form.now) place.list place.entry }
    requires before { KeepsBefore rule (module_of form.now) }
    requires first { IsFirstBreak rule (lists_of_module (module_of form.now)) place.list place.entry }
    ensures { IfOk result (IsBrokenAt bytes.now (module_of form.now) rule place) }
{
    let Some(found) = entry_place_in(alloc, bytes, form, place)? else {
        unreachable!();
    };
    let fault = fault_of_break(alloc, form, rule, place)?;
    Ok(BrokenRule {
        rule,
        place,
        section: found.section,
        section_entry: found.section_entry,
        byte: found.byte,
        fault,
    })
}
