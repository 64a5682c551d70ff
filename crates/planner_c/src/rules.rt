//! The call from C that says which entry breaks a rule, and why.

ghost use Rattle.std.specs.Prelude.{◌≡◌, ◌≢◌, ◌⊎◌};
ghost use Rattle.rule_breaks.specs.Refused.{KeepsIfRead};
ghost use Rattle.planner_c.specs.Places.{IsPlaceStatus};
ghost use Rattle.planner_c.specs.Rules.{HasBrokenRule, TellsRule, list_number};

use crate::refusals::rule_number;
use entity_map::OutOfMemory;
use rule_breaks::{BrokenRule, ModuleList, locate_broken_rule};
use std::alloc::Global;
use translate::{NO_MEMORY, REFUSED, SUCCESS};

/// The first rule that a module breaks, and the first entry that breaks it, in the first of the lists
/// of the rule that has one: `bobbinazure_broken_rule`.
#[repr(C)]
#[derive(Clone, Copy)]
pub struct BrokenRuleRecord<'d> {
    /// The rule, from 1 to 10.
    pub rule: u32,
    /// The list that has the entry: a number from `BOBBINAZURE_IN_TYPES` on.
    pub list: u32,
    /// The index of the entry in that list, from 0 on.
    pub entry: u32,
    /// The id of the section that has it: of an import, the import section.
    pub section: u32,
    /// The entry of that section, from 0 on: of a type, its group. 0 in a start or data count section.
    pub section_entry: u32,
    /// The offset at which the section's entry begins.
    pub byte: u32,
    /// A sentence for people, in UTF-8, without a zero at the end.
    pub sentence: &'d [u8],
    /// Whether the sentence is in memory of its own, which `bobbinazure_broken_rule_free` frees.
    pub made: u32,
}

/// Says which rule a module breaks, which entry is the first to break it, and why:
/// `bobbinazure_locate_rule`.
/// Answers 0 where the bytes are not read as a module and where it keeps the rules; 1 where the
/// record has a rule; 5 where there is no memory. At 0 and 5 the record is as it was.
#[unsafe(no_mangle)]
pub extern "C" fn bobbinazure_locate_rule<'d>(
    alloc: Global,
    bytes: &'d [u8],
    out: &mut BrokenRuleRecord<'d>,
) -> u32
    ensures statuses { IsPlaceStatus result }
    // A module that the bytes spell keeps all rules.
    ensures keeps { result ≡ 0 → KeepsIfRead bytes.now }
    // The record has the first rule that is broken, and the first entry that breaks it.
    ensures broken { result ≡ 1 → HasBrokenRule bytes.now (λ broken. TellsRule broken out.new) }
    ensures same { result ≢ 1 → out.new ≡ out.old }
{
    match locate_broken_rule(alloc, bytes) {
        Ok(None) => u32::from(SUCCESS),
        Ok(Some(broken)) => tell_rule(alloc, &broken, out),
        Err(OutOfMemory) => u32::from(NO_MEMORY),
    }
}

/// Puts a broken rule with its sentence into a record. Answers 1, or 5 where memory ended and the
/// record is as it was.
fn tell_rule(alloc: Global, broken: &BrokenRule, out: &mut BrokenRuleRecord<'_>) -> u32
    ensures statuses { (result ≡ 1) ⊎ (result ≡ 5) }
    ensures told { result ≡ 1 → TellsRule broken.now out.new }
    ensures same { result ≡ 5 → out.new ≡ out.old }
{
    let Ok(sentence) = broken.to_string(alloc) else {
        return u32::from(NO_MEMORY);
    };
    *out = BrokenRuleRecord {
        rule: rule_number(broken.rule),
        list: list_number(broken.place.list),
        entry: broken.place.entry,
        section: u32::from(broken.section.id()),
        section_entry: broken.section_entry,
        byte: broken.byte,
        sentence: sentence.into_bytes().leak(),
        made: 1,
    };
    u32::from(REFUSED)
}

/// A list, as a number.
fn list_number(list: ModuleList) -> u32
    ensures { result ≡ list_number list }
{
    match list {
        ModuleList::Types => 0,
        ModuleList::Functions => 1,
        ModuleList::TableTypes => 2,
        ModuleList::Memories => 3,
        ModuleList::Tags => 4,
        ModuleList::Imports => 5,
        ModuleList::Tables => 6,
        ModuleList::Globals => 7,
        ModuleList::Exports => 8,
        ModuleList::Starts => 9,
        ModuleList::Elements => 10,
        ModuleList::DataCounts => 11,
        ModuleList::Bodies => 12,
        ModuleList::Segments => 13,
    }
}
