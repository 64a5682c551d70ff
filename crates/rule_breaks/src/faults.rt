//! What is wrong with an entry that breaks a rule: the fault, with the numbers that were found.

ghost use Rattle.std.specs.Prelude.{◌≡◌, IfOk};
ghost use Rattle.rule_spec.specs.declared.rules.Rule.{Rule};
ghost use Rattle.rule_spec.specs.Lists.{lists_of_module};
ghost use Rattle.rule_spec.specs.Rules.{Satisfies, KeepsBefore};
ghost use Rattle.form_reader.specs.Views.{module_of};
ghost use Rattle.form_rules.specs.Source.{source_module};
ghost use Rattle.form_rules.specs.Views.{lists_of};
ghost use Rattle.rule_breaks.specs.Breaks.{IsFirstBreak};
ghost use Rattle.rule_breaks.specs.Faults.{IsFaultOf};

use crate::fault::RuleFault;
use crate::faults_entries::{
    fault_of_body, fault_of_data_count, fault_of_export, fault_of_import, fault_of_table,
};
use crate::faults_segments::{fault_of_element, fault_of_global, fault_of_segment};
use crate::faults_spaces::{
    fault_of_function, fault_of_memory, fault_of_start, fault_of_table_type, fault_of_tag,
};
use crate::faults_types::fault_of_type;
use crate::lists::{Break, ModuleList};
use entity_map::OutOfMemory;
use form_reader::Form;
use form_rules::{DeclaredTypes, Lists, ModuleSource, gather_lists};
use form_types::{Validator, numbering_of_form};
use rule_spec::Rule;
use std::alloc::{AllocError, Global};

/// What is wrong with the entry that is the first to break a rule, as `first_break` names it. The
/// lists were gathered, and their types keep L1.
///
/// # Errors
/// `OutOfMemory` where an entry that stays in the input finds no memory.
pub fn rule_fault(
    alloc: Global,
    lists: &Lists<'_, '_>,
    rule: Rule,
    place: Break,
) -> Result<RuleFault, OutOfMemory>
    requires gathered { lists_of lists.now ≡ lists_of_module (source_module lists.now.source) }
    requires well { Satisfies Rule.L1 (lists_of lists.now) }
    requires first { IsFirstBreak rule (lists_of lists.now) place.list place.entry }
    ensures fault { IfOk result (IsFaultOf rule (lists_of lists.now) place.list place.entry) }
{
    Ok(fault_at(alloc, lists, rule, place)?)
}

fn fault_at(
    alloc: Global,
    lists: &Lists<'_, '_>,
    rule: Rule,
    place: Break,
) -> Result<RuleFault, AllocError>
    requires gathered { lists_of lists.now ≡ lists_of_module (source_module lists.now.source) }
    requires well { Satisfies Rule.L1 (lists_of lists.now) }
    requires first { IsFirstBreak rule (lists_of lists.now) place.list place.entry }
    ensures { IfOk result (IsFaultOf rule (lists_of lists.now) place.list place.entry) }
{
    let entry = place.entry;
    match place.list {
        // L1 is kept.
        ModuleList::Types => unreachable!(),
        ModuleList::Functions => fault_of_function(lists, rule, entry),
        ModuleList::TableTypes => Ok(fault_of_table_type(lists, entry)),
        ModuleList::Memories => Ok(fault_of_memory(lists, entry)),
        ModuleList::Tags => Ok(fault_of_tag(lists, entry)),
        ModuleList::Imports => Ok(fault_of_import(lists, entry)),
        ModuleList::Tables => Ok(fault_of_table(lists, rule, entry)),
        ModuleList::Globals => fault_of_global(alloc, lists, rule, entry),
        ModuleList::Exports => fault_of_export(lists, entry),
        ModuleList::Starts => Ok(fault_of_start(lists, entry)),
        ModuleList::Elements => fault_of_element(alloc, lists, rule, entry),
        ModuleList::DataCounts => fault_of_data_count(alloc, lists, entry),
        ModuleList::Bodies => fault_of_body(lists, rule, entry),
        ModuleList::Segments => fault_of_segment(alloc, lists, rule, entry),
    }
}

// ---- forms

/// What is wrong with the entry that is the first to break a rule, as `locate_break` names it. The
/// module must satisfy the rules of lower numbers, as where `check` returns this rule.
///
/// # Errors
/// `OutOfMemory` where the lists or an entry that stays in the input find no memory.
pub fn fault_of_break(
    alloc: Global,
    form: &Form<'_>,
    rule: Rule,
    place: Break,
) -> Result<RuleFault, OutOfMemory>
    requires before { KeepsBefore rule (module_of form.now) }
    requires first { IsFirstBreak rule (lists_of_module (module_of form.now)) place.list place.entry }
    ensures fault { IfOk result (IsFaultOf rule (lists_of_module (module_of form.now)) place.list place.entry) }
{
    match rule {
        Rule::L1 => fault_of_declared(alloc, form, place),
        _ => fault_of_lists(alloc, form, rule, place),
    }
}

/// The fault of a type that breaks L1.
fn fault_of_declared(alloc: Global, form: &Form<'_>, place: Break) -> Result<RuleFault, OutOfMemory>
    requires { IsFirstBreak Rule.L1 (lists_of_module (module_of form.now)) place.list place.entry }
    ensures { IfOk result (IsFaultOf Rule.L1 (lists_of_module (module_of form.now)) place.list place.entry) }
{
    match place.list {
        ModuleList::Types => Ok(fault_of_type(alloc, ModuleSource::Form(form), place.entry)?),
        _ => unreachable!(),
    }
}

/// The fault of an entry that breaks another rule. The module satisfies L1, so its types can be
/// numbered.
fn fault_of_lists(
    alloc: Global,
    form: &Form<'_>,
    rule: Rule,
    place: Break,
) -> Result<RuleFault, OutOfMemory>
    requires well { Satisfies Rule.L1 (lists_of_module (module_of form.now)) }
    requires first { IsFirstBreak rule (lists_of_module (module_of form.now)) place.list place.entry }
    ensures { IfOk result (IsFaultOf rule (lists_of_module (module_of form.now)) place.list place.entry) }
{
    let numbering = numbering_of_form(alloc, form)?;
    match numbering.into_types(&Validator::new(0)) {
        Some(types) => {
            let source = ModuleSource::Form(form);
            let lists = gather_lists(alloc, source, DeclaredTypes::new(&types, source))?;
            rule_fault(alloc, &lists, rule, place)
        }
        None => unreachable!(),
    }
}
