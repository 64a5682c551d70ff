//! The first break of a rule, from a form: types are numbered and lists gathered, as `check` does.

ghost use Rattle.std.specs.Prelude.{◌≡◌, ◌↔◌, IfOk, IfSome};
ghost use Rattle.rule_spec.specs.declared.rules.Rule.{Rule};
ghost use Rattle.rule_spec.specs.Lists.{lists_of_module};
ghost use Rattle.rule_spec.specs.Rules.{Satisfies, KeepsBefore};
ghost use Rattle.form_reader.specs.Views.{module_of};
ghost use Rattle.rule_breaks.specs.Breaks.{IsFirstBreak, Locates};

use crate::breaks::located;
use crate::declared::first_bad_type;
use crate::lists::{Break, ModuleList, at};
use entity_map::OutOfMemory;
use form_reader::Form;
use form_rules::{DeclaredTypes, ModuleSource, gather_lists};
use form_types::{Validator, numbering_of_form};
use rule_spec::Rule;
use std::alloc::Global;

/// The entry that is the first to break a rule, in the first such list of the rule;
/// none where the module satisfies the rule. It must satisfy the rules of lower numbers, as where
/// `check` returns this rule.
///
/// # Errors
/// `OutOfMemory` where the lists or an entry find no memory.
pub fn locate_break(
    alloc: Global,
    form: &Form<'_>,
    rule: Rule,
) -> Result<Option<Break>, OutOfMemory>
    requires { KeepsBefore rule (module_of form.now) }
    ensures none { IfOk result (λ b. (b ≡ None) ↔ Satisfies rule (lists_of_module (module_of form.now))) }
    ensures first { IfOk result (λ b. IfSome b (λ b. IsFirstBreak rule (lists_of_module (module_of form.now)) b.list b.entry)) }
{
    located_in_form(alloc, form, rule)
}

fn located_in_form(alloc: Global, form: &Form<'_>, rule: Rule) -> Result<Option<Break>, OutOfMemory>
    requires { KeepsBefore rule (module_of form.now) }
    ensures { IfOk result (Locates rule (lists_of_module (module_of form.now))) }
{
    match rule {
        Rule::L1 => break_of_declared(alloc, form),
        _ => break_of_lists(alloc, form, rule),
    }
}

/// The first break of rule L1.
fn break_of_declared(alloc: Global, form: &Form<'_>) -> Result<Option<Break>, OutOfMemory>
    ensures { IfOk result (Locates Rule.L1 (lists_of_module (module_of form.now))) }
{
    match first_bad_type(alloc, ModuleSource::Form(form))? {
        Some(entry) => Ok(at(ModuleList::Types, entry)),
        None => Ok(None),
    }
}

/// The first break of another rule. The module satisfies L1, so its types can be numbered.
fn break_of_lists(alloc: Global, form: &Form<'_>, rule: Rule) -> Result<Option<Break>, OutOfMemory>
    requires { Satisfies Rule.L1 (lists_of_module (module_of form.now)) }
    ensures { IfOk result (Locates rule (lists_of_module (module_of form.now))) }
{
    let numbering = numbering_of_form(alloc, form)?;
    match numbering.into_types(&Validator::new(0)) {
        Some(types) => {
            let source = ModuleSource::Form(form);
            let lists = gather_lists(alloc, source, DeclaredTypes::new(&types, source))?;
            located(alloc, &lists, rule)
        }
        None => unreachable!(),
    }
}
