//! The first break of a rule.

ghost use Rattle.std.specs.Prelude.{◌≡◌, ◌↔◌, IfOk, IfSome};
ghost use Rattle.rule_spec.specs.declared.rules.Rule.{Rule};
ghost use Rattle.rule_spec.specs.Lists.{lists_of_module};
ghost use Rattle.rule_spec.specs.Rules.{Satisfies};
ghost use Rattle.form_rules.specs.Source.{source_module};
ghost use Rattle.form_rules.specs.Views.{lists_of};
ghost use Rattle.rule_breaks.specs.Breaks.{IsFirstBreak, Locates};

use crate::counts::break_of_counts;
use crate::exports::break_of_exports;
use crate::expressions::{break_of_expressions, break_of_tables};
use crate::indices::{break_of_segments, break_of_starts};
use crate::limits::break_of_limits;
use crate::lists::Break;
use crate::references::break_of_references;
use crate::types::break_of_types;
use entity_map::OutOfMemory;
use form_rules::{Lists, Typing, struct_defaults};
use rule_spec::Rule;
use std::alloc::Global;

/// The entry that is the first to break a rule, in the first such list of the rule;
/// none where the module satisfies the rule. The lists were gathered, and their types keep L1.
///
/// # Errors
/// `OutOfMemory` where an entry finds no memory.
pub fn first_break(
    alloc: Global,
    lists: &Lists<'_, '_>,
    rule: Rule,
) -> Result<Option<Break>, OutOfMemory>
    requires gathered { lists_of lists.now ≡ lists_of_module (source_module lists.now.source) }
    requires well { Satisfies Rule.L1 (lists_of lists.now) }
    ensures none { IfOk result (λ b. (b ≡ None) ↔ Satisfies rule (lists_of lists.now)) }
    ensures first { IfOk result (λ b. IfSome b (λ b. IsFirstBreak rule (lists_of lists.now) b.list b.entry)) }
{
    located(alloc, lists, rule)
}

pub(crate) fn located(
    alloc: Global,
    lists: &Lists<'_, '_>,
    rule: Rule,
) -> Result<Option<Break>, OutOfMemory>
    requires gathered { lists_of lists.now ≡ lists_of_module (source_module lists.now.source) }
    requires well { Satisfies Rule.L1 (lists_of lists.now) }
    ensures { IfOk result (Locates rule (lists_of lists.now)) }
{
    let defaults = struct_defaults(alloc, lists)?;
    let typing = Typing {
        lists,
        defaults: &defaults,
    };
    match rule {
        Rule::L1 => Ok(None),
        Rule::L2 => break_of_types(lists),
        Rule::L3 => break_of_counts(alloc, lists),
        Rule::L4 => break_of_limits(lists),
        Rule::L5 => break_of_tables(alloc, &typing),
        Rule::L6 => break_of_expressions(alloc, &typing),
        Rule::L7 => break_of_exports(alloc, lists),
        Rule::L8 => break_of_starts(lists),
        Rule::L9 => break_of_segments(alloc, &typing),
        Rule::L10 => break_of_references(alloc, &typing),
    }
}
