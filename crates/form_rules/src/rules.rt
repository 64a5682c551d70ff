//! The listed rules, checked one after another.

ghost use Rattle.std.specs.Prelude.{◌≡◌, ◌↔◌, IsTrue, IfOk, OnOk, Err};
ghost use Rattle.rule_spec.specs.declared.rules.Rule.{Rule};
ghost use Rattle.form_reader.specs.Views.{module_of};
ghost use Rattle.rule_spec.specs.Lists.{lists_of_module};
ghost use Rattle.rule_spec.specs.Rules.{Satisfies, Keeps, KeepsBefore};
ghost use Rattle.form_types.specs.Numbered.{AreNumbered};
ghost use Rattle.form_rules.specs.Source.{source_module};
ghost use Rattle.form_rules.specs.Views.{lists_of};
ghost use Rattle.form_rules.specs.Walked.{AreFindings};
ghost use Rattle.form_rules.specs.Names.{exported_names};
ghost use Rattle.form_rules.specs.Outcomes.{ChecksOrNoMemory, HasGlobals};

use crate::counts::counts_agree;
use crate::elements::{ElementsKeep, walk_elements};
use crate::error::CheckError;
use crate::exports::exports_hold;
use crate::globals::{GlobalsKeep, walk_globals};
use crate::limits::limits_hold;
use crate::names::pool_of_exports;
use crate::references::references_hold;
use crate::segments::{SegmentsKeep, walk_segments};
use crate::start::starts_hold;
use crate::tables::initialisers_hold;
use crate::type_rules::types_are_named;
use crate::{
    DeclaredTypes, KindsTyped, Lists, ModuleSource, Typing, expressions_hold, gather_lists,
    struct_defaults,
};
use entity_map::StringPool;
use form_reader::Form;
use form_types::{Types, Validator, numbering_of_form};
use rule_spec::Rule;
use std::alloc::{AllocError, Global};

/// The listed rules, in the order in which they are checked, except the first, which is checked
/// while types are numbered.
const RULES: [Rule; 9] = [
    Rule::L2,
    Rule::L3,
    Rule::L4,
    Rule::L5,
    Rule::L6,
    Rule::L7,
    Rule::L8,
    Rule::L9,
    Rule::L10,
];

/// Which rules all entries of a kind keep. It is found in one pass, before the rules are checked in
/// order.
#[derive(Clone, Copy)]
pub struct Findings {
    pub globals: GlobalsKeep,
    pub elements: ElementsKeep,
    pub segments: SegmentsKeep,
    /// No two exports have one name (L7).
    pub distinct: bool,
}

/// Whether the module keeps the listed rules.
///
/// # Errors
/// `Invalid` names a rule that the module breaks, the first of those in the order of their numbers.
pub fn check(alloc: Global, form: &Form<'_>) -> Result<(), CheckError>
    ensures kept { OnOk result (Keeps (module_of form.now)) }
    ensures broken { (rule : Rule) → result ≡ Err (CheckError.Invalid rule) → ¬ Satisfies rule (lists_of_module (module_of form.now)) }
    // Of the rules that are broken it is the first.
    ensures first { (rule : Rule) → result ≡ Err (CheckError.Invalid rule) → KeepsBefore rule (module_of form.now) }
    // What keeps the rules passes, unless memory runs out.
    ensures complete { Keeps (module_of form.now) → ChecksOrNoMemory result }
{
    let numbering = numbering_of_form(alloc, form)?;
    match numbering.into_types(&Validator::new(0)) {
        Some(types) => {
            checked_lists(alloc, ModuleSource::Form(form), &types)?;
            Ok(())
        }
        None => Err(CheckError::Invalid(Rule::L1)),
    }
}

/// The lists of a module that keeps the listed rules, and the pool of the names of its exports, in
/// order. Its types are numbered, and keep the first rule.
///
/// # Errors
/// Those of `check`.
pub fn checked_lists<'f, 'd>(
    alloc: Global,
    source: ModuleSource<'f, 'd>,
    types: &'f Types,
) -> Result<(Lists<'f, 'd>, StringPool), CheckError>
    requires numbered { AreNumbered (source_module source) types.now }
    requires well { Satisfies Rule.L1 (lists_of_module (source_module source)) }
    ensures lists { IfOk result (λ r. lists_of r.0 ≡ lists_of_module (source_module source.entry)) }
    ensures of_source { IfOk result (λ r. r.0.source ≡ source.entry) }
    ensures names { IfOk result (λ r. r.1 ≡ exported_names (lists_of_module (source_module source.entry)).exports) }
    ensures kept { OnOk result (Keeps (source_module source.entry)) }
    ensures broken { (rule : Rule) → result ≡ Err (CheckError.Invalid rule) → ¬ Satisfies rule (lists_of_module (source_module source.entry)) }
    ensures first { (rule : Rule) → result ≡ Err (CheckError.Invalid rule) → KeepsBefore rule (source_module source.entry) }
    ensures complete { Keeps (source_module source.entry) → ChecksOrNoMemory result }
{
    let lists = gather_lists(alloc, source, DeclaredTypes::new(types, source))?;
    let defaults = struct_defaults(alloc, &lists)?;
    let names = pool_of_exports(alloc, source)?;
    let typing = Typing {
        lists: &lists,
        defaults: &defaults,
    };
    let findings = Findings {
        globals: walk_globals(alloc, &typing)?,
        elements: walk_elements(alloc, &typing)?,
        segments: walk_segments(alloc, &typing)?,
        distinct: names.is_some(),
    };
    for rule in RULES {
        if !keeps(alloc, rule, &typing, findings)? {
            return Err(CheckError::Invalid(rule));
        }
    }
    match names {
        Some(names) => Ok((lists, names)),
        None => unreachable!(),
    }
}

/// Whether a rule is kept. What rules require of all entries of a kind was checked before, and so
/// was the first rule.
fn keeps(
    alloc: Global,
    rule: Rule,
    typing: &Typing<'_, '_, '_>,
    findings: Findings,
) -> Result<bool, AllocError>
    requires well { Satisfies Rule.L1 (lists_of typing.now.lists.now) }
    requires counted { HasGlobals (lists_of typing.now.lists.now) }
    requires findings { AreFindings (lists_of typing.now.lists.now) findings }
    ensures { IfOk result (λ kept. IsTrue kept ↔ Satisfies rule (lists_of typing.now.lists.now)) }
{
    let Findings {
        globals,
        elements,
        segments,
        distinct,
    } = findings;
    let lists = typing.lists;
    match rule {
        Rule::L1 => Ok(true),
        Rule::L2 => types_are_named(alloc, lists),
        Rule::L3 => Ok(counts_agree(lists, segments.count)),
        Rule::L4 => Ok(limits_hold(lists)),
        Rule::L5 => Ok(initialisers_hold(lists)),
        Rule::L6 => expressions_hold(
            alloc,
            typing,
            KindsTyped {
                globals: globals.typed,
                elements: elements.typed,
                segments: segments.typed,
            },
        ),
        Rule::L7 => Ok(exports_hold(lists, distinct)),
        Rule::L8 => Ok(starts_hold(lists)),
        Rule::L9 => Ok(elements.in_range && segments.in_range),
        Rule::L10 => Ok(references_hold(lists, globals.refer, elements.refer, segments.refer)),
    }
}
