//! Worked examples of the definitions.

ghost use Rattle.rule_spec.specs.declared.rules.Rule.TheVariants as rule;
ghost use Rattle.rule_spec.specs.Lists.{lists_of_module};
ghost use Rattle.rule_spec.specs.Worked.{function_without_body, exported_twice};
ghost use Rattle.refusal_place.specs.declared.kind.SectionKind.TheVariants as kind;
ghost use Rattle.rule_breaks.specs.declared.lists.ModuleList.TheVariants as list;
ghost use Rattle.rule_breaks.specs.Breaks.{IsFirstBreak};
ghost use Rattle.rule_breaks.specs.Refused.{BreaksFirst};
ghost use Rattle.rule_breaks.specs.SectionEntries.{IsEntryOf, IsGroupOf};
ghost use Rattle.rule_breaks.specs.Worked.{two_narrow, imported_and_narrow, imported_and_narrow_bytes, narrow_is_broken, two_and_one};

/// Of three memories the last two break rule L4, and memory 1 is the first break. A function lacks its
/// body, and the second of two exports repeats a name.
pub fn worked_breaks()
    ensures memory { IsFirstBreak rule.L4 (lists_of_module two_narrow) list.Memories 1 }
    ensures no_later { ¬ IsFirstBreak rule.L4 (lists_of_module two_narrow) list.Memories 2 }
    ensures no_table { ¬ IsFirstBreak rule.L4 (lists_of_module two_narrow) list.TableTypes 0 }
    ensures body { IsFirstBreak rule.L3 (lists_of_module function_without_body) list.Functions 0 }
    ensures name { IsFirstBreak rule.L7 (lists_of_module exported_twice) list.Exports 1 }
{}

/// Of an imported memory and a defined one, the second breaks a rule: it is memory 1, and entry 0 of
/// the memory section, at byte 19. Of two types and one in groups, type 2 is in group 1.
pub fn worked_section_entries()
    ensures breaks { BreaksFirst imported_and_narrow_bytes narrow_is_broken }
    ensures imported { IsEntryOf imported_and_narrow list.Memories 0 kind.Import 0 }
    ensures not_imported { ¬ IsEntryOf imported_and_narrow list.Memories 1 kind.Import 0 }
    ensures not_the_index { ¬ IsEntryOf imported_and_narrow list.Memories 1 kind.Memory 1 }
    ensures second_group { IsGroupOf two_and_one 2 1 }
    ensures not_the_first_group { ¬ IsGroupOf two_and_one 2 0 }
    ensures not_the_index_of_the_type { ¬ IsGroupOf two_and_one 1 1 }
{}
