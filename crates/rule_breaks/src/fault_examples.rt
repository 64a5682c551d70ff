//! A worked example of the faults.

ghost use Rattle.rule_spec.specs.declared.rules.Rule.TheVariants as rule;
ghost use Rattle.rule_spec.specs.Lists.{lists_of_module};
ghost use Rattle.rule_spec.specs.Worked.{function_without_body, exported_twice};
ghost use Rattle.rule_breaks.specs.declared.lists.ModuleList.TheVariants as list;
ghost use Rattle.rule_breaks.specs.declared.fault.IndexSpace.TheVariants as space;
ghost use Rattle.rule_breaks.specs.declared.fault.RuleFault.TheVariants as fault;
ghost use Rattle.rule_breaks.specs.Faults.{IsFaultOf};
ghost use Rattle.rule_breaks.specs.Worked.{two_narrow};
ghost use Rattle.rule_breaks.specs.WorkedFaults.{function_of_type_7};

/// The second memory has the minimum 2 and the maximum 1. The second function is of type 7, and
/// there is one type. The second export has the name of export 0. No other number is right.
pub fn worked_faults()
    ensures limits { IsFaultOf rule.L4 (lists_of_module two_narrow) list.Memories 1 (fault.MaximumBelowMinimum 2 1) }
    ensures not_exchanged { ¬ IsFaultOf rule.L4 (lists_of_module two_narrow) list.Memories 1 (fault.MaximumBelowMinimum 1 2) }
    ensures not_the_first { ¬ IsFaultOf rule.L4 (lists_of_module two_narrow) list.Memories 0 (fault.MaximumBelowMinimum 2 1) }
    ensures index { IsFaultOf rule.L2 (lists_of_module function_of_type_7) list.Functions 1 (fault.NoSuchEntry space.Types 7 1) }
    ensures no_other_count { ¬ IsFaultOf rule.L2 (lists_of_module function_of_type_7) list.Functions 1 (fault.NoSuchEntry space.Types 7 2) }
    ensures no_other_index { ¬ IsFaultOf rule.L2 (lists_of_module function_of_type_7) list.Functions 1 (fault.NoSuchEntry space.Types 0 1) }
    ensures bodies { IsFaultOf rule.L3 (lists_of_module function_without_body) list.Functions 0 (fault.BodyCount 1 0) }
    ensures name { IsFaultOf rule.L7 (lists_of_module exported_twice) list.Exports 1 (fault.RepeatedName 0) }
    ensures not_itself { ¬ IsFaultOf rule.L7 (lists_of_module exported_twice) list.Exports 1 (fault.RepeatedName 1) }
{}
