//! Worked examples of the definitions.

ghost use Rattle.std.specs.Prelude.{◌≡◌, [], ◌∷◌, None, pos};
ghost use Rattle.wasm_spec.specs.declared.operators.Operator.TheVariants as op;
ghost use Rattle.wasm_spec.specs.declared.types.HeapType.TheVariants as heaps;
ghost use Rattle.wasm_spec.specs.declared.types.UnpackedIndex.TheVariants as named;
ghost use Rattle.rule_spec.specs.declared.rules.Rule.TheVariants as rule;
ghost use Rattle.rule_spec.specs.declared.classes.Class.{Class};
ghost use Rattle.rule_spec.specs.declared.classes.Class.TheVariants as class;
ghost use Rattle.rule_spec.specs.Lists.{lists_of_module};
ghost use Rattle.rule_spec.specs.Rules.{Satisfies, Keeps};
ghost use Rattle.rule_spec.specs.Typing.{signature, HasClass};
ghost use Rattle.rule_spec.specs.Worked.{pushes, three_types, two_globals, type_past_group, function_without_type, function_without_body, maximum_below_minimum, table_without_initialiser, global_of_another_class, exported_twice, start_without_function, segment_without_table, reference_without_type};
ghost use Rattle.rule_spec.specs.WorkedKept.{type_of_an_earlier, function_with_body, maximum_above_minimum, table_with_initialiser, global_of_a_sum, exported_by_two_names, function_to_start, segments_in_range, reference_to_type, overlapping};

/// A small module that breaks each rule.
#[tactic(auto, unfolding(crate::specs::Typing::HasClass))]
pub fn worked_rules()
    ensures types { ¬ Satisfies rule.L1 (lists_of_module type_past_group) }
    ensures functions { ¬ Satisfies rule.L2 (lists_of_module function_without_type) }
    ensures bodies { ¬ Satisfies rule.L3 (lists_of_module function_without_body) }
    ensures limits { ¬ Satisfies rule.L4 (lists_of_module maximum_below_minimum) }
    ensures tables { ¬ Satisfies rule.L5 (lists_of_module table_without_initialiser) }
    ensures expressions { ¬ Satisfies rule.L6 (lists_of_module global_of_another_class) }
    ensures exports { ¬ Satisfies rule.L7 (lists_of_module exported_twice) }
    ensures start { ¬ Satisfies rule.L8 (lists_of_module start_without_function) }
    ensures segments { ¬ Satisfies rule.L9 (lists_of_module segment_without_table) }
    ensures references { ¬ Satisfies rule.L10 (lists_of_module reference_without_type) }
{}

/// A small module that keeps each rule.
pub fn worked_kept_rules()
    ensures types { Satisfies rule.L1 (lists_of_module type_of_an_earlier) }
    ensures functions { Satisfies rule.L2 (lists_of_module function_with_body) }
    ensures bodies { Satisfies rule.L3 (lists_of_module function_with_body) }
    ensures limits { Satisfies rule.L4 (lists_of_module maximum_above_minimum) }
    ensures tables { Satisfies rule.L5 (lists_of_module table_with_initialiser) }
    ensures expressions { Satisfies rule.L6 (lists_of_module global_of_a_sum) }
    ensures exports { Satisfies rule.L7 (lists_of_module exported_by_two_names) }
    ensures start { Satisfies rule.L8 (lists_of_module function_to_start) }
    ensures segments { Satisfies rule.L9 (lists_of_module segments_in_range) }
    ensures references { Satisfies rule.L10 (lists_of_module reference_to_type) }
{}

/// A memory and two data segments keep every rule.
pub fn worked_module()
    ensures { Keeps overlapping }
{}

/// What each operator takes and pushes, and what it may not name.
pub fn worked_signatures()
    ensures constant { signature three_types two_globals (op.F64Const 7) ≡ pushes [] class.F64 }
    ensures arithmetic { signature three_types two_globals op.I64Mul ≡ pushes (class.I64 ∷ class.I64 ∷ []) class.I64 }
    ensures null { signature three_types two_globals (op.RefNull (heaps.Concrete (named.Module 0))) ≡ pushes [] class.Ref }
    ensures function { signature three_types two_globals (op.RefFunc 0) ≡ pushes [] class.Ref }
    ensures no_function { signature three_types two_globals (op.RefFunc 1) ≡ None }
    ensures i31 { signature three_types two_globals op.RefI31 ≡ pushes (class.I32 ∷ []) class.Ref }
    ensures conversion { signature three_types two_globals op.ExternConvertAny ≡ pushes (class.Ref ∷ []) class.Ref }
    ensures global { signature three_types two_globals (op.GlobalGet 0) ≡ pushes [] class.I64 }
    ensures mutable_global { signature three_types two_globals (op.GlobalGet 1) ≡ None }
    ensures invisible_global { signature three_types two_globals (op.GlobalGet 2) ≡ None }
    ensures structure { signature three_types two_globals (op.StructNew 0) ≡ pushes (class.I32 ∷ class.I64 ∷ []) class.Ref }
    ensures no_structure { signature three_types two_globals (op.StructNew 1) ≡ None }
    ensures default_structure { signature three_types two_globals (op.StructNewDefault 0) ≡ pushes [] class.Ref }
    ensures array { signature three_types two_globals (op.ArrayNew 2) ≡ pushes (class.F32 ∷ class.I32 ∷ []) class.Ref }
    ensures no_array { signature three_types two_globals (op.ArrayNew 0) ≡ None }
    ensures default_array { signature three_types two_globals (op.ArrayNewDefault 2) ≡ pushes (class.I32 ∷ []) class.Ref }
    ensures no_default { signature three_types two_globals (op.ArrayNewDefault 1) ≡ None }
    ensures fixed_array { signature three_types two_globals (op.ArrayNewFixed 1 2) ≡ pushes (class.Ref ∷ class.Ref ∷ []) class.Ref }
    ensures no_type { signature three_types two_globals (op.ArrayNewFixed 3 0) ≡ None }
{}

/// Operators one after another: `1 + 2` is an i32, and `1 +` has no class.
#[tactic(auto, unfolding(crate::specs::Typing::HasClass))]
pub fn worked_expressions()
    ensures sum { HasClass three_types [] (op.I32Const (pos 1) ∷ op.I32Const (pos 2) ∷ op.I32Add ∷ []) class.I32 }
    ensures short { (c : Class) → ¬ HasClass three_types [] (op.I32Const (pos 1) ∷ op.I32Add ∷ []) c }
    ensures left_over { (c : Class) → ¬ HasClass three_types [] (op.I32Const (pos 1) ∷ op.I32Const (pos 2) ∷ []) c }
{}
