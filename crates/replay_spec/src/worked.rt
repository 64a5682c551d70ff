//! Worked examples of the definitions: each clause computes.

ghost use Rattle.std.specs.Prelude.{◌≡◌, [], ◌∷◌, Some, None, pos, negsuc};
ghost use Rattle.replay_spec.specs.Values.{I32, I64, F32, F64, V128, Ref, Null, Func, Host, I31, Allocated, AsExtern, NoMore, Argument, eval, const_value, offset_of};
ghost use Rattle.replay_spec.specs.Held.{any_nulls};
ghost use Rattle.replay_spec.specs.Phases.{content_of, trap_of};
ghost use Rattle.replay_spec.specs.Data.{module_phase};
ghost use Rattle.replay_spec.specs.Plan.{ranges_from};
ghost use Rattle.replay_spec.specs.Worked.{any_heap, function_heap, ones_added, ends_at_minus_one, empty_past_the_end};
ghost use Rattle.rule_spec.specs.WorkedKept.{overlapping};
ghost use Rattle.wasm_spec.specs.declared.operators.Operator.TheVariants as op;

/// The values of constant expressions: numbers are unsigned and wrap, and offsets are read from them.
pub fn worked_values()
    ensures sixteen { offset_of (op.I32Const (pos 16) ∷ []) ≡ 16 }
    ensures minus_one { offset_of (op.I32Const (negsuc 0) ∷ []) ≡ 4294967295 }
    ensures wide_minus_one { eval [] (λ t. 0) (op.I64Const (negsuc 0) ∷ []) ≡ Some (I64 18446744073709551615) }
    ensures sum { offset_of (op.I32Const (pos 10) ∷ op.I32Const (pos 6) ∷ op.I32Add ∷ []) ≡ 16 }
    ensures below_zero { const_value (op.I64Const (pos 0) ∷ op.I64Const (pos 1) ∷ op.I64Sub ∷ []) ≡ Some (I64 18446744073709551615) }
    ensures past_the_signed { const_value (op.I32Const (pos 2147483647) ∷ op.I32Const (pos 1) ∷ op.I32Add ∷ []) ≡ Some (I32 2147483648) }
    ensures product { const_value (op.I32Const (pos 65536) ∷ op.I32Const (pos 65537) ∷ op.I32Mul ∷ []) ≡ Some (I32 65536) }
    ensures difference { const_value (op.I32Const (pos 10) ∷ op.I32Const (pos 6) ∷ op.I32Sub ∷ []) ≡ Some (I32 4) }
    ensures wide_sum { const_value (op.I64Const (negsuc 0) ∷ op.I64Const (pos 2) ∷ op.I64Add ∷ []) ≡ Some (I64 1) }
    ensures wide_product { const_value (op.I64Const (pos 4294967296) ∷ op.I64Const (pos 4294967297) ∷ op.I64Mul ∷ []) ≡ Some (I64 4294967296) }
{}

/// Which expressions have a constant value: of constants and arithmetic alone, typed, and at most
/// 16 values deep.
pub fn worked_constants()
    ensures float { const_value (op.F32Const 7 ∷ []) ≡ Some (F32 7) }
    ensures wide_float { const_value (op.F64Const 7 ∷ []) ≡ Some (F64 7) }
    ensures vector { const_value (op.V128Const 7 ∷ []) ≡ Some (V128 7) }
    ensures sixteen_deep { const_value (ones_added 16) ≡ Some (I32 16) }
    ensures seventeen_deep { const_value (ones_added 17) ≡ None }
    ensures evaluated_deeper { eval [] (λ t. 0) (ones_added 17) ≡ Some (I32 17) }
    ensures two_constants { const_value (op.I32Const (pos 1) ∷ op.I32Const (pos 2) ∷ []) ≡ None }
    ensures lone_addition { const_value (op.I32Add ∷ []) ≡ None }
    ensures mixed_classes { const_value (op.I32Const (pos 1) ∷ op.I64Const (pos 1) ∷ op.I32Add ∷ []) ≡ None }
    ensures no_reference { const_value (op.RefFunc 4 ∷ []) ≡ None }
    ensures no_global { const_value (op.GlobalGet 0 ∷ []) ≡ None }
{}

/// Globals and references: a struct takes its fields, and conversions there and back give the
/// original reference.
pub fn worked_references()
    ensures global { eval (I32 5 ∷ []) (λ t. 0) (op.GlobalGet 0 ∷ op.I32Const (pos 2) ∷ op.I32Mul ∷ []) ≡ Some (I32 10) }
    ensures unknown_global { eval [] (λ t. 0) (op.GlobalGet 0 ∷ []) ≡ None }
    ensures low_bits { eval [] (λ t. 0) (op.I32Const (negsuc 0) ∷ op.RefI31 ∷ []) ≡ Some (Ref (I31 2147483647)) }
    ensures function { eval [] (λ t. 0) (op.RefFunc 4 ∷ []) ≡ Some (Ref (Func 4)) }
    ensures converted { eval [] (λ t. 0) (op.RefFunc 4 ∷ op.ExternConvertAny ∷ []) ≡ Some (Ref (AsExtern (Func 4))) }
    ensures there_and_back { eval [] (λ t. 0) (op.RefFunc 4 ∷ op.ExternConvertAny ∷ op.AnyConvertExtern ∷ []) ≡ Some (Ref (Func 4)) }
    ensures host_and_back { eval (Ref (Host 3) ∷ []) (λ t. 0) (op.GlobalGet 0 ∷ op.AnyConvertExtern ∷ op.ExternConvertAny ∷ []) ≡ Some (Ref (Host 3)) }
    ensures null_outside { eval [] (λ t. 0) (op.RefNull any_heap ∷ op.AnyConvertExtern ∷ []) ≡ Some (Ref Null) }
    ensures null { eval [] (λ t. 0) (op.RefNull any_heap ∷ op.ExternConvertAny ∷ []) ≡ Some (Ref Null) }
    ensures null_of_a_type { any_nulls (op.RefNull function_heap ∷ op.ExternConvertAny ∷ []) ≡ op.RefNull any_heap ∷ op.ExternConvertAny ∷ [] }
    ensures structure { eval [] (λ t. 2) (op.I32Const (pos 1) ∷ op.I64Const (pos 2) ∷ op.StructNew 9 ∷ [])
        ≡ Some (Ref (Allocated (op.StructNew 9) (Argument (I32 1) (Argument (I64 2) NoMore)))) }
    ensures short_structure { eval [] (λ t. 2) (op.I32Const (pos 1) ∷ op.StructNew 9 ∷ []) ≡ None }
    ensures default_structure { eval [] (λ t. 2) (op.StructNewDefault 9 ∷ []) ≡ Some (Ref (Allocated (op.StructNewDefault 9) NoMore)) }
    ensures array { eval [] (λ t. 0) (op.F32Const 7 ∷ op.I32Const (pos 3) ∷ op.ArrayNew 9 ∷ [])
        ≡ Some (Ref (Allocated (op.ArrayNew 9) (Argument (F32 7) (Argument (I32 3) NoMore)))) }
    ensures default_array { eval [] (λ t. 0) (op.I32Const (pos 3) ∷ op.ArrayNewDefault 9 ∷ []) ≡ Some (Ref (Allocated (op.ArrayNewDefault 9) (Argument (I32 3) NoMore))) }
    ensures fixed_array { eval [] (λ t. 0) (op.I32Const (pos 1) ∷ op.ArrayNewFixed 9 1 ∷ []) ≡ Some (Ref (Allocated (op.ArrayNewFixed 9 1) (Argument (I32 1) NoMore))) }
{}

/// What small modules leave in their memory, and where they trap.
pub fn worked_phases()
    // The later of two segments wins, and all else stays zero.
    ensures before { content_of (module_phase [] (λ t. 0) [] overlapping) 0 15 ≡ 0 }
    ensures first { content_of (module_phase [] (λ t. 0) [] overlapping) 0 16 ≡ 1 }
    ensures later { content_of (module_phase [] (λ t. 0) [] overlapping) 0 17 ≡ 9 }
    ensures third { content_of (module_phase [] (λ t. 0) [] overlapping) 0 18 ≡ 3 }
    ensures no_trap { trap_of (module_phase [] (λ t. 0) [] overlapping) ≡ None }
    // An offset of -1 is 4294967295, past the end: the last segment traps, though it is empty.
    ensures last_traps { trap_of (module_phase [] (λ t. 0) [] ends_at_minus_one) ≡ Some 1 }
    ensures kept_before_the_trap { content_of (module_phase [] (λ t. 0) [] ends_at_minus_one) 0 17 ≡ 9 }
    // An empty segment may be at the end, but not past it.
    ensures empty_traps { trap_of (module_phase [] (λ t. 0) [] empty_past_the_end) ≡ Some 1 }
{}

/// Ranges of three and one bytes are contiguous.
pub fn worked_ranges()
    ensures { ranges_from 0 (3 ∷ 1 ∷ []) ≡ (0, 3) ∷ (3, 4) ∷ [] }
{}
