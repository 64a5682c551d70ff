//! Worked examples of the definitions.

ghost use Rattle.std.specs.Prelude.{◌≡◌, length, take};
ghost use Rattle.wasm_spec.specs.declared.operators.What.{What};
ghost use Rattle.wasm_spec.specs.declared.operators.What.TheVariants as what;
ghost use Rattle.wasm_spec.specs.Module.{Module};
ghost use Rattle.wasm_spec.specs.Grammar.{Spells, Stops};
ghost use Rattle.rule_spec.specs.WorkedKept.{overlapping, overlap_bytes};
ghost use Rattle.form_rules.specs.Worked.{unlisted_operator_bytes, component_bytes};

/// The thirty bytes of two segments spell their module and no other, and without the last byte no
/// module is spelled.
pub fn worked_spelling()
    ensures thirty { length overlap_bytes ≡ 30 }
    ensures spelled { Spells overlap_bytes overlapping }
    ensures no_other { (m : Module) → Spells overlap_bytes m → m ≡ overlapping }
    ensures cut_short { (m : Module) → ¬ Spells (take 29 overlap_bytes) m }
{}

/// Reading stops at an operator that is not listed and at a component, and nowhere in bytes that
/// spell a module.
pub fn worked_stops()
    ensures operator { Stops unlisted_operator_bytes what.Operator }
    ensures component { Stops component_bytes what.Component }
    ensures nowhere { (what : What) → ¬ Stops overlap_bytes what }
{}
