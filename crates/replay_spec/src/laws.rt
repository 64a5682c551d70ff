//! Laws of the definitions.

ghost use Rattle.std.specs.Prelude.{◌≡◌, ℕ, List, map, Some, IsSomeAnd};
ghost use Rattle.wasm_spec.specs.declared.entities.GlobalType.{GlobalType};
ghost use Rattle.wasm_spec.specs.Module.{Expression, Element, Module};
ghost use Rattle.replay_spec.specs.Values.{Value, eval, const_value, offset_over};
ghost use Rattle.replay_spec.specs.Data.{ActiveSegment, segments_phase};
ghost use Rattle.replay_spec.specs.Elements.{DefinedTable, elements_phase, active_elements};
ghost use Rattle.replay_spec.specs.Globals.{values_after};
ghost use Rattle.replay_spec.specs.Held.{any_nulls, held_segment, held_elements, held_table};
ghost use Rattle.replay_spec.specs.Classes.{IsOfClass, HaveClasses, field_count};
ghost use Rattle.replay_spec.specs.Evaluated.{AreImported, all_globals, HaveValues};
ghost use Rattle.rule_spec.specs.declared.classes.Class.{Class};
ghost use Rattle.rule_spec.specs.Lists.{Lists, lists_of_module};
ghost use Rattle.rule_spec.specs.Rules.{Keeps};
ghost use Rattle.rule_spec.specs.Typing.{HasClass};

/// What a plan holds of an expression has the values of the expression.
pub fn any_null_law()
    ensures value { (globals : List Value) (fields : ℕ → ℕ) (e : Expression) → eval globals fields (any_nulls e) ≡ eval globals fields e }
    ensures constant { (e : Expression) → const_value (any_nulls e) ≡ const_value e }
{}

/// The phases over what a plan holds of segments and initialisers are those over the segments and
/// initialisers.
pub fn held_phase_laws()
    ensures globals { (fields : ℕ → ℕ) (known : List Value) (initialisers : List Expression)
        → values_after fields known (map any_nulls initialisers) ≡ values_after fields known initialisers }
    ensures data { (globals : List Value) (fields : ℕ → ℕ) (imported : List (List ℕ)) (defined : List ℕ) (active : List ActiveSegment)
        → segments_phase (offset_over globals fields) imported defined (map held_segment active) ≡ segments_phase (offset_over globals fields) imported defined active }
    ensures elements { (globals : List Value) (fields : ℕ → ℕ) (imported : List (List Value)) (tables : List DefinedTable) (elements : List Element)
        → elements_phase globals fields imported (map held_table tables) (held_elements elements) ≡ elements_phase globals fields imported tables (active_elements elements) }
{}

/// A constant value is the value of the expression, over any globals and types.
pub fn constant_value_law()
    ensures { (globals : List Value) (fields : ℕ → ℕ) (e : Expression) (v : Value) → const_value e ≡ Some v → eval globals fields e ≡ Some v }
{}

/// An expression of a class has a value of that class, where the visible globals have values of theirs.
pub fn typed_value_law()
    ensures { (l : Lists) (visible : List GlobalType) (globals : List Value) → HaveClasses globals visible → (e : Expression) (c : Class) → HasClass l visible e c
        → IsSomeAnd (eval globals (field_count l) e) (λ v. IsOfClass v c) }
{}

/// The globals of a module that keeps the listed rules have values of their classes, where the
/// imported ones have; over these each initialiser, offset and item has a value of its class, so
/// nothing that it leaves is null or 0 because a value is missing.
pub fn module_value_laws()
    ensures globals { (m : Module) (imported : List Value) → Keeps m → (let l = lists_of_module m in AreImported l imported
        → HaveClasses (all_globals l imported) l.global_types) }
    ensures values { (m : Module) (imported : List Value) → Keeps m → (let l = lists_of_module m in AreImported l imported
        → HaveValues l (all_globals l imported)) }
{}
