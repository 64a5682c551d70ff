//! The functions that escape, and their numbers.

ghost use Rattle.std.specs.Prelude.{◌≡◌, ◌↔◌, ◌≢◌, ◌<◌, ℕ, Bool, length, get_or, Contains, Some};
ghost use Rattle.std.specs.List.{AllPairs};
ghost use Rattle.wasm_spec.specs.Module.{Module, functions};
ghost use Rattle.rule_spec.specs.Lists.{Lists, lists_of_module};
ghost use Rattle.rule_spec.specs.Rules.{Keeps};
ghost use Rattle.init_plan.specs.declared.translation.ModuleTranslation.{ModuleTranslation};
ghost use Rattle.module_sections.specs.Causes.{first_cause, reference_number};
ghost use Rattle.module_sections.specs.Escapes.{references, escaping};
ghost use Rattle.module_sections.specs.Sections.{Escapes};

/// A function escapes where there is a cause for a reference to it. It is listed once, before those
/// whose first cause comes later.
pub fn escaping_functions_law()
    ensures caused { (debugged : Bool) (l : Lists) (f : ℕ) → Contains (escaping debugged l) f ↔ Contains (references debugged l) f }
    ensures once { (debugged : Bool) (l : Lists) → AllPairs (λ f g. f ≢ g) (escaping debugged l) }
    ensures in_order { (debugged : Bool) (l : Lists) → AllPairs (λ f g. first_cause debugged l f < first_cause debugged l g) (escaping debugged l) }
{}

/// In the translation of a module that keeps the rules, the functions that escape have the numbers
/// from 0 up to their count, in the order of their first causes. A function without a cause has the
/// reserved number.
pub fn escaping_numbers_law()
    ensures numbered { (debugged : Bool) (m : Module) (t : ModuleTranslation) → Escapes debugged m t
        → Keeps m → (k : ℕ) → k < t.module.num_escaped_funcs
        → reference_number t.module.functions (get_or (escaping debugged (lists_of_module m)) k 0) ≡ Some k }
    ensures others { (debugged : Bool) (m : Module) (t : ModuleTranslation) → Escapes debugged m t
        → (f : ℕ) → f < length (functions m) → ¬ (Contains (references debugged (lists_of_module m)) f)
        → reference_number t.module.functions f ≡ Some u32.MAX }
{}
