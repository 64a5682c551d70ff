//! Laws of the definitions, which follow from the reader.

ghost use Rattle.std.specs.Prelude.{◌≡◌, ℕ, List};
ghost use Rattle.wasm_spec.specs.declared.operators.What.{What};
ghost use Rattle.wasm_spec.specs.Module.{Module};
ghost use Rattle.wasm_spec.specs.Grammar.{Spells, Stops};
ghost use Rattle.wasm_spec.specs.Interfaces.{HasNoInterfaceTypes};

/// Bytes spell at most one module, and where they do, reading does not stop, unless the module has
/// a section of interface types.
pub fn spelling_is_unique()
    ensures one_module { (bytes : List ℕ) (m n : Module) → Spells bytes m → Spells bytes n → m ≡ n }
    ensures spelled_or_stopped { (bytes : List ℕ) (m : Module) (what : What) → Spells bytes m → HasNoInterfaceTypes m → ¬ Stops bytes what }
{}
