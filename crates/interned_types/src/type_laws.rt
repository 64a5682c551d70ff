//! Laws of a module's types. Each function is the proof of its clauses.

ghost use Rattle.std.specs.Prelude.{◌≡◌, ◌<◌, ℕ, List, length, get_or};
ghost use Rattle.wasm_spec.specs.TypeData.{Group};
ghost use Rattle.type_spec.specs.Interned.{kind_of_type, kind_at, composite_at, taken};
ghost use Rattle.type_spec.specs.Taken.{NameEarlier};

/// The interned type at the index of a declared type is of the declared type's kind.
pub fn declared_kind_law()
    ensures { (gs : List (Group ℕ ℕ)) → NameEarlier 0 gs → (i : ℕ) → i < length (taken gs).declared
        → kind_of_type (composite_at (taken gs).built.types (get_or (taken gs).declared i 0)) ≡ kind_at gs i }
{}
