//! Laws of lists of groups. Each function is the proof of its clause.

ghost use Rattle.std.specs.Prelude.{◌≡◌, ◌↔◌, ℕ, List, true};
ghost use Rattle.wasm_spec.specs.TypeData.{Group};
ghost use Rattle.type_spec.specs.Equality.{Home, SameDown, SameGroup, SameType, same_type, canonical};

/// Where numbers of earlier types are equal exactly for equal types, groups of one list or of two
/// have equal canonical forms exactly where they are equal.
pub fn canonical_law()
    ensures { (depth : ℕ) (ms ns : List (Group ℕ ℕ)) (number number' : ℕ → ℕ)
        → ((i j : ℕ) → (number i ≡ number' j) ↔ SameDown depth ms ns i j)
        → (g h : Home) → (canonical number g ≡ canonical number' h) ↔ SameGroup (SameDown depth ms ns) g h }
{}

/// The test of equality decides it.
pub fn decided_law()
    ensures { (ms ns : List (Group ℕ ℕ)) (i j : ℕ) → (same_type ms ns i j ≡ true) ↔ SameType ms ns i j }
{}

/// Equality of types is an equivalence, within a list and across lists. No depth makes more types
/// equal than the depth that the first type's position gives.
pub fn equivalence_law()
    ensures itself { (ms : List (Group ℕ ℕ)) (i : ℕ) → SameType ms ms i i }
    ensures turned { (ms ns : List (Group ℕ ℕ)) (i j : ℕ) → SameType ms ns i j → SameType ns ms j i }
    ensures chained { (ms ns ls : List (Group ℕ ℕ)) (i j k : ℕ) → SameType ms ns i j → SameType ns ls j k → SameType ms ls i k }
    ensures deep { (depth : ℕ) (ms ns : List (Group ℕ ℕ)) (i j : ℕ) → SameDown depth ms ns i j → SameType ms ns i j }
{}
