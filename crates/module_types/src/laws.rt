//! Laws of interned lists. Each function is the proof of its clauses.

ghost use Rattle.std.specs.Prelude.{◌≡◌, ◌↔◌, ◌<◌, ℕ, Bool, List, [], ◌∷◌, ◌++◌, ◌+◌, length, get_or, slice_index, Some, None, IsSome, true};
ghost use Rattle.std.specs.List.{flat_map};
ghost use Rattle.wasm_spec.specs.TypeData.{Group, Func};
ghost use Rattle.wasm_spec.specs.Module.{Module};
ghost use Rattle.rule_spec.specs.Rules.{Keeps};
ghost use Rattle.type_spec.specs.Equality.{SameGroup, SameType};
ghost use Rattle.type_spec.specs.Interned.{Interned, Called, Built, empty, mapped, same_mapped, with_group, with_exception, with_startup};
ghost use Rattle.type_spec.specs.Interned.{composite_at, taken, interned};
ghost use Rattle.type_spec.specs.Taken.{NameEarlier, TakeEqual, SameLists};
ghost use Rattle.form_types.specs.Types.{TypesData};
ghost use Rattle.form_types.specs.Placed.{placed_groups};
ghost use Rattle.form_types.specs.Numbered.{AreNumbered};
ghost use Rattle.module_types.specs.Orderly.{IsOrderly};
ghost use Rattle.module_types.specs.TypeList.{trampoline_at};
ghost use Rattle.module_types.specs.Builder.{BuilderState, Builder, builder_view, new_builder, interns, excepts, starts};
ghost use Rattle.module_types.specs.Conversion.{group_of_id, members_of, interned_index, kinds_of, HoldsGroups};
ghost use Rattle.module_types.specs.Tied.{trampoline_in, HasTrampoline, HaveTrampolines, IsTied};
ghost use Rattle.module_types.specs.InTurn.{interns_declared, HasGroups, CanIntern};
ghost use Rattle.module_types.specs.ListGroups.{group_at, list_groups, span_at, IsWellNamed, EngineMap, TellTypes, TellTypesBefore, IsCompared, OneIndex, AreCompared};
ghost use Rattle.module_types.specs.Runs.{with_groups, runs, firsts, AllFilled};

use wasm_types::WasmRecGroup;

/// The groups of a builder are consecutive, from the first type to the last: those of the empty one
/// are, and each step keeps it.
pub fn ranges_law()
    ensures none { IsOrderly empty }
    ensures group { (b : Built) (ts : List Interned) → 0 < length ts → IsOrderly b → IsOrderly (with_group b ts) }
    ensures exception { (b : Built) (i : ℕ) → IsOrderly b → IsOrderly (with_exception b i) }
    ensures startup { (b : Built) → IsOrderly b → IsOrderly (with_startup b true) }
{}

/// Mapping a function type twice is mapping it once, and the test of mapped types distinguishes
/// them.
pub fn trampolines_law()
    ensures once { (f : Called) → mapped (mapped f) ≡ mapped f }
    ensures told { (f g : Called) → (same_mapped (mapped f) g ≡ true) ↔ (mapped f ≡ g) }
{}

/// Functions of a builder's list have one trampoline exactly where their mapped types are equal.
pub fn one_trampoline_law()
    ensures none { IsTied empty }
    ensures group { (b : Built) (ts : List Interned) → IsTied b → IsTied (with_group b ts) }
    ensures exception { (b : Built) (i : ℕ) → IsTied b → IsTied (with_exception b i) }
    ensures startup { (b : Built) → IsTied b → IsTied (with_startup b true) }
    ensures taken { (ms : List (Group ℕ ℕ)) → IsTied (taken ms).built }
    ensures interned { (ms : List (Group ℕ ℕ)) (tags : List ℕ) (startup : Bool) → IsTied (interned ms tags startup) }
    ensures one { (b : Built) → IsTied b → (i j k l : ℕ) (f g : Called) → composite_at b.types i ≡ Func f → composite_at b.types j ≡ Func g
        → trampoline_in b i ≡ Some k → trampoline_in b j ≡ Some l → (k ≡ l) ↔ (mapped f ≡ mapped g) }
{}

/// Each function type that is taken of a module has a trampoline, also in its interned list. In a
/// builder each function member of an interned group has one, and keeps it. So `trampoline_type`
/// may be called with it.
pub fn has_trampoline_law()
    ensures taken { (ms : List (Group ℕ ℕ)) → HaveTrampolines (length (taken ms).built.types) (taken ms).built }
    ensures interned { (ms : List (Group ℕ ℕ)) (tags : List ℕ) (startup : Bool) → HaveTrampolines (length (taken ms).built.types) (interned ms tags startup) }
    ensures member { (b : Builder) (id : ℕ) (ts : List Interned) → IsTied b.built → b.ids id ≡ None → (i : ℕ) (f : Called) → composite_at ts i ≡ Func f
        → HasTrampoline (interns b id ts).built (length b.built.types + i) }
    ensures group { (b : Builder) (id : ℕ) (ts : List Interned) (i : ℕ) → HasTrampoline b.built i → HasTrampoline (interns b id ts).built i }
    ensures exception { (b : Builder) (k i : ℕ) → HasTrampoline b.built i → HasTrampoline (excepts b k).built i }
    ensures startup { (b : Builder) (i : ℕ) → HasTrampoline b.built i → HasTrampoline (starts b).built i }
    ensures shown { (b : BuilderState) (i : ℕ) → HasTrampoline (builder_view b).built i → IsSome (trampoline_at b.list i) }
{}

/// After one more group is appended, each id that a builder holds names the group that was interned
/// under it. This needs that it did so before, and that the new group has members of the same
/// kinds.
pub fn holds_law()
    ensures none { (t : TypesData) (validator : ℕ) → HoldsGroups t (new_builder validator) }
    ensures more { (t : TypesData) (b : Builder) (k : ℕ) (ts : List Interned)
        → HoldsGroups t b → kinds_of ts ≡ kinds_of (members_of t k) → HoldsGroups t (interns b k ts) }
{}

/// A builder that interned groups in turn holds those whose ids came for the first time, in that
/// order, each with its trampolines.
pub fn runs_law()
    ensures { (validator : ℕ) (calls : List (ℕ × List Interned)) → (runs (new_builder validator) calls).built ≡ with_groups empty (firsts [] calls) }
{}

/// Two lists of groups that are not empty are equal exactly where what is built of them has equal
/// types and equal groups.
pub fn built_groups_law()
    ensures { (tss uss : List (List Interned)) → AllFilled tss → AllFilled uss
        → (tss ≡ uss) ↔ (((with_groups empty tss).types ≡ (with_groups empty uss).types) × ((with_groups empty tss).groups ≡ (with_groups empty uss).groups)) }
{}

/// In a module that keeps the rules each reference names a type of its own group or of an earlier
/// one.
pub fn earlier_law()
    ensures { (m : Module) → Keeps m → NameEarlier 0 (placed_groups m) }
{}

/// A builder that interned the declared groups of a module in turn holds what the definition takes.
/// It holds each declared type at the index that the definition gives it. So two declared types
/// have one interned index exactly where they are equal.
pub fn declared_groups_law()
    ensures taken { (m : Module) (t : TypesData) → AreNumbered m t → NameEarlier 0 (placed_groups m) → (validator : ℕ)
        → HasGroups t (interns_declared t (new_builder validator) 0 (placed_groups m)) (taken (placed_groups m)) }
    ensures told { (m : Module) (t : TypesData) → AreNumbered m t → NameEarlier 0 (placed_groups m) → (validator i j : ℕ)
        → i < length t.declared → j < length t.declared
        → (interned_index t (interns_declared t (new_builder validator) 0 (placed_groups m)) (slice_index t.declared i)
        ≡ interned_index t (interns_declared t (new_builder validator) 0 (placed_groups m)) (slice_index t.declared j))
        ↔ SameType (placed_groups m) (placed_groups m) i j }
{}

/// After the declared groups before it each group can be interned.
pub fn next_group_law()
    ensures { (m : Module) (t : TypesData) → AreNumbered m t → NameEarlier 0 (placed_groups m) → (validator : ℕ)
        (gs rest : List (Group ℕ ℕ)) (g : Group ℕ ℕ) → placed_groups m ≡ gs ++ g ∷ rest → 0 < length g
        → CanIntern t (interns_declared t (new_builder validator) 0 gs) (group_of_id t (slice_index t.declared (length (flat_map (λ h. h) gs)))) }
{}

/// Two declared types have one interned index exactly where they are equal.
pub fn declared_law()
    ensures { (ms : List (Group ℕ ℕ)) → NameEarlier 0 ms → (i j : ℕ) → i < length (taken ms).declared → j < length (taken ms).declared
        → (get_or (taken ms).declared i 0 ≡ get_or (taken ms).declared j 0) ↔ SameType ms ms i j }
{}

/// Each declared type is equal to the interned type at its index.
pub fn same_type_law()
    ensures { (ms : List (Group ℕ ℕ)) → NameEarlier 0 ms → (tags : List ℕ) (startup : Bool) (i : ℕ) → i < length (taken ms).declared
        → SameType ms (list_groups (interned ms tags startup)) i (get_or (taken ms).declared i 0) }
{}

/// Before exception types and the startup type are appended, the interned lists of two modules are
/// equal exactly where the groups taken of the two are equally many and equal in turn.
pub fn equal_lists_law()
    ensures { (ms ns : List (Group ℕ ℕ)) → NameEarlier 0 ms → NameEarlier 0 ns
        → SameLists (taken ms).built (taken ns).built ↔ TakeEqual ms ns }
{}

/// In the interned list of a module each reference names a type of its own group or of an earlier
/// one, by its kind.
pub fn well_named_law()
    ensures { (ms : List (Group ℕ ℕ)) → NameEarlier 0 ms → (tags : List ℕ) (startup : Bool) → IsWellNamed (interned ms tags startup) }
{}

/// Where the engine's indices of two lists' types are equal exactly for equal types, canonical
/// forms of a group of each, over its own range, are equal exactly where the groups are.
pub fn compared_groups_law()
    ensures { (b b' : Built) → IsWellNamed b → IsWellNamed b' → (engine engine' : EngineMap) → TellTypes b b' engine engine'
        → (k l : ℕ) (x x' y y' : WasmRecGroup) → IsCompared b engine k x x' → IsCompared b' engine' l y y'
        → (x' ≡ y') ↔ SameGroup (λ i j. SameType (list_groups b) (list_groups b') i j) (group_at b k) (group_at b' l) }
{}

/// For canonical groups of two groups it is enough that the engine's indices distinguish the types
/// before the two.
pub fn compared_before_law()
    ensures { (b b' : Built) → IsWellNamed b → IsWellNamed b' → (engine engine' : EngineMap) (k l : ℕ)
        → TellTypesBefore b b' engine engine' (span_at b k).start (span_at b' l).start
        → (x x' y y' : WasmRecGroup) → IsCompared b engine k x x' → IsCompared b' engine' l y y'
        → (x' ≡ y') ↔ SameGroup (λ i j. SameType (list_groups b) (list_groups b') i j) (group_at b k) (group_at b' l) }
{}

/// Where types of two lists have one engine's index exactly if they are at one position of one
/// canonical group, the indices distinguish all types.
pub fn told_by_forms_law()
    ensures { (b b' : Built) → IsWellNamed b → IsWellNamed b' → (engine engine' : EngineMap) (olds forms olds' forms' : ℕ → WasmRecGroup)
        → AreCompared b engine olds forms → AreCompared b' engine' olds' forms' → OneIndex b b' engine engine' forms forms'
        → TellTypes b b' engine engine' }
{}
