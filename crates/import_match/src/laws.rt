//! Laws of matching. Each function is the proof of its clauses.

ghost use Rattle.std.specs.Prelude.{◌≡◌, ◌↔◌, ◌<◌, ℕ, List, Some, None, All, length, slice_get};
ghost use Rattle.wasm_types.specs.declared.entity.EntityType.{EntityType};
ghost use Rattle.type_spec.specs.Equality.{SameType};
ghost use Rattle.module_types.specs.ListGroups.{list_groups};
ghost use Rattle.module_types.specs.TypeList.{TypeList};
ghost use Rattle.type_registry.specs.Registry.{Registry};
ghost use Rattle.module_types.specs.Listed.{Listed, list_of};
ghost use Rattle.type_registry.specs.Standing.{Stands};
ghost use Rattle.wasm_module.specs.Record.{record_of};
ghost use Rattle.import_match.specs.Rules.{mismatch, types_in};
ghost use Rattle.import_match.specs.Definitions.{Definition, TwoNames, found, AreOnce};
ghost use Rattle.import_match.specs.Matching.{Matches};
ghost use Rattle.import_match.specs.Linking.{engine_type, exports_of, wants_of, IsTypeBelow};
ghost use Rattle.import_match.specs.FunctionTypes.{function_of_type};
ghost use Rattle.import_match.specs.ModuleTypes.{types_of};

use type_registry::same_law;
use wasm_module::Module;

/// A definition breaks no rule exactly where it matches: types, index types, sharing, page sizes
/// and mutability are equal, and sizes are within the required ones.
pub fn matching_law()
    ensures { (have want : EntityType) → (mismatch have want ≡ None) ↔ Matches have want }
{}

/// Where no two definitions are under the same names, one is found by its two names exactly at its
/// number.
pub fn definition_law()
    ensures { (ds : List Definition) → AreOnce ds → (n : TwoNames) (i : ℕ) (t : EntityType)
        → (found ds n ≡ Some (i, t)) ↔ (slice_get ds i ≡ Some (n, t)) }
{}

/// While two modules are held in one registry, a function of one matches an import of the other
/// exactly where their types are equal by group and position.
pub fn function_law()
    ensures { (r : Registry) (a b : ℕ) (l k : TypeList) → Listed l → Listed k → Stands r a l → Stands r b k
        → (i j : ℕ) → i < length l.types → j < length k.types
        → (mismatch (engine_type r a (function_of_type i)) (engine_type r b (function_of_type j)) ≡ None)
        ↔ SameType (list_groups (list_of l)) (list_groups (list_of k)) i j }
{
    same_law();
}

/// Where all types that a module names are among the first so many of its list, so are those that
/// its exports and its imports name.
pub fn named_types_law()
    ensures exports { (m : Module) (from : List ℕ) (count : ℕ) → All (IsTypeBelow count) (types_of m)
        → All (λ (d : Definition). All (IsTypeBelow count) (types_in d.1)) (exports_of (record_of m) from) }
    ensures imports { (m : Module) (count : ℕ) → All (IsTypeBelow count) (types_of m)
        → All (λ (d : Definition). All (IsTypeBelow count) (types_in d.1)) (wants_of (record_of m)) }
{}
