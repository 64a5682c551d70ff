//! Laws of registries. Each function is the proof of its clauses.

ghost use Rattle.std.specs.Prelude.{◌≡◌, ◌<◌, ◌↔◌, ℕ, Bool, List, length};
ghost use Rattle.wasm_spec.specs.TypeData.{Group};
ghost use Rattle.type_spec.specs.Interned.{interned};
ghost use Rattle.type_spec.specs.Taken.{NameEarlier};
ghost use Rattle.module_types.specs.Builder.{BuilderState, builder_view};
ghost use Rattle.module_types.specs.ListGroups.{IsWellNamed};
ghost use Rattle.module_types.specs.TypeList.{TypeList};
ghost use Rattle.type_registry.specs.Registry.{Registry, empty, index_at};
ghost use Rattle.type_registry.specs.Changes.{registered, released};
ghost use Rattle.module_types.specs.Listed.{Listed, list_of};
ghost use Rattle.type_registry.specs.Standing.{GroupsAreSound, LiveWhereHeld, MayRegister, Stands, TellsTypes};
ghost use Rattle.type_registry.specs.Balanced.{IsBalanced};

use module_types::well_named_law;
use wasm_types::equality_law;

/// A list whose groups are consecutive and name types by their kinds may be registered, and so may
/// the list of a builder that holds the interned list.
pub fn listed_law()
    ensures listed { (l : TypeList) → IsWellNamed (list_of l) → length l.types < 4294967295 → Listed l }
    ensures built { (s : BuilderState) (ms : List (Group ℕ ℕ)) (tags : List ℕ) (startup : Bool) → NameEarlier 0 ms
        → (builder_view s).built ≡ interned ms tags startup → length s.list.types < 4294967295 → Listed s.list }
{
    well_named_law();
}

/// Types of two held modules have one index exactly where they are equal by group and position.
pub fn same_law()
    ensures { (r : Registry) (a b : ℕ) (l k : TypeList) → Listed l → Listed k → Stands r a l → Stands r b k → TellsTypes r a l b k }
{}

/// The types of two held modules have one index where they have one in another registry, whatever
/// was registered and in which order.
pub fn order_law()
    ensures { (r s : Registry) (a b c d : ℕ) (l k : TypeList) → Listed l → Listed k → Stands r a l → Stands r b k → Stands s c l → Stands s d k
        → (i j : ℕ) → i < length l.types → j < length k.types → (index_at r a i ≡ index_at r b j) ↔ (index_at s c i ≡ index_at s d j) }
{}

/// Kept groups are told apart in a registry that holds nothing, once a module is registered, and
/// once one is released.
pub fn sound_law()
    ensures empty { (n : ℕ) → GroupsAreSound (empty n).groups }
    ensures registered { (r : Registry) (l : TypeList) → MayRegister r l → GroupsAreSound (registered r l).groups }
    ensures released { (r : Registry) (key : ℕ) → GroupsAreSound r.groups → GroupsAreSound (released r key).groups }
{
    equality_law();
}

/// A module that is registered is held under its key, and each other held module remains held.
pub fn registered_law()
    ensures itself { (r : Registry) (l : TypeList) → MayRegister r l → Stands (registered r l) r.registrations l }
    ensures others { (r : Registry) (l k : TypeList) (key : ℕ) → MayRegister r l → (key ≡ r.registrations → ⊥) → Stands r key k
        → Stands (registered r l) key k }
{
    equality_law();
}

/// Held modules and kept groups agree in a registry that holds nothing, once a module is
/// registered, and once one is released. While they agree, an index is live exactly where the list
/// of a held module has it. A held module remains held where another one is released.
pub fn balanced_law()
    ensures empty { (n : ℕ) → IsBalanced (empty n) }
    ensures registered { (r : Registry) (l : TypeList) → MayRegister r l → IsBalanced r → IsBalanced (registered r l) }
    ensures released { (r : Registry) (key : ℕ) → IsBalanced r → IsBalanced (released r key) }
    ensures live { (r : Registry) → IsBalanced r → LiveWhereHeld r }
    ensures others { (r : Registry) (key k : ℕ) (l : TypeList) → IsBalanced r → (k ≡ key → ⊥) → Stands r k l → Stands (released r key) k l }
{
    equality_law();
}
