//! Worked examples of the definitions: each clause computes.

ghost use Rattle.std.specs.Prelude.{◌≡◌, [], ◌∷◌, ◌++◌, true, false, Some, None};
ghost use Rattle.wasm_spec.specs.TypeData.{Abstract, Concrete, Func, Exn, Val};
ghost use Rattle.type_spec.specs.Names.{FuncName};
ghost use Rattle.type_spec.specs.Equality.{same_type};
ghost use Rattle.type_spec.specs.Interned.{interned, taken, plain, startup_type};
ghost use Rattle.type_spec.specs.TakenGroups.{taken_groups};
ghost use Rattle.type_spec.specs.Worked.{function, twice, rings, longer, repeated, turned, itself, hollow, as_called, not_null, or_null};

use wasm_spec::AbstractHeapType;

/// When types are equal.
pub fn worked_equality()
    ensures copies { same_type twice twice 1 3 ≡ true }
    ensures other { same_type twice twice 1 4 ≡ false }
    ensures itself { same_type rings rings 0 3 ≡ true }
    ensures one_another { same_type rings rings 1 2 ≡ false }
    ensures in_a_group { same_type longer longer 0 1 ≡ false }
    ensures across { same_type twice longer 2 0 ≡ true }
{}

/// A group that is repeated is interned once, and one that differs in finality is another; both
/// have one trampoline.
pub fn worked_repeated()
    ensures types { (interned repeated [] false).types ≡ plain (Func (record { params = []; results = [] }))
        ∷ record { is_final = false; supertype = None; composite = record { inner = Func (record { params = []; results = [] }); shared = false } } ∷ [] }
    ensures groups { (interned repeated [] false).groups ≡ record { start = 0; end = 1 } ∷ record { start = 1; end = 2 } ∷ [] }
    ensures trampolines { (interned repeated [] false).trampolines ≡ Some 0 ∷ Some 0 ∷ [] }
    ensures declared { (taken repeated).declared ≡ 0 ∷ 0 ∷ 1 ∷ [] }
{}

/// A group without types is not interned.
pub fn worked_hollow()
    ensures groups { (interned hollow [] false).groups ≡ record { start = 0; end = 1 } ∷ record { start = 1; end = 2 } ∷ [] }
    ensures declared { (taken hollow).declared ≡ 0 ∷ 1 ∷ [] }
{}

/// Lists whose groups are interned equal in turn have one interned list, wherever the groups start.
/// In another order they have another.
pub fn worked_taken()
    ensures repeated { taken_groups repeated
        ≡ record { start = 0; members = function true [] ∷ [] } ∷ record { start = 2; members = function false [] ∷ [] } ∷ [] }
    ensures hollow { taken_groups hollow
        ≡ record { start = 0; members = function true [] ∷ [] } ∷ record { start = 1; members = function false [] ∷ [] } ∷ [] }
    ensures turned { taken_groups turned
        ≡ record { start = 0; members = function false [] ∷ [] } ∷ record { start = 1; members = function true [] ∷ [] } ∷ [] }
    ensures one { (taken repeated).built.types ≡ (taken hollow).built.types }
    ensures other { (taken turned).built.types
        ≡ record { is_final = false; supertype = None; composite = record { inner = Func (record { params = []; results = [] }); shared = false } }
        ∷ plain (Func (record { params = []; results = [] })) ∷ [] }
{}

/// A function with a reference as parameter has a separate trampoline, in a separate group.
pub fn worked_trampoline()
    ensures types { (interned itself [] false).types
        ≡ plain (Func (record { params = not_null (Concrete (record { kind = FuncName; index = 0 })) ∷ []; results = [] }))
        ∷ plain (Func (record { params = or_null (Abstract AbstractHeapType.Func) ∷ []; results = [] })) ∷ [] }
    ensures groups { (interned itself [] false).groups ≡ record { start = 0; end = 1 } ∷ record { start = 1; end = 2 } ∷ [] }
    ensures trampolines { (interned itself [] false).trampolines ≡ Some 1 ∷ Some 1 ∷ [] }
{}

/// A declared type that equals an appended trampoline is a separate type, whose trampoline is that
/// one.
pub fn worked_as_called()
    ensures declared { (taken as_called).declared ≡ 0 ∷ 2 ∷ [] }
    ensures trampolines { (interned as_called [] false).trampolines ≡ Some 1 ∷ Some 1 ∷ Some 1 ∷ [] }
{}

/// A function type has one exception type, which has its parameters. The startup type is last.
pub fn worked_exceptions()
    ensures types { (interned itself (0 ∷ 0 ∷ []) true).types ≡ (taken itself).built.types
        ++ plain (Exn (record { function = 0; fields = record { element = Val (not_null (Concrete (record { kind = FuncName; index = 0 }))); mutable = false } ∷ [] }))
        ∷ startup_type ∷ [] }
    ensures trampolines { (interned itself (0 ∷ 0 ∷ []) true).trampolines ≡ Some 1 ∷ Some 1 ∷ None ∷ None ∷ [] }
{}
