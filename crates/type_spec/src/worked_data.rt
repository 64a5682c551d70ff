//! Worked examples of the definitions: each clause computes.

ghost use Rattle.std.specs.Prelude.{◌≡◌, ℕ, ◌+◌, [], ◌∷◌, true, false, Some, None};
ghost use Rattle.wasm_spec.specs.TypeData.{I32, Ref, Concrete, Abstract, Val, I8, Func, Struct, Exn, Cont, map_sub_type, map_function, function_edges, sub_type_edges};
ghost use Rattle.type_spec.specs.Names.{Named, FuncName, StructName, index_of, named};

use wasm_spec::AbstractHeapType;

/// Edges come in one order: results after parameters, a supertype first, a function type before the fields.
pub fn worked_edges()
    ensures function { function_edges (λ (i : ℕ). i) (record {
      params = I32 ∷ Ref (record { nullable = true; heap = Concrete 3 }) ∷ [];
      results = Ref (record { nullable = false; heap = Concrete 8 }) ∷ Ref (record { nullable = true; heap = Abstract AbstractHeapType.Func }) ∷ [];
    }) ≡ 3 ∷ 8 ∷ [] }
    ensures exception { sub_type_edges (λ (i : ℕ). i) (record {
      is_final = false;
      supertype = Some 1;
      composite = record {
        inner = Exn (record {
          function = 2;
          fields = record { element = Val (Ref (record { nullable = true; heap = Concrete 5 })); mutable = true }
              ∷ record { element = I8; mutable = true } ∷ [];
        });
        shared = false;
      };
    }) ≡ 1 ∷ 2 ∷ 5 ∷ [] }
    ensures by_name { sub_type_edges (index_of {R = ℕ}) (record {
      is_final = true;
      supertype = None;
      composite = record {
        inner = Struct (record {
          element = Val (Ref (record { nullable = true; heap = Concrete (record { kind = FuncName; index = 5 }) }));
          mutable = true;
        } ∷ []);
        shared = false;
      };
    }) ≡ 5 ∷ [] }
{}

/// Each name is replaced, and all else stays.
pub fn worked_maps()
    ensures function { map_function (λ (i : ℕ). i + 10) (record {
      params = I32 ∷ Ref (record { nullable = true; heap = Concrete 3 }) ∷ [];
      results = Ref (record { nullable = true; heap = Abstract AbstractHeapType.Func }) ∷ [];
    }) ≡ record {
      params = I32 ∷ Ref (record { nullable = true; heap = Concrete 13 }) ∷ [];
      results = Ref (record { nullable = true; heap = Abstract AbstractHeapType.Func }) ∷ [];
    } }
    ensures kinds_are_told { map_sub_type {H' = Named ℕ} (λ (i : ℕ). record { kind = StructName; index = i + 1 }) (λ (i : ℕ). i + 1) (record {
      is_final = true;
      supertype = Some 4;
      composite = record {
        inner = Struct (record { element = Val (Ref (record { nullable = true; heap = Concrete 5 })); mutable = false } ∷ []);
        shared = false;
      };
    }) ≡ record {
      is_final = true;
      supertype = Some 5;
      composite = record {
        inner = Struct (record {
          element = Val (Ref (record { nullable = true; heap = Concrete (record { kind = StructName; index = 6 }) }));
          mutable = false;
        } ∷ []);
        shared = false;
      };
    } }
    ensures continuation { map_sub_type (λ (i : ℕ). i) (λ (i : ℕ). i + 1) (record {
      is_final = true;
      supertype = None;
      composite = record { inner = Cont 7; shared = false };
    }) ≡ record { is_final = true; supertype = None; composite = record { inner = Cont 8; shared = false } } }
{}
