//! What holds of every layout, and of the kinds of objects.

ghost use Rattle.std.specs.Prelude.{◌≡◌, ◌+◌, ◌<◌, ◌≤◌, ◌⊎◌, ◌↔◌, ℕ, Bool, List, length, map, take, Contains};
ghost use Rattle.std.specs.Int.{IsPowerOfTwo};
ghost use Rattle.gc_layout.specs.Arrays.{array_layout_of};
ghost use Rattle.gc_layout.specs.Fields.{fields_layout, fields_end, fields_align, offset_at, size_at, IsLeastMultiple};
ghost use Rattle.gc_layout.specs.Kinds.{MatchesKind, kinds_from};
ghost use Rattle.gc_layout.specs.Sizes.{field_size};
ghost use Rattle.gc_layout.specs.declared.kind.VMGcKind.{VMGcKind};
ghost use Rattle.wasm_types.specs.declared.aggregate.WasmArrayType.{WasmArrayType};
ghost use Rattle.wasm_types.specs.declared.field.WasmFieldType.{WasmFieldType};

/// Each field begins at the least multiple of its size that is not below the end of the fields
/// before it, and the size is the least multiple of the alignment that is not below the end of all.
/// Elements begin at the least multiple of their size that is not below the end of the length.
pub fn offsets_are_least_multiples()
    ensures offset { (header : ℕ) (fields : List WasmFieldType) (is_exception : Bool) (i : ℕ) → i < length fields
        → IsLeastMultiple (size_at fields i) (fields_end header (take i fields)) (offset_at (fields_layout header fields is_exception) i) }
    ensures size { (header : ℕ) (fields : List WasmFieldType) (is_exception : Bool)
        → IsLeastMultiple (fields_align fields) (fields_end header fields) (fields_layout header fields is_exception).size }
    ensures elements { (header : ℕ) (array : WasmArrayType)
        → IsLeastMultiple (field_size array.0) (header + 4) (array_layout_of header array).base_size }
{}

/// Fields are after the header, end before a later field begins, and end within the object.
pub fn fields_never_overlap()
    ensures behind { (header : ℕ) (fields : List WasmFieldType) (is_exception : Bool) (i : ℕ) → i < length fields
        → header ≤ offset_at (fields_layout header fields is_exception) i }
    ensures apart { (header : ℕ) (fields : List WasmFieldType) (is_exception : Bool) (i j : ℕ) → i < j → j < length fields
        → offset_at (fields_layout header fields is_exception) i + size_at fields i
        ≤ offset_at (fields_layout header fields is_exception) j }
    ensures within { (header : ℕ) (fields : List WasmFieldType) (is_exception : Bool) (i : ℕ) → i < length fields
        → offset_at (fields_layout header fields is_exception) i + size_at fields i
        ≤ (fields_layout header fields is_exception).size }
{}

/// After one header, lists of fields whose first sizes are the same have the same first offsets: so
/// a subtype has the fields of its supertype where the supertype has them.
pub fn prefixes_agree()
    ensures { (header : ℕ) (fields others : List WasmFieldType) (is_exception : Bool) (n : ℕ)
        → map field_size (take n fields) ≡ map field_size (take n others)
        → map (λ field. field.offset) (take n (fields_layout header fields is_exception).fields)
        ≡ map (λ field. field.offset) (take n (fields_layout header others is_exception).fields) }
{}

/// The alignment is the greatest of 8 and the sizes of the fields, and a power of two.
pub fn alignments_are_greatest()
    ensures at_least_eight { (fields : List WasmFieldType) → 8 ≤ fields_align fields }
    ensures of_each { (fields : List WasmFieldType) (i : ℕ) → i < length fields → size_at fields i ≤ fields_align fields }
    ensures one_of { (fields : List WasmFieldType)
        → (fields_align fields ≡ 8) ⊎ Contains (map field_size fields) (fields_align fields) }
    ensures power_of_two { (fields : List WasmFieldType) → IsPowerOfTwo (fields_align fields) }
{}

/// By the bits of their numbers the kinds are ordered as in the tree of subtypes: arrays and
/// structs are below eq, and eq below any; host values and exceptions are related to no other kind.
pub fn kinds_are_a_tree()
    ensures reflexive { (a : VMGcKind) → MatchesKind a a }
    ensures transitive { (a b c : VMGcKind) → MatchesKind a b → MatchesKind b c → MatchesKind a c }
    ensures antisymmetric { (a b : VMGcKind) → MatchesKind a b → MatchesKind b a → a ≡ b }
    ensures tree { (a b : VMGcKind) → MatchesKind a b ↔ Contains (kinds_from a) b }
{}
