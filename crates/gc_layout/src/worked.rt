//! Worked examples of the definitions: each clause computes.

ghost use Rattle.std.specs.Prelude.{◌≡◌, [], ◌∷◌, true, false};
ghost use Rattle.gc_layout.specs.Arrays.{array_layout_of};
ghost use Rattle.gc_layout.specs.Fields.{struct_layout_of, exn_layout_of};
ghost use Rattle.gc_layout.specs.Worked.{field_of, fields_of, data_at, object_at};
ghost use Rattle.wasm_types.specs.declared.field.WasmStorageType.TheVariants.{I8, I16, Val};
ghost use Rattle.wasm_types.specs.declared.value.WasmValType.TheVariants.{I32, I64, V128, Ref};
ghost use Rattle.wasm_types.specs.declared.heap.WasmHeapType.TheVariants.{Any, I31};

use wasm_types::EngineOrModuleTypeIndex;

/// Fields after headers of 8 and of 24 bytes. Each is at the least multiple of its size; nothing
/// wraps at 2^32.
pub fn worked_fields()
    ensures none { struct_layout_of 8 [] ≡ record { size = 8; align = 8; fields = []; is_exception = false } }
    ensures small_after_large { struct_layout_of 8 (fields_of (I8 ∷ Val I32 ∷ I16 ∷ Val I64 ∷ [])) ≡ record {
      size = 32;
      align = 8;
      fields = data_at 8 ∷ data_at 12 ∷ data_at 16 ∷ data_at 24 ∷ [];
      is_exception = false;
    } }
    // A size of 32 + 4 bytes is rounded up to the alignment of the vector.
    ensures rounded { struct_layout_of 8 (fields_of (Val V128 ∷ Val I32 ∷ [])) ≡ record {
      size = 48;
      align = 16;
      fields = data_at 16 ∷ data_at 32 ∷ [];
      is_exception = false;
    } }
    // A reference to anything may point to an object; an i31 does not.
    ensures references { struct_layout_of 24 (fields_of (Val (Ref (record { nullable = true; heap_type = Any }))
        ∷ Val (Ref (record { nullable = true; heap_type = I31 })) ∷ [])) ≡ record {
          size = 32;
          align = 8;
          fields = object_at 24 ∷ data_at 28 ∷ [];
          is_exception = false;
        } }
    ensures past_four_gibibytes { struct_layout_of 4294967288 (fields_of (Val I64 ∷ I8 ∷ [])) ≡ record {
      size = 4294967304;
      align = 8;
      fields = data_at 4294967288 ∷ data_at 4294967296 ∷ [];
      is_exception = false;
    } }
{}

/// After the header of an exception are two indices of 4 bytes, and then the fields.
pub fn worked_exceptions(tag: EngineOrModuleTypeIndex)
    ensures counting { exn_layout_of 24 (record { func_ty = tag; fields = fields_of (Val I32 ∷ Val V128 ∷ []) }) ≡ record {
      size = 64;
      align = 16;
      fields = data_at 32 ∷ data_at 48 ∷ [];
      is_exception = true;
    } }
    ensures null { exn_layout_of 8 (record { func_ty = tag; fields = fields_of (Val I32 ∷ Val V128 ∷ []) }) ≡ record {
      size = 48;
      align = 16;
      fields = data_at 16 ∷ data_at 32 ∷ [];
      is_exception = true;
    } }
{}

/// Elements are after the header and a length of 4 bytes.
pub fn worked_arrays()
    ensures bytes { array_layout_of 24 (record { 0 = field_of I8 })
        ≡ record { base_size = 28; align = 8; elem_size = 1; elems_are_gc_refs = false } }
    ensures wide { array_layout_of 24 (record { 0 = field_of (Val I64) })
        ≡ record { base_size = 32; align = 8; elem_size = 8; elems_are_gc_refs = false } }
    ensures vectors { array_layout_of 8 (record { 0 = field_of (Val V128) })
        ≡ record { base_size = 16; align = 16; elem_size = 16; elems_are_gc_refs = false } }
    ensures objects { array_layout_of 8 (record { 0 = field_of (Val (Ref (record { nullable = false; heap_type = Any }))) })
        ≡ record { base_size = 12; align = 8; elem_size = 4; elems_are_gc_refs = true } }
{}
