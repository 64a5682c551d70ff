//! Worked examples of the definitions: each clause computes.

ghost use Rattle.std.specs.Prelude.{◌≡◌, [], ◌∷◌, codes, Some, None};
ghost use Rattle.std.specs.Int.{w32, from_le_bytes};
ghost use Rattle.vm_structs.specs.Fields.{offset_of, inner_offset_of, align_of, size_of, end_of};
ghost use Rattle.vm_structs.specs.Structs.{function_import, table_import, memory_import, tag_import, global_import, memory_definition, table_definition, global_definition, tag_definition, func_ref, store_context, static_context};

use crate::constants::{
    NUM_COMPONENT_CONTEXT_SLOTS, VM_ARRAY_CALL_HOST_FUNC_MAGIC, VM_LAZY_THREAD_FORCED,
    VMCONTEXT_MAGIC,
};

/// The sizes of the structs, where pointers have 8 bytes and where they have 4.
pub fn worked_sizes()
    ensures function_import { size_of function_import 8 ∷ size_of function_import 4 ∷ [] ≡ 24 ∷ 12 ∷ [] }
    ensures table_import { size_of table_import 8 ∷ size_of table_import 4 ∷ [] ≡ 24 ∷ 12 ∷ [] }
    ensures memory_import { size_of memory_import 8 ∷ size_of memory_import 4 ∷ [] ≡ 24 ∷ 12 ∷ [] }
    ensures tag_import { size_of tag_import 8 ∷ size_of tag_import 4 ∷ [] ≡ 24 ∷ 12 ∷ [] }
    ensures global_import { size_of global_import 8 ∷ size_of global_import 4 ∷ [] ≡ 24 ∷ 16 ∷ [] }
    ensures memory_definition { size_of memory_definition 8 ∷ size_of memory_definition 4 ∷ [] ≡ 16 ∷ 8 ∷ [] }
    ensures table_definition { size_of table_definition 8 ∷ size_of table_definition 4 ∷ [] ≡ 16 ∷ 8 ∷ [] }
    ensures global_definition { size_of global_definition 8 ∷ size_of global_definition 4 ∷ [] ≡ 16 ∷ 16 ∷ [] }
    ensures tag_definition { size_of tag_definition 8 ∷ size_of tag_definition 4 ∷ [] ≡ 4 ∷ 4 ∷ [] }
    ensures func_ref { size_of func_ref 8 ∷ size_of func_ref 4 ∷ [] ≡ 32 ∷ 16 ∷ [] }
    ensures store_context { size_of store_context 8 ∷ size_of store_context 4 ∷ [] ≡ 48 ∷ 32 ∷ [] }
    ensures static_context { end_of static_context 8 ∷ end_of static_context 4 ∷ [] ≡ 48 ∷ 24 ∷ [] }
{}

/// Fields after padding, names that no field has, and the alignment of a struct with wide numbers.
pub fn worked_fields()
    ensures after_a_number { offset_of func_ref (codes "vmctx") 8
        ∷ offset_of func_ref (codes "vmctx") 4 ∷ [] ≡ Some 24 ∷ Some 12 ∷ [] }
    ensures after_the_magic { offset_of static_context (codes "store_context") 8
        ∷ offset_of static_context (codes "store_context") 4 ∷ [] ≡ Some 8 ∷ Some 4 ∷ [] }
    ensures inner_struct { offset_of store_context (codes "gc_heap") 8
        ∷ offset_of store_context (codes "gc_heap") 4 ∷ [] ≡ Some 24 ∷ Some 20 ∷ [] }
    ensures within_the_inner_struct { inner_offset_of store_context (codes "gc_heap") memory_definition (codes "current_length") 8
        ∷ inner_offset_of store_context (codes "gc_heap") memory_definition (codes "current_length") 4 ∷ [] ≡ Some 32 ∷ Some 24 ∷ [] }
    ensures last { offset_of store_context (codes "last_wasm_exit_trampoline_fp") 8
        ∷ offset_of store_context (codes "last_wasm_exit_trampoline_fp") 4 ∷ [] ≡ Some 40 ∷ Some 28 ∷ [] }
    ensures no_such_field { offset_of tag_definition (codes "index") 8 ≡ None }
    ensures no_such_inner_field { inner_offset_of store_context (codes "gc_heap") memory_definition (codes "index") 8 ≡ None }
    ensures wide { align_of store_context 8 ∷ align_of store_context 4 ∷ [] ≡ 8 ∷ 8 ∷ [] }
    ensures narrow { align_of tag_definition 8 ∷ align_of func_ref 4 ∷ [] ≡ 4 ∷ 4 ∷ [] }
{}

/// The constants that the runtime and compiled code agree on. A number's lowest byte is written
/// first.
pub fn worked_constants()
    ensures slots { NUM_COMPONENT_CONTEXT_SLOTS ≡ 2 }
    ensures context { VMCONTEXT_MAGIC ≡ from_le_bytes w32 (codes "core") }
    ensures host_function { VM_ARRAY_CALL_HOST_FUNC_MAGIC ≡ from_le_bytes w32 (codes "ACHF") }
    ensures forced { VM_LAZY_THREAD_FORCED ≡ 1 }
{}
