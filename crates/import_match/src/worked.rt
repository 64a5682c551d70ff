//! Worked examples of the definitions. Each function has an empty body; its clauses state what a
//! definition gives.

ghost use Rattle.std.specs.Prelude.{◌≡◌, [], ◌∷◌, true, false, Some, None, Ok, Err};
ghost use Rattle.import_match.specs.declared.error.LinkError.TheVariants as refused;
ghost use Rattle.import_match.specs.declared.error.Mismatch.TheVariants as rule;
ghost use Rattle.import_match.specs.Resolving.{resolved};
ghost use Rattle.import_match.specs.Rules.{mismatch};
ghost use Rattle.import_match.specs.Worked.{memory, global};

use wasm_types::WasmValType;

/// The import requires a memory of one page at least and two at most.
pub fn worked_memories()
    ensures within { mismatch (memory 2 (Some 2)) (memory 1 (Some 2)) ≡ None }
    ensures open { mismatch (memory 1 None) (memory 1 (Some 2)) ≡ Some rule.MemoryMax }
    ensures small { mismatch (memory 0 (Some 2)) (memory 1 (Some 2)) ≡ Some rule.MemoryMin }
    ensures first { mismatch (memory 0 None) (memory 1 (Some 2)) ≡ Some rule.MemoryMin }
    ensures any { mismatch (memory 1 None) (memory 1 None) ≡ None }
{}

/// The import requires a global of 32 bits that cannot be written.
pub fn worked_imports()
    ensures given { resolved (global WasmValType.I32 false ∷ []) (global WasmValType.I32 false ∷ []) ≡ Ok (0 ∷ []) }
    ensures mutable { resolved (global WasmValType.I32 true ∷ []) (global WasmValType.I32 false ∷ []) ≡ Err (refused.Mismatch 0 rule.GlobalMutability) }
    ensures wide { resolved (global WasmValType.I64 false ∷ []) (global WasmValType.I32 false ∷ []) ≡ Err (refused.Mismatch 0 rule.GlobalType) }
    ensures missing { resolved [] (global WasmValType.I32 false ∷ []) ≡ Err (refused.Missing 0) }
{}
