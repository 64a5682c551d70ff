//! What a trampoline passes for the types of a function, fed to a hasher without a list of it.

ghost use Rattle.std.specs.Prelude.{◌≡◌, ◌<◌, ◌^◌, ℕ, List, ◌∷◌, IfSome, IfNone, IsSome};
ghost use Rattle.std.specs.List.{fold};
ghost use Rattle.std.specs.Hash.FoldHasher as folding;
ghost use Rattle.wasm_types.specs.Tops.{top_of};
ghost use Rattle.wasm_types.specs.Views.{ref_in};
ghost use Rattle.module_types.specs.Passed.{code_of, code_of_top, words_of, fed_with};

use std::hash::{FoldHasher, Hasher};
use wasm_types::{WasmHeapTopType, WasmRefType, WasmValType};

// The code of what a trampoline passes for a reference type, below 16.
fn reference_code(ty: &WasmRefType) -> u64
    ensures code { result ≡ code_of_top (top_of ty.now.heap_type) }
    ensures below { result < 16 }
{
    match ty.heap_type.top() {
        WasmHeapTopType::Extern => 5,
        WasmHeapTopType::Any => 6,
        WasmHeapTopType::Func => 7,
        WasmHeapTopType::Exn => 8,
        WasmHeapTopType::Cont => 9,
    }
}

// The code of a value type that is no reference: the place of the variant, for which nothing is
// looked up.
#[inline(always)]
fn number_code(ty: &WasmValType) -> Option<u8>
    ensures code { IfSome result (λ code. code ≡ code_of ty.now) }
    ensures below { IfSome result (λ code. code < 16) }
    ensures none { IfNone result (IsSome (ref_in ty.now)) }
{
    match ty {
        WasmValType::I32 => Some(0),
        WasmValType::I64 => Some(1),
        WasmValType::F32 => Some(2),
        WasmValType::F64 => Some(3),
        WasmValType::V128 => Some(4),
        WasmValType::Ref(_) => None,
    }
}

// The code of what a trampoline passes for a value type, below 16.
#[inline(always)]
fn code(ty: &WasmValType) -> u64
    ensures code { result ≡ code_of ty.now }
    ensures below { result < 16 }
{
    match number_code(ty) {
        Some(code) => u64::from(code),
        None => reference_code(&ty.unwrap_ref_type()),
    }
}

// The word with one more code, of four bits. A full word is fed to the hasher, and a new one
// begins.
fn feed_code(hasher: &mut FoldHasher, word: u64, code: u64) -> u64
    requires word { word < 2 ^ 60 }
    requires code { code < 16 }
    ensures word { result < 2 ^ 60 }
    ensures fed { (cs : List ℕ) → fold folding.write hasher.new (words_of result cs) ≡ fold folding.write hasher.old (words_of word (code ∷ cs)) }
{
    let more = word * 16 + code;
    if more < 1 << 60 {
        return more;
    }
    hasher.write_u64(more);
    1
}

/// Feeds a hasher what a trampoline passes for each of the types: fifteen codes to a word, after a
/// leading 1 that marks how many codes there are.
pub(crate) fn feed(hasher: &mut FoldHasher, types: &[WasmValType])
    ensures { hasher.new ≡ fed_with hasher.old types.now }
{
    let mut word: u64 = 1;
    for ty in types {
        word = feed_code(hasher, word, code(ty));
    }
    hasher.write_u64(word);
}
