//! How canonical groups are hashed.

ghost use Rattle.std.specs.Prelude.{◌≡◌, ◌<◌, ◌++◌, length};
ghost use Rattle.std.specs.Hash as fed;
ghost use Rattle.std.specs.List.{flat_map, fold};
ghost use Rattle.type_registry.specs.Hashing.{padded, first_state, write_whole, hash_of};

use module_types::ModuleTypes;
use std::hash::{BuildHasher, DefaultHasher, Hash, Hasher};
use wasm_types::WasmSubType;

/// SipHash that pads what is shorter than a word, since it reads a word at once and bytes one by
/// one. Padding makes no two types alike: the writes before a write determine how many bytes it
/// has.
#[derive(Clone, Copy)]
pub(crate) struct WordHasher {
    pub(crate) sip: DefaultHasher,
}

impl WordHasher {
    /// The first state.
    fn new() -> WordHasher
        ensures { result ≡ first_state }
    {
        WordHasher {
            sip: DefaultHasher::new(),
        }
    }
}

/// Bytes, and zeros up to a word.
fn padded(bytes: &[u8]) -> [u8; 8]
    requires { length bytes.now < 8 }
    ensures { result ≡ padded bytes.now }
{
    let mut word = [0; 8];
    for (place, byte) in bytes.iter().enumerate() {
        word[place] = *byte;
    }
    word
}

impl Hasher for WordHasher {
    ghost use Rattle.type_registry.specs.Hashing.{write_whole, hash_of};

    ghost write = { write_whole };

    ghost finish = { hash_of };

    fn finish(&self) -> u64 {
        self.sip.finish()
    }

    fn write(&mut self, bytes: &[u8]) {
        if bytes.len() < 8 {
            self.sip.write(&padded(bytes));
            return;
        }
        self.sip.write(bytes);
    }
}

/// Makes hashers of groups that are fed a seed first. Groups arrive module by module. Strangers who
/// know the earlier groups, and so the seed, choose them. So each group is hashed completely by
/// SipHash, for which no groups with one digest are known.
#[derive(Clone, Copy)]
pub(crate) struct GroupHashes {
    first: WordHasher,
}

impl GroupHashes {
    /// The hashes that begin from this seed.
    pub(crate) fn new(seed: u64) -> GroupHashes {
        let mut first = WordHasher::new();
        first.write_u64(seed);
        GroupHashes { first }
    }
}

impl BuildHasher for GroupHashes {
    type Hasher = WordHasher;

    ghost build_hasher = { λ s. s.first };

    fn build_hasher(&self) -> WordHasher {
        self.first
    }
}

/// The seed that follows another one: a digest of it and of all types of a module.
pub(crate) fn next_seed(seed: u64, types: &ModuleTypes) -> u64
    ensures { result ≡ hash_of (fold write_whole first_state (fed.u64 seed ++ flat_map ⟦<WasmSubType as Hash>⟧.hash_input types.now.types)) }
{
    let mut digest = WordHasher::new();
    digest.write_u64(seed);
    for (_index, ty) in types.wasm_types() {
        ty.hash(&mut digest);
    }
    digest.finish()
}
