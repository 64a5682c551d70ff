//! A digest of many names.

ghost use Rattle.std.specs.Prelude.{◌≡◌, ◌≤◌, take};
ghost use Rattle.std.specs.Hash.DefaultHasher as sip;

use std::hash::{DefaultHasher, Hasher};
use std::marker::Model;

// How many bytes of names are buffered before they are hashed: the hasher takes eight at once, and
// fewer one by one.
const MOST_GATHERED: usize = 256;

/// SipHash of concatenated names. A contract views it as the state of the hasher that was fed them.
#[derive(Drop)]
pub struct NameDigest {
    hasher: DefaultHasher,
    gathered: [u8; MOST_GATHERED],
    count: usize,
}

impl Model for NameDigest {
    ghost use Rattle.std.specs.Prelude.{◌≤◌, take};
    ghost use Rattle.std.specs.declared.hash.DefaultHasher.{DefaultHasher};
    ghost use Rattle.std.specs.Hash.DefaultHasher.{write};

    ghost Value = { DefaultHasher };

    ghost view = { λ d. write d.hasher (take d.count d.gathered) };

    ghost invariant = { λ d. d.count ≤ 256 };
}

impl NameDigest {
    /// The digest of no name.
    #[tactic(auto, using(crate::proofs::NamesGathered::written))]
    pub fn new() -> Self
        ensures { result ≡ sip.initial }
    {
        NameDigest {
            hasher: DefaultHasher::new(),
            gathered: [0; MOST_GATHERED],
            count: 0,
        }
    }

    /// Adds a name.
    pub fn write(&mut self, name: &[u8])
        ensures { self.new ≡ sip.write self.old name.now }
    {
        self.count = gather(&mut self.hasher, &mut self.gathered, self.count, name);
    }

    /// The digest of the names.
    pub fn finish(&self) -> u64
        ensures { result ≡ sip.finish self.now }
    {
        let mut hasher = self.hasher;
        hasher.write(&self.gathered[..self.count]);
        hasher.finish()
    }
}

// Buffers a name after those in the buffer, and returns how many bytes are then buffered. Where the
// name does not fit, the hasher takes them all.
#[tactic(auto, using(crate::proofs::NamesGathered::written))]
fn gather(
    hasher: &mut DefaultHasher,
    gathered: &mut [u8; MOST_GATHERED],
    count: usize,
    name: &[u8],
) -> usize
    requires { count ≤ 256 }
    ensures within { result ≤ 256 }
    ensures taken { sip.write hasher.new (take result gathered.new) ≡ sip.write (sip.write hasher.old (take count gathered.old)) name.now }
{
    if name.len() > MOST_GATHERED - count {
        hasher.write(&gathered[..count]);
        hasher.write(name);
        return 0;
    }
    let end = count + name.len();
    gathered[count..end].copy_from_slice(name);
    end
}
