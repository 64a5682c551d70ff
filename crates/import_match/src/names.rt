//! The two names of a definition.

ghost use Rattle.std.specs.Prelude.{◌≡◌, IfOk, OnOk};
ghost use Rattle.std.specs.String.{string_bytes};
ghost use Rattle.import_match.specs.Digest.{digest_of};

use std::alloc::{AllocError, Global};
use std::hash::{DefaultHasher, Hasher};

/// The name of a module, and the name of an entity there. They are ordered by their digests, and
/// where these are equal by their bytes.
#[derive(Drop, PartialEq, Eq, PartialOrd, Ord)]
pub(crate) struct DefinitionNames {
    digest: u64,
    pub(crate) from: String,
    pub(crate) own: String,
    ghost digested: { digest ≡ digest_of (string_bytes from) (string_bytes own) },
}

/// A digest of two names, by SipHash: of the first, a byte that no text has, and the second.
fn digest_of(from: &str, own: &str) -> u64
    ensures { result ≡ digest_of from.now own.now }
{
    let mut hasher = DefaultHasher::new();
    hasher.write(from.as_bytes());
    hasher.write(&[0xff]);
    hasher.write(own.as_bytes());
    hasher.finish()
}

fn copy(to: &mut String, text: &str) -> Result<(), AllocError>
    ensures { OnOk result (string_bytes to.new ≡ text.now) }
{
    to.clear();
    to.push_str(text)
}

impl DefinitionNames {
    ghost use Rattle.import_match.specs.Definitions.{names_of};

    /// Two empty names.
    pub(crate) fn new(alloc: Global) -> DefinitionNames {
        DefinitionNames {
            digest: digest_of("", ""),
            from: String::new(alloc),
            own: String::new(alloc),
        }
    }

    /// A copy of two names.
    pub(crate) fn of(alloc: Global, from: &str, own: &str) -> Result<DefinitionNames, AllocError>
        ensures { IfOk result (λ names. names_of names ≡ (from.now, own.now)) }
    {
        Ok(DefinitionNames {
            digest: digest_of(from, own),
            from: String::from_str(alloc, from)?,
            own: String::from_str(alloc, own)?,
        })
    }

    /// Replaces the names by others, in the same memory.
    pub(crate) fn set(&mut self, from: &str, own: &str) -> Result<(), AllocError>
        ensures { OnOk result (names_of self.new ≡ (from.now, own.now)) }
    {
        let first = copy(&mut self.from, from);
        let second = copy(&mut self.own, own);
        self.digest = digest_of(self.from.as_str(), self.own.as_str());
        first?;
        second
    }
}
