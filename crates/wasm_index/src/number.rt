//! The number of an index, in four bytes that need no alignment.

ghost use Rattle.std.specs.Prelude.{◌≡◌, ◌<◌, ℕ, length, get_or, nat_eq, refl, Some};
ghost use Rattle.std.specs.Ordering.{nat_cmp};
ghost use Rattle.std.specs.Cmp.{partial_equiv_from_equiv, nat_eq_equiv, unsigned_po, nat_cmp_total, unsigned_ties, unsigned_Decides};
ghost use Rattle.std.specs.Hash as fed;
ghost use Rattle.std.specs.Hash.{same_Alike};
ghost use Rattle.std.specs.Int.{w32, from_le_bytes, to_le_bytes};
ghost use Rattle.std.proofs.lemmas.Nat.{le_bytes_4};

use std::cmp::Ordering;
use std::fmt;
use std::hash::{Hash, Hasher};
use std::marker::Model;

/// A number of 32 bits. Its bytes need no alignment, so an enum with one has five bytes.
#[derive(Clone, Copy)]
pub struct Number {
    bytes: [u8; 4],
}

impl Model for Number {
    ghost Value = { ℕ };

    ghost view = { λ n. from_le_bytes w32 n.bytes };

    ghost invariant = { λ n. (length n.bytes ≡ 4) × ((i : ℕ) → get_or n.bytes i 0 < 256) };

    ghost inverse = { λ n. record { bytes = to_le_bytes w32 n } };

    ghost inverse_ok = { λ n sound i. record { bytes = le_bytes_4 n.bytes (from_le_bytes w32 n.bytes) sound.0 sound.1 (λ _. from_le_bytes w32 n.bytes) i } };
}

impl Number {
    /// The number.
    #[inline(always)]
    pub fn of(number: u32) -> Number
        ensures { result ≡ number }
    {
        Number {
            bytes: number.to_le_bytes(),
        }
    }

    /// The value of the number.
    #[inline(always)]
    pub fn get(self) -> u32
        ensures { result ≡ self }
    {
        u32::from_le_bytes(self.bytes)
    }
}

impl PartialEq for Number {
    ghost eq = { nat_eq };

    ghost laws = { partial_equiv_from_equiv nat_eq_equiv };

    #[inline]
    fn eq(&self, other: &Number) -> bool {
        self.get() == other.get()
    }
}

impl Eq for Number {
    ghost laws = { nat_eq_equiv };
}

impl PartialOrd for Number {
    ghost partial_cmp = { λ x y. Some (nat_cmp x y) };

    ghost laws = { unsigned_po };

    #[inline]
    fn partial_cmp(&self, other: &Number) -> Option<Ordering> {
        Some(self.cmp(other))
    }
}

impl Ord for Number {
    ghost cmp = { nat_cmp };

    ghost total = { nat_cmp_total };

    ghost matches_partial_cmp = { λ x y. refl };

    ghost matches_eq = { unsigned_ties };

    #[inline]
    fn cmp(&self, other: &Number) -> Ordering {
        self.get().cmp(&other.get())
    }
}

impl Hash for Number {
    ghost hash_input = { fed.u32 };

    ghost respects_eq = { (same_Alike fed.u32 unsigned_Decides).fed };

    #[inline]
    fn hash<H: Hasher>(&self, state: &mut H) {
        self.get().hash(state);
    }
}

impl fmt::Debug for Number {
    fn fmt<W: fmt::Write>(&self, f: &mut fmt::Formatter<W>) -> fmt::Result {
        self.get().fmt(f)
    }
}
