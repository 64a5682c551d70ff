//! Who made a list of types.

ghost use Rattle.std.specs.Prelude.{◌≡◌};

use std::marker::Model;

/// The number of a validator, which its lists of types carry.
#[derive(Clone, Copy, Debug, PartialEq, Eq, PartialOrd, Ord, Hash)]
pub struct ValidatorId(pub u64);

/// What makes lists of types. It has a number.
#[derive(Debug, Drop)]
pub struct Validator {
    id: u64,
}

impl Model for Validator {
    ghost use Rattle.std.specs.Prelude.{ℕ};

    ghost Value = { ℕ };

    ghost view = { λ v. v.id };
}

impl Validator {
    /// The validator with this number.
    pub fn new(id: u64) -> Validator
        ensures { result ≡ id }
    {
        Validator { id }
    }

    /// Its number.
    pub fn id(&self) -> ValidatorId
        ensures { result.0 ≡ self.now }
    {
        ValidatorId(self.id)
    }
}
