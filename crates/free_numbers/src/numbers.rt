//! Which numbers are free.

ghost use Rattle.std.specs.Prelude.{◌≡◌, ◌↔◌, ◌<◌, ◌≤◌, [], length, get_or, set, IfOk, IfSome, IsSome};
ghost use Rattle.free_numbers.specs.Counts.{total, before, IsCounts};

use crate::levels::{change, find, levels_of};
use std::alloc::{AllocError, Global};
use std::marker::Model;

/// Numbers from 0 on, of which some are free.
#[derive(Drop)]
pub struct FreeNumbers {
    levels: Vec<Vec<u32>>,
    free: u32,
}

/// A contract views it as a 1 for each number that is free, and a 0 for each other.
impl Model for FreeNumbers {
    ghost use Rattle.std.specs.Prelude.{ℕ, List, ◌≡◌, ◌<◌, length};
    ghost use Rattle.free_numbers.specs.Counts.{total, IsCounts};
    ghost use Rattle.free_numbers.specs.Levels.{counts_of, lists_of, IsTree};

    ghost Value = { List ℕ };

    ghost view = { λ n. counts_of (lists_of n.levels.items) };

    ghost invariant = { λ n. IsTree (lists_of n.levels.items) × IsCounts (counts_of (lists_of n.levels.items))
        × (length (counts_of (lists_of n.levels.items)) < 4294967296) × (n.free ≡ total (counts_of (lists_of n.levels.items))) };
}

/// The sum of counts.
fn sum(counts: &[u32]) -> u32
    requires { total counts.now < 4294967296 }
    ensures { result ≡ total counts.now }
{
    let mut sum = 0;
    for count in counts {
        sum += *count;
    }
    sum
}

impl FreeNumbers {
    /// No numbers.
    pub fn new(alloc: Global) -> FreeNumbers
        ensures { result ≡ [] }
    {
        FreeNumbers {
            levels: Vec::new(alloc),
            free: 0,
        }
    }

    /// The numbers, where those with a 1 are free, and those with a 0 are not.
    ///
    /// # Errors
    /// There was not enough memory.
    pub fn of(alloc: Global, counts: Vec<u32>) -> Result<FreeNumbers, AllocError>
        requires counts { IsCounts counts.items }
        requires few { length counts.items < 4294967296 }
        ensures { IfOk result (λ n. n ≡ counts.items) }
    {
        let free = sum(&counts);
        let levels = levels_of(alloc, counts)?;
        Ok(FreeNumbers { levels, free })
    }

    /// How many numbers are free.
    pub fn len_free(&self) -> u32
        ensures { result ≡ total self.now }
    {
        self.free
    }

    /// The free number with this many free numbers before it.
    pub fn nth(&self, rank: u32) -> Option<u32>
        ensures some { IsSome result ↔ (rank < total self.now) }
        ensures free { IfSome result (λ n. get_or self.now n 0 ≡ 1) }
        ensures rank { IfSome result (λ n. before n self.now ≡ rank) }
    {
        if rank >= self.free {
            return None;
        }
        let (number, _) = find(&self.levels, rank);
        Some(number as u32)
    }

    /// Marks a number as in use.
    pub fn take(&mut self, number: usize)
        requires { number < length self.old }
        ensures { self.new ≡ set self.old number 0 }
    {
        if self.levels[0][number] > 0 {
            change(&mut self.levels, number, 1, 0);
            self.free -= 1;
        }
    }

    /// Marks a number as free.
    pub fn give(&mut self, number: usize)
        requires { number < length self.old }
        ensures { self.new ≡ set self.old number 1 }
    {
        if self.levels[0][number] == 0 {
            change(&mut self.levels, number, 0, 1);
            self.free += 1;
        }
    }
}
