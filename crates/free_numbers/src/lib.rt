//! Numbers from 0 on, each free or in use, for the index allocation of `type_registry`.
//!
//! `nth` finds the free number of a rank, and `len_free` is the exact count. `take` and `give`
//! change one number and no other.
//!
//! ```
//! let mut numbers = FreeNumbers::of(alloc, counts)?; // 1 is free, 0 is in use
//! let least = numbers.nth(0);
//! numbers.take(2);
//! numbers.give(2);
//! ```
//!
//! `nth`, `take` and `give` take time logarithmic in how many numbers there are. Only `of` needs
//! memory.
//!
//! Read on: `numbers` has the calls, `levels` the tree of counts below them.
#![tactic(auto)]

mod levels;
mod numbers;

pub use numbers::FreeNumbers;
