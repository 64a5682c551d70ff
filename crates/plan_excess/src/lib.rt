//! Which memory, type or tag makes a module too large to be planned, for messages about modules that
//! were refused.
//!
//! `plan_of` refuses input of 2^30 bytes or more and runtime data past 4294967295 bytes as
//! `TooLarge`, and an object or a context past 4294967295 bytes as `OffsetOverflow`. `locate_excess`
//! takes the same command and bytes. It returns `None` only where neither is so; otherwise it says
//! what is too large first, and the entry of the section that declares it.
//!
//! ```
//! if let Some(excess) = locate_excess(alloc, &command, bytes)? {
//!     println!(rt; "{excess}")?;
//!     // memory section, entry 1: with the image of memory 1, the runtime data have more than
//!     // 4294967295 bytes
//! }
//! ```
//!
//! The module is planned once more, and where it is too large translated once more. To find the
//! memory, images are measured and none is made.
//!
//! Read on: `kinds`, then `locating`; `specs/Excess.antt` says what an excess is.
#![tactic(auto)]

mod data;
mod kinds;
mod locating;
mod objects;
mod translated;

pub use kinds::{Excess, ExcessKind};
pub use locating::locate_excess;
