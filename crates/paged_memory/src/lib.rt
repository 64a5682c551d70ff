//! A linear memory in pages, for code that runs a plan: each page is zero, copy-on-write over an
//! image, or owned.
//!
//! `write` leaves the given bytes at the given offset and all others unchanged, and never changes
//! an image. After `OutOfMemory` all bytes are as before.
//!
//! ```
//! let mut memory = PagedMemory::with_image(alloc, 65536, 4096, 8192, image)?;
//! memory.write(8195, &[1, 2])?;
//! let first = memory.byte(8195); // 1
//! let shared = memory.shared_pages(); // all pages of the image but one
//! ```
//!
//! A zero page has no bytes, and a page of an image is copied only when it is written. `from_bytes`
//! copies all of its bytes.
//!
//! Read on: `memory` has the calls; `plan_run` uses them.
#![tactic(auto)]

mod memory;
mod page;
mod pages;
mod worked;

pub use memory::PagedMemory;
pub use worked::{pages_of_four_bytes, two_items_over_four};
