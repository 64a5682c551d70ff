//! Where and why bytes are refused as a module, for messages of tools.
//!
//! `locate` reads again what `form_reader` refused. It finds the first section that is not whole,
//! and in it the first entry. Accepted modules pay nothing for it.
//!
//! ```
//! if let Some(place) = locate(alloc, bytes)? {
//!     println!(rt; "byte {}: {place}", place.byte)?; // "element section, entry 3: .."
//! }
//! ```
//!
//! It takes the time of reading once more, and memory for one entry at a time.
//!
//! `entry_place` says where an entry begins, for entries that are read and break a rule.
//! `contents_place` says it of sections that list no entries.
//! `section_places` lists the sections of any input, and the names of custom ones.
//!
//! Read on: `place` has the record and its sentences, `search` the call, `section_list` the
//! sections; `form_reader` reads.
#![tactic(auto)]

mod contents;
mod entries;
mod entry;
mod header;
mod kind;
mod numbers;
mod place;
mod search;
mod section_list;
mod sections;
mod seek;
mod worked;

pub use entry::entry_place;
pub use kind::SectionKind;
pub use place::{Fault, Place};
pub use search::locate;
pub use section_list::{SectionPlace, section_places};
pub use seek::contents_place;
pub use worked::{worked_entry, worked_place, worked_sections};
