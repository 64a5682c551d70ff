//! Sources and sinks of bytes, for the program and for tests that make reads and writes fail.
//!
//! `read_all` and `write_all` lose no byte, whatever fails: the store has what was read, and a sink
//! has a prefix of the text. Failures are counted, so a contract can name them.
//!
//! ```
//! let mut store = Vec::new(alloc);
//! read_all(&mut SliceSource::new(bytes), &mut store, 1_073_741_824)?;
//! let mut sink = CountSink::new();
//! write_all(&mut sink, &store)?;
//! let total = sink.total();
//! ```
//!
//! A `ListSource` and a `ListSink` move at most so many bytes a call, and fail at the listed calls.
//!
//! Read on: `device` has the traits, `reading` and `writing` the loops; `translate` runs over both.
#![tactic(auto)]

mod calls;
mod count_sink;
mod device;
mod list_sink;
mod list_source;
mod reading;
mod slice_source;
pub mod worked;
mod writing;

pub use count_sink::CountSink;
pub use device::{Failed, OutOfMemory, Sink, Source};
pub use list_sink::ListSink;
pub use list_source::ListSource;
pub use reading::{ReadStop, read_all};
pub use slice_source::SliceSource;
pub use writing::write_all;
