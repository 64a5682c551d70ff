//! The words of the command line, for `translate` and its program.
//!
//! `read_words` returns the one command that the words name, and `None` exactly where they name
//! none. The grammar of commands is `Names` in `specs/`.
//!
//! ```
//! let Some(command) = read_words(&words) else { return usage() };
//! let images = command.tunables.memory_init_cow; // true for `plan --cow`
//! let module = command.generate; // Some(2) for `generate 2`
//! ```
//!
//! Words are compared one by one, and nothing is allocated.
//!
//! Read on: `words`, `settings`, `command`; `translate` has what a command does.
#![tactic(auto)]

mod command;
mod numbers;
mod settings;
mod words;
mod worked;

pub use command::{Collector, Command};
pub use settings::Setting;
pub use words::read_words;
pub use worked::{worked_generator, worked_plan, worked_switches};
