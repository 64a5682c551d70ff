//! The program: `run` of `translate` over standard input and standard output.
//!
//! Its exit status is that of the run, from 0 to 5, with the cause that the contract of
//! `run_over_standard` names. Status 6 says that the system does not give the words.
//!
//! ```text
//! dist/translate plan --cow --lazy-tables < examples/linked.wasm
//! dist/translate generate 1000
//! ```
//!
//! docs/MEASURED.md has times and peak memory for large modules.
//!
//! Read on: `running`, `adapters`; docs/FORMAT.md explains the output, and `command_words` the
//! words.
#![tactic(auto)]

ghost use Rattle.std.specs.Prelude.{◌≡◌, ◌≤◌, ◌↔◌, None, map, string_bytes};
ghost use Rattle.std.specs.Process.{exit_status};
ghost use Rattle.command_words.specs.declared.command.Command.{Command};
ghost use Rattle.command_words.specs.Commands.{Names};
ghost use Rattle.translate.specs.Runs.{Commands};
ghost use Rattle.translate_tool.specs.Ends.{HasPlanned, HasRefused, HasPrintedPart, Gains};

mod adapters;
mod running;
mod words;

use adapters::Untold;
use running::run_over;
use std::alloc::AllocError;
use std::process::ExitCode;
use std::{env, io};
use translate::NO_MEMORY;
use words::without_name;

/// The status where the system does not give the words, which a run never returns.
const NO_WORDS: u8 = 6;

/// The words after the program's name; none where the system does not give them.
fn words_of(rt: &HostRuntime) -> Option<Result<Vec<String>, AllocError>> {
    match env::args(rt) {
        Ok(words) => Some(words.collect(rt.alloc()).map(without_name)),
        Err(error) if error.kind() == io::ErrorKind::OutOfMemory => Some(Err(AllocError)),
        Err(_) => None,
    }
}

/// Runs from standard input to standard output, neither of which reports its bytes, and ends with
/// the status of the run.
fn run_over_standard(rt: &HostRuntime, words: &[String]) -> ExitCode
    ensures statuses { exit_status result ≤ 5 }
    ensures success { exit_status result ≡ 0 → Commands (map string_bytes words.now) (HasPlanned None (Gains None None)) }
    ensures refused { exit_status result ≡ 1 → Commands (map string_bytes words.now) (HasRefused None (Gains None None)) }
    ensures usage { (exit_status result ≡ 2) ↔ ((command : Command) → ¬ Names (map string_bytes words.now) command) }
    ensures read_failed { exit_status result ≡ 3 → Commands (map string_bytes words.now) (λ c. c.generate ≡ None) }
    ensures cut_short { exit_status result ≡ 4 → Commands (map string_bytes words.now) (HasPrintedPart None None None) }
{
    run_over::<_, _, Untold>(rt.alloc(), words, rt.reader(), io::writer(rt)).exit
}

fn main(rt: HostRuntime) -> ExitCode {
    match words_of(&rt) {
        None => ExitCode::from(NO_WORDS),
        Some(Err(_)) => ExitCode::from(NO_MEMORY),
        Some(Ok(words)) => run_over_standard(&rt, words.as_slice()),
    }
}
