//! The run over a reader and a writer.

ghost use Rattle.std.specs.Prelude.{◌≡◌, ◌≢◌, ◌<◌, ◌≤◌, ◌^◌, ◌⊎◌, ◌↔◌, ℕ, List, None, Some, length, map, string_bytes, IsNone, IsSome};
ghost use Rattle.std.specs.Process.{exit_status};
ghost use Rattle.command_words.specs.declared.command.Command.{Command};
ghost use Rattle.command_words.specs.Commands.{Names};
ghost use Rattle.devices.specs.Device.{TellsFront, IsNotPassed};
ghost use Rattle.translate.specs.Options.{options_of};
ghost use Rattle.translate.specs.Valid.{IsValid};
ghost use Rattle.translate.specs.Runs.{Commands, IsInput};
ghost use Rattle.translate_tool.specs.Telling.{Tells, told_if};
ghost use Rattle.translate_tool.specs.Ends.{HasPlanned, HasRefused, HasPrintedPart, Gains};

use crate::adapters::{StdSink, StdSource, Telling};
use std::alloc::Global;
use std::io::{Read, Write};
use std::mem;
use std::process::ExitCode;
use translate::{Report, run};

/// What a run leaves.
#[derive(Drop)]
pub struct Ended<R: Read + Drop, W: Write + Drop, T: Telling> {
    /// What the program ends with.
    pub exit: ExitCode,
    /// The reader, with what it still reports and how many reads failed.
    pub source: StdSource<R, T>,
    /// The writer, with what it reports and how many writes failed.
    pub sink: StdSink<W, T>,
}

/// What the program ends with after a run: its status. A plan is not dropped, since the system
/// takes back all memory where the program ends.
fn end_of(report: Report<'_>) -> ExitCode
    ensures { exit_status result ≡ report.entry.status }
{
    let status = report.status;
    mem::forget(report);
    ExitCode::from(status)
}

/// Runs from the reader to the writer, once, and ends with the status of the run. The words are
/// those after the program's name.
///
/// What a reader or a writer reports of its bytes is required where `T` says that it reports them;
/// of one that reports nothing, the same is proved of all but the bytes themselves.
pub fn run_over<R: Read + Drop, W: Write + Drop, T: Telling>(
    alloc: Global,
    words: &[String],
    reader: R,
    writer: W,
) -> Ended<R, W, T>
    requires reads { Tells T.reads (R.remaining reader) }
    requires writes { Tells T.writes (W.contents writer) }

    ensures statuses { exit_status result.exit ≤ 5 }

    // Status 0: the bytes of the reader have a plan, and the writer gained its text.
    ensures success { exit_status result.exit ≡ 0 → Commands (map string_bytes words.now)
        (HasPlanned (told_if T.reads (R.remaining reader)) (Gains (told_if T.writes (W.contents writer)) result.sink.told)) }

    // Status 1: they are not valid, and refused with their cause; the writer gained the line of the
    // refusal.
    ensures refused { exit_status result.exit ≡ 1 → Commands (map string_bytes words.now)
        (HasRefused (told_if T.reads (R.remaining reader)) (Gains (told_if T.writes (W.contents writer)) result.sink.told)) }

    // Valid input succeeds or runs out of memory, where no read and no write failed.
    ensures complete { (command : Command) (input : List ℕ) →
        Names (map string_bytes words.now) command → IsInput command.generate (told_if T.reads (R.remaining reader)) input
        → IsValid (options_of command) input → result.source.faults ≡ 0 → result.sink.faults ≡ 0
        → (exit_status result.exit ≡ 0) ⊎ (exit_status result.exit ≡ 5) }

    // Status 2: the words name no command, exactly; then nothing was read.
    ensures usage { (exit_status result.exit ≡ 2) ↔ ((command : Command) → ¬ Names (map string_bytes words.now) command) }
    ensures untouched { exit_status result.exit ≡ 2 → result.source.reader ≡ reader }

    // Status 3: a read failed, exactly.
    ensures read_failed { exit_status result.exit ≡ 3 → (0 < result.source.faults) × Commands (map string_bytes words.now) (λ c. c.generate ≡ None) }
    ensures no_read_failed { exit_status result.exit ≢ 3 → result.source.faults ≡ 0 }

    // Status 4: a write failed, exactly, and the writer gained a part of the text or of the line.
    // What was refused is not valid here either.
    ensures write_failed { exit_status result.exit ≡ 4 → 0 < result.sink.faults }
    ensures no_write_failed { exit_status result.exit ≢ 4 → result.sink.faults ≡ 0 }
    ensures cut_short { exit_status result.exit ≡ 4 → Commands (map string_bytes words.now)
        (HasPrintedPart (told_if T.reads (R.remaining reader)) (told_if T.writes (W.contents writer)) result.sink.told) }

    // Where there is neither a plan nor a refusal, nothing was written.
    ensures nothing { (exit_status result.exit ≡ 2) ⊎ (exit_status result.exit ≡ 3) ⊎ (exit_status result.exit ≡ 5) → result.sink.writer ≡ writer }

    // No byte is lost: at most 2^30 were read, and the others remain. Nothing is read where a
    // module is made.
    ensures bytes { (command : Command) → Names (map string_bytes words.now) command → IsNone command.generate
        → (front : List ℕ) × (length front ≤ 2 ^ 30) × TellsFront (told_if T.reads (R.remaining reader)) front result.source.told }
    ensures made { (command : Command) → Names (map string_bytes words.now) command → IsSome command.generate → result.source.reader ≡ reader }

    // A reader that does not report its bytes is read to its end as well, and not past it.
    ensures to_the_end { exit_status result.exit ≡ 0 → IsNone (told_if T.reads (R.remaining reader)) →
        Commands (map string_bytes words.now) (λ c. IsNone c.generate → result.source.since_end ≡ Some 0) }
    ensures not_past { IsNone (told_if T.reads (R.remaining reader)) → IsNotPassed result.source.since_end }
{
    let mut source = StdSource::new(reader);
    let mut store = Vec::new(alloc);
    let mut sink = StdSink::new(writer);
    let exit = end_of(run(alloc, words, &mut source, &mut store, &mut sink));
    Ended { exit, source, sink }
}
