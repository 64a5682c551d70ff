//! The run: words, source and sink.

ghost use Rattle.std.specs.Prelude.{◌≡◌, ◌≢◌, ◌<◌, ◌≤◌, ◌^◌, ◌⊎◌, ◌↔◌, [], List, ℕ, None, Some, Err, length, map, string_bytes, IsNone, IsSome, IfSome, OnOk, OnErr};
ghost use Rattle.devices.specs.Counter.{Rose};
ghost use Rattle.devices.specs.Device.{TellsFront, IsNotPassed};
ghost use Rattle.translate.specs.Options.{options_of};
ghost use Rattle.translate.specs.Valid.{IsValid};
ghost use Rattle.translate.specs.Runs.{Commands, IsInput, HasEnoughInput, IsSuccess, IsRefusal, IsCutShort};
ghost use Rattle.command_words.specs.Commands.{Names, IsMade};

use crate::answering::answer;
use crate::status::{NO_MEMORY, READ_FAILED, USAGE};
use command_words::{Command, read_words};
use devices::{ReadStop, Sink, Source, read_all};
use module_generator::generate;
use plan_text::{Plan, TranslateError};
use std::alloc::Global;
use wasm_form::MAX_MODULE_SIZE;

const _: () = prove!(MAX_MODULE_SIZE == 1 << 30);

/// What a run did.
#[derive(Drop)]
pub struct Report<'d> {
    /// One of the six statuses of this crate, from `SUCCESS` to `NO_MEMORY`.
    pub status: u8,
    /// The bytes that were read, or that were made in place of them.
    pub bytes: &'d [u8],
    /// The plan, where there is one.
    pub plan: Option<Plan<'d>>,
    /// Why there is no plan, where the bytes were refused.
    pub refusal: Option<TranslateError>,
}

impl Report<'_> {
    /// The status. All else is dropped here, so that no crate above has to prove how a plan is
    /// dropped.
    pub fn into_status(self) -> u8
        ensures { result ≡ self.entry.status }
    {
        self.status
    }
}

/// Reads a module from the source, or makes one, plans it, and writes the text of the plan, the
/// summary of a module that was made, or the line of the refusal, to the sink. The words are those
/// after the program's name. The bytes are in the store, which is empty at first.
pub fn run<'d, S: Source, K: Sink>(
    alloc: Global,
    words: &[String],
    source: &mut S,
    store: &'d mut Vec<u8>,
    sink: &mut K,
) -> Report<'d>
    requires { store.old.items ≡ [] }

    ensures statuses { result.status ≤ 5 }

    // When it reports success, the bytes spell a module that keeps the rules, the plan is its plan,
    // and the text is written.
    ensures success { result.status ≡ 0 → Commands (map string_bytes words.now)
        (IsSuccess result.bytes.now (S.left source.new) result.plan result.refusal (K.held sink.old) (K.held sink.new)) }

    // Each refusal has its cause.
    ensures refused { result.status ≡ 1 → Commands (map string_bytes words.now)
        (IsRefusal result.bytes.now (S.left source.new) result.plan result.refusal (K.held sink.old) (K.held sink.new)) }

    // No byte is lost: those that were read and those that remain are those at entry. Nothing is
    // read where a module is made.
    ensures bytes { (command : Command) → Names (map string_bytes words.now) command → IsNone command.generate
        → TellsFront (S.left source.old) result.bytes.now (S.left source.new) }
    ensures made { (command : Command) → Names (map string_bytes words.now) command → IsSome command.generate → source.new ≡ source.old }
    // A source that does not report its bytes is read to its end as well, and not past it.
    ensures to_the_end { result.status ≡ 0 → IsNone (S.left source.old) → S.since_end source.old ≡ None →
        Commands (map string_bytes words.now) (λ c. IsNone c.generate → S.since_end source.new ≡ Some 0) }
    ensures not_past { IsNone (S.left source.old) → S.since_end source.old ≡ None → IsNotPassed (S.since_end source.new) }

    // Reading ends at 2^30 bytes, which are refused.
    ensures within { (command : Command) → Names (map string_bytes words.now) command → IsNone command.generate → length result.bytes.now ≤ 2 ^ 30 }
    ensures too_long { (command : Command) → Names (map string_bytes words.now) command → IsNone command.generate → length result.bytes.now ≡ 2 ^ 30
        → (result.status ≡ 1) ⊎ (result.status ≡ 4) }

    // The words name no command, exactly; then nothing was touched.
    ensures usage { (result.status ≡ 2) ↔ ((command : Command) → ¬ Names (map string_bytes words.now) command) }
    ensures untouched { result.status ≡ 2 → (source.new ≡ source.old) × (sink.new ≡ sink.old) × (result.bytes.now ≡ []) }

    // Status 3 says that a read failed, and any other that none did.
    ensures read_failed { result.status ≡ 3 → Rose (S.faults source.old) (S.faults source.new) × Commands (map string_bytes words.now) (λ c. c.generate ≡ None) }
    ensures no_read_failed { result.status ≢ 3 → S.faults source.new ≡ S.faults source.old }
    ensures reads_counted { S.faults source.old ≤ S.faults source.new }

    // Status 4 says that a write failed, and any other that none did.
    ensures write_failed { result.status ≡ 4 → Rose (K.faults sink.old) (K.faults sink.new) }
    ensures no_write_failed { result.status ≢ 4 → K.faults sink.new ≡ K.faults sink.old }
    ensures writes_counted { K.faults sink.old ≤ K.faults sink.new }
    ensures cut_short { result.status ≡ 4 → Commands (map string_bytes words.now)
        (IsCutShort result.bytes.now (S.left source.new) result.plan result.refusal (K.held sink.old) (K.held sink.new)) }

    // Where there is neither a plan nor a refusal, nothing was written.
    ensures nothing { (result.status ≡ 2) ⊎ (result.status ≡ 3) ⊎ (result.status ≡ 5) →
        IsNone result.plan × IsNone result.refusal × (sink.new ≡ sink.old) }

    // Valid input succeeds or runs out of memory, where no read and no write failed.
    ensures complete { (command : Command) (input : List ℕ) →
        Names (map string_bytes words.now) command → IsInput command.generate (S.left source.old) input → IsValid (options_of command) input
        → ¬ Rose (S.faults source.old) (S.faults source.new) → ¬ Rose (K.faults sink.old) (K.faults sink.new)
        → (result.status ≡ 0) ⊎ (result.status ≡ 5) }

    // Where the bytes that were read, or made, are valid, no refusal is kept, at any status,
    // whether the source reports its bytes or not.
    ensures never_refused { (command : Command) → Names (map string_bytes words.now) command → IsValid (options_of command) result.bytes.now
        → IsNone result.refusal }
{
    let Some(command) = read_words(words) else {
        return empty_report(USAGE, &[]);
    };
    let outcome = fill_store(alloc, &command, source, store);
    let bytes: &'d [u8] = store.as_slice();
    match outcome {
        Ok(()) => answer(alloc, &command, bytes, sink),
        Err(ReadStop::Failed) => empty_report(READ_FAILED, bytes),
        Err(ReadStop::OutOfMemory) => empty_report(NO_MEMORY, bytes),
    }
}

/// Puts the input of the command into the store, which is empty: the bytes of the source, up to
/// 2^30 of them, or the module that is made.
fn fill_store<S: Source>(
    alloc: Global,
    command: &Command,
    source: &mut S,
    store: &mut Vec<u8>,
) -> Result<(), ReadStop>
    requires empty { store.old.items ≡ [] }
    requires made { IfSome command.now.generate IsMade }
    ensures enough { OnOk result (HasEnoughInput command.now.generate store.new.items (S.left source.new)) }
    ensures bytes { IsNone command.now.generate → TellsFront (S.left source.old) store.new.items (S.left source.new) }
    ensures within { IsNone command.now.generate → length store.new.items ≤ 2 ^ 30 }
    ensures to_the_end { OnOk result (IsNone command.now.generate → IsNone (S.left source.old) → S.since_end source.old ≡ None
        → length store.new.items < 2 ^ 30 → S.since_end source.new ≡ Some 0) }
    ensures not_past { IsNone (S.left source.old) → S.since_end source.old ≡ None → IsNotPassed (S.since_end source.new) }
    ensures stopped { OnErr result (IsNone command.now.generate → length store.new.items < 2 ^ 30) }
    ensures made { IsSome command.now.generate → source.new ≡ source.old }
    ensures cause { result ≡ Err ReadStop.Failed → Rose (S.faults source.old) (S.faults source.new) × (command.now.generate ≡ None) }
    ensures no_fault { result ≢ Err ReadStop.Failed → S.faults source.new ≡ S.faults source.old }
    ensures counted { S.faults source.old ≤ S.faults source.new }
{
    match command.generate {
        None => read_all(source, store, MAX_MODULE_SIZE),
        Some(number) => match generate(alloc, number) {
            Ok(bytes) => {
                *store = bytes;
                Ok(())
            }
            Err(_) => Err(ReadStop::OutOfMemory),
        },
    }
}

/// A report without a plan and without a refusal.
pub(crate) fn empty_report(status: u8, bytes: &[u8]) -> Report<'_>
    ensures { result ≡ record { status = status; bytes = bytes.entry; plan = None; refusal = None } }
{
    Report {
        status,
        bytes,
        plan: None,
        refusal: None,
    }
}
