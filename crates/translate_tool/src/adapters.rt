//! Standard input as a source, and standard output as a sink.

ghost use Rattle.std.specs.Prelude.{◌≡◌, ◌<◌, ◌≤◌, None, Ok, IsErr, IfOk, OnOk, OnErr, MatchResult, length, take};
ghost use Rattle.std.specs.Io.KnownBytes.{Consumes, Keeps, Appends};
ghost use Rattle.devices.specs.Counter.{raised_by};
ghost use Rattle.devices.specs.Device.{TellsFront, NothingLeft, AppendsFront, since_end_after, since_end_after_fault};
ghost use Rattle.translate_tool.specs.Telling.{Tells, told_if};

use devices::{Failed, Sink, Source};
use std::io::{self, Read, Write};
use std::marker::{Model, PhantomData};

/// Whether the reader of a source, and the writer of a sink, report their bytes from the first to
/// the last.
// A reader that reports nothing may begin to report, and a source may not. So this trait says what
// a source may report.
pub trait Telling {
    ghost use Rattle.std.specs.Prelude.{Bool};

    ghost reads: { Bool };

    ghost writes: { Bool };
}

/// Neither reports its bytes: the system's reader and writer.
#[derive(Drop)]
pub struct Untold;

impl Telling for Untold {
    ghost use Rattle.std.specs.Prelude.{false};

    ghost reads = { false };

    ghost writes = { false };
}

/// A source over a reader. A contract sees the reader, what it reports, how many reads failed, and
/// how many came after the end.
#[derive(Drop)]
pub struct StdSource<R: Read + Drop, T: Telling> {
    reader: R,
    faults: u64,
    since_end: Option<u64>,
    telling: PhantomData<T>,
}

impl<R: Read + Drop, T: Telling> Model for StdSource<R, T> {
    ghost use Rattle.translate_tool.specs.Adapters.{Reading};
    ghost use Rattle.translate_tool.specs.Telling.{Tells, told_if};

    ghost Value = { Reading R };

    ghost view = { λ s. record {
      reader = s.reader;
      told = told_if T.reads (R.remaining s.reader);
      faults = s.faults;
      since_end = s.since_end;
    } };

    ghost invariant = { λ s. Tells T.reads (R.remaining s.reader) };
}

impl<R: Read + Drop, T: Telling> StdSource<R, T> {
    /// A source over a reader that has not failed yet, and has not reached its end.
    pub fn new(reader: R) -> Self
        requires { Tells T.reads (R.remaining reader) }
        ensures { result ≡ record {
          reader = reader;
          told = told_if T.reads (R.remaining reader);
          faults = 0;
          since_end = None;
        } }
    {
        StdSource {
            reader,
            faults: 0,
            since_end: None,
            telling: PhantomData,
        }
    }
}

impl<R: Read + Drop, T: Telling> Source for StdSource<R, T> {
    ghost left = { λ s. s.told };

    ghost faults = { λ s. s.faults };

    ghost since_end = { λ s. s.since_end };

    fn read(&mut self, buf: &mut [u8]) -> Result<usize, Failed>
        requires { 0 < length buf.old }
        ensures within { IfOk result (λ n. n ≤ length buf.old) }

        // What the reader reports of its bytes moved, or stayed where the read failed.
        ensures moves { IfOk result (λ n. TellsFront self.old.told (take n buf.new) self.new.told) }
        ensures ends { IfOk result (λ n. n ≡ 0 → NothingLeft self.old.told) }
        ensures stays { OnErr result (self.new.told ≡ self.old.told) }

        // The same of a reader that reports its bytes though the source may not.
        ensures consumes { IfOk result (λ n. Consumes (R.remaining self.old.reader) (R.remaining self.new.reader) (take n buf.new)) }
        ensures keeps { OnErr result (Keeps (R.remaining self.old.reader) (R.remaining self.new.reader)) }

        ensures no_fault { OnOk result (self.new.faults ≡ self.old.faults) }
        ensures fault { OnErr result (self.new.faults ≡ raised_by 1 self.old.faults) }
        ensures counted { self.old.faults ≤ self.new.faults }
        ensures end { IfOk result (λ n. self.new.since_end ≡ since_end_after n self.old.since_end) }
        ensures no_end { OnErr result (self.new.since_end ≡ since_end_after_fault self.old.since_end) }
    {
        let moved = outcome_of(self.reader.read(buf), &mut self.faults);
        self.since_end = one_more_read(self.since_end, moved.unwrap_or(1));
        moved
    }
}

/// What a call of the system returned; a call that failed is counted.
fn outcome_of(answer: io::Result<usize>, faults: &mut u64) -> Result<usize, Failed>
    ensures ok { IfOk result (λ n. (answer ≡ Ok n) × (faults.new ≡ faults.old)) }
    ensures err { OnErr result (IsErr answer × (faults.new ≡ raised_by 1 faults.old)) }
    ensures counted { faults.old ≤ faults.new }
{
    match answer {
        Ok(count) => Ok(count),
        Err(_) => {
            *faults = faults.saturating_add(1);
            Err(Failed)
        }
    }
}

/// How many reads were made since the end, after one more that moved so many bytes.
fn one_more_read(since_end: Option<u64>, moved: usize) -> Option<u64>
    ensures { result ≡ since_end_after moved since_end }
{
    match since_end {
        Some(reads) => Some(reads.saturating_add(1)),
        None if moved == 0 => Some(0),
        None => None,
    }
}

/// A sink over a writer. A contract sees the writer, what it reports, and how many writes failed.
#[derive(Drop)]
pub struct StdSink<W: Write + Drop, T: Telling> {
    writer: W,
    faults: u64,
    telling: PhantomData<T>,
}

impl<W: Write + Drop, T: Telling> Model for StdSink<W, T> {
    ghost use Rattle.translate_tool.specs.Adapters.{Writing};
    ghost use Rattle.translate_tool.specs.Telling.{Tells, told_if};

    ghost Value = { Writing W };

    ghost view = { λ s. record { writer = s.writer; told = told_if T.writes (W.contents s.writer); faults = s.faults } };

    ghost invariant = { λ s. Tells T.writes (W.contents s.writer) };
}

impl<W: Write + Drop, T: Telling> StdSink<W, T> {
    /// A sink over a writer that has not failed yet.
    pub fn new(writer: W) -> Self
        requires { Tells T.writes (W.contents writer) }
        ensures { result ≡ record { writer = writer; told = told_if T.writes (W.contents writer); faults = 0 } }
    {
        StdSink {
            writer,
            faults: 0,
            telling: PhantomData,
        }
    }
}

impl<W: Write + Drop, T: Telling> Sink for StdSink<W, T> {
    ghost held = { λ s. s.told };

    ghost faults = { λ s. s.faults };

    fn write(&mut self, piece: &[u8]) -> Result<usize, Failed>
        requires { 0 < length piece.now }
        ensures takes { IfOk result (λ n. (0 < n) × (n ≤ length piece.now)) }

        // What the writer reports of its bytes grows by what is accepted, and stays where the write
        // failed.
        ensures appends { IfOk result (λ n. AppendsFront self.old.told (take n piece.now) self.new.told) }
        ensures stays { OnErr result (self.new.told ≡ self.old.told) }

        // The same of a writer that reports its bytes though the sink may not.
        ensures grows { IfOk result (λ n. Appends (W.contents self.old.writer) (W.contents self.new.writer) (take n piece.now)) }

        ensures no_fault { OnOk result (self.new.faults ≡ self.old.faults) }
        ensures fault { OnErr result (self.new.faults ≡ raised_by 1 self.old.faults) }
        ensures counted { self.old.faults ≤ self.new.faults }
    {
        let answer = self.writer.write(piece).and_then(some_taken);
        outcome_of(answer, &mut self.faults)
    }
}

/// A writer that accepts nothing has failed.
fn some_taken(count: usize) -> io::Result<usize>
    ensures { MatchResult result (λ n. (n ≡ count) × (0 < n)) (λ _. count ≡ 0) }
{
    if count == 0 {
        return Err(io::Error::from(io::ErrorKind::WriteZero));
    }
    Ok(count)
}
