//! Writes a text to a sink.

ghost use Rattle.std.specs.Prelude.{◌≡◌, ◌≤◌, [], OnOk, OnErr};
ghost use Rattle.devices.specs.Device.{AppendsFront, AppendsPart};
ghost use Rattle.devices.specs.Counter.{Rose};

use crate::device::{Failed, Sink};

/// Writes the text, until all of it is written or a write fails.
///
/// # Errors
/// `Failed` where a write failed; a part of the text was appended, and not all of it.
pub fn write_all<K: Sink>(sink: &mut K, text: &[u8]) -> Result<(), Failed>
    ensures ok { OnOk result (AppendsFront (K.held sink.old) text.now (K.held sink.new)) }
    ensures err { OnErr result (AppendsPart (K.held sink.old) text.now (K.held sink.new)) }
    ensures no_fault { OnOk result (K.faults sink.new ≡ K.faults sink.old) }
    ensures cause { OnErr result (Rose (K.faults sink.old) (K.faults sink.new)) }
    ensures counted { K.faults sink.old ≤ K.faults sink.new }
    ensures empty { text.now ≡ [] → sink.new ≡ sink.old }
{
    let mut written = 0;
    'writes: while written < text.len() {
        let (_, rest) = text.split_at(written);
        written += sink.write(rest)?;
    }
    Ok(())
}
