//! The call from C that gives the segments of a module.

ghost use Rattle.std.specs.Prelude.{◌≡◌, ◌≢◌, ◌⊎◌};
ghost use Rattle.wasm_spec.specs.Module.{Module};
ghost use Rattle.module_environ.specs.Readable.{IsReadable};
ghost use Rattle.segment_tables.specs.Causes.{IsUnread};
ghost use Rattle.segment_tables.specs.Tables.{TellsSegmentsOf};

use form_reader::ReadError;
use segment_tables::{SegmentsRecord, module_segments};
use std::alloc::Global;
use translate::{NO_MEMORY, REFUSED, SUCCESS};

/// Gives the data and element segments of the module that the bytes spell, and the functions that
/// `ref.func` in its bodies may name: `bobbinazure_segments`.
/// Answers 0 where the record has them, 1 where the bytes are malformed, not supported or too large,
/// and 5 where there is no memory. At 1 and 5 the record is as it was.
#[unsafe(no_mangle)]
pub extern "C" fn bobbinazure_segments<'d>(
    alloc: Global,
    bytes: &'d [u8],
    out: &mut SegmentsRecord<'d>,
) -> u32
    ensures statuses { (result ≡ 0) ⊎ (result ≡ 1) ⊎ (result ≡ 5) }
    // The bytes spell a module, and the record has its segments and its references.
    ensures told { result ≡ 0 → TellsSegmentsOf bytes.now out.new }
    // Each refusal has its cause.
    ensures refused { result ≡ 1 → IsUnread bytes.now }
    ensures same { result ≢ 0 → out.new ≡ out.old }
    // Bytes that can be read are not refused, whether the module keeps rules or not.
    ensures complete { (m : Module) → IsReadable bytes.now m → result ≢ 1 }
{
    match module_segments(alloc, bytes) {
        Ok(segments) => {
            *out = segments;
            u32::from(SUCCESS)
        }
        Err(ReadError::OutOfMemory) => u32::from(NO_MEMORY),
        Err(ReadError::Malformed) => u32::from(REFUSED),
        Err(ReadError::Unsupported(_)) => u32::from(REFUSED),
        Err(ReadError::TooLarge) => u32::from(REFUSED),
    }
}
