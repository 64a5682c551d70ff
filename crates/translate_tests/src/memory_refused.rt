//! Runs in which an allocation fails.

use devices::{ListSink, OutOfMemory, SliceSource};
use std::alloc::{AllocError, Global};
use std::test::Fail;
use translate::run;

/// A memory of a page, and two segments, of which the second overlaps the first.
const OVERLAP: [u8; 30] = [
    0x00, 0x61, 0x73, 0x6D, 0x01, 0x00, 0x00, 0x00, 0x05, 0x03, 0x01, 0x00, 0x01, 0x0B, 0x0F, 0x02,
    0x00, 0x41, 0x10, 0x0B, 0x03, 0x01, 0x02, 0x03, 0x00, 0x41, 0x11, 0x0B, 0x01, 0x09,
];

/// A tag, whose exceptions hold an i32 and a v128.
const EXCEPTION: [u8; 21] = [
    0x00, 0x61, 0x73, 0x6D, 0x01, 0x00, 0x00, 0x00, 0x01, 0x06, 0x01, 0x60, 0x02, 0x7F, 0x7B, 0x00,
    0x0D, 0x03, 0x01, 0x00, 0x00,
];

fn words_of(alloc: Global, line: &str) -> Result<Vec<String>, AllocError> {
    let mut words = Vec::new(alloc);
    for word in line.split(' ') {
        words
            .push(String::from_str(alloc, word)?)
            .map_err(AllocError::from)?;
    }
    Ok(words)
}

/// The status of a run of the words over bytes in memory, and what it writes.
fn run_over(alloc: Global, line: &str, bytes: &[u8]) -> Result<(u8, Vec<u8>), OutOfMemory> {
    let words = words_of(alloc, line)?;
    let mut source = SliceSource::new(bytes);
    let mut sink = ListSink::new(alloc, 4096, 4096, &[])?;
    let mut store = Vec::new(alloc);
    let status = run(alloc, words.as_slice(), &mut source, &mut store, &mut sink).into_status();
    Ok((status, Vec::from_slice(alloc, sink.held())?))
}

/// Each run ends with a text, or out of memory with nothing written.
#[test]
fn running_out_of_memory_writes_nothing(rt: HostRuntime) -> Result<(), Fail> {
    let runs: [(&str, &[u8], &str); 3] = [
        ("plan --cow", &OVERLAP, "types 1\n"),
        ("plan", &EXCEPTION, "types 2\n"),
        ("generate 2 --cow --lazy-tables", &[], "generated 2\n"),
    ];
    for (line, bytes, begin) in runs {
        let Ok((status, text)) = run_over(rt.alloc(), line, bytes) else {
            continue;
        };
        if status == 5 {
            assert_eq!(rt; text.len(), 0);
        } else {
            assert_eq!(rt; status, 0);
            assert!(rt; text.as_slice().starts_with(begin.as_bytes()));
        }
    }
    Ok(())
}
