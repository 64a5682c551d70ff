//! Memories in pages: what a write leaves, and which pages are borrowed.

use paged_memory::PagedMemory;
use std::alloc::{AllocError, Global};
use std::process::Abort;
use std::test::Fail;

const IMAGE: [u8; 8] = [1, 2, 3, 4, 5, 6, 7, 8];

struct WriteRow {
    at: u64,
    bytes: &'static [u8],
    wanted: [u8; 14],
    shared: u64,
}

// Each row is written to a memory of pages of four bytes, whose second and third page are borrowed.
const ROWS: [WriteRow; 6] = [
    WriteRow {
        at: 5,
        bytes: &[],
        wanted: [0, 0, 0, 0, 1, 2, 3, 4, 5, 6, 7, 8, 0, 0],
        shared: 2,
    },
    WriteRow {
        at: 0,
        bytes: &[9],
        wanted: [9, 0, 0, 0, 1, 2, 3, 4, 5, 6, 7, 8, 0, 0],
        shared: 2,
    },
    WriteRow {
        at: 5,
        bytes: &[9],
        wanted: [0, 0, 0, 0, 1, 9, 3, 4, 5, 6, 7, 8, 0, 0],
        shared: 1,
    },
    WriteRow {
        at: 3,
        bytes: &[9, 9],
        wanted: [0, 0, 0, 9, 9, 2, 3, 4, 5, 6, 7, 8, 0, 0],
        shared: 1,
    },
    WriteRow {
        at: 7,
        bytes: &[9, 9],
        wanted: [0, 0, 0, 0, 1, 2, 3, 9, 9, 6, 7, 8, 0, 0],
        shared: 0,
    },
    WriteRow {
        at: 11,
        bytes: &[9, 9, 9],
        wanted: [0, 0, 0, 0, 1, 2, 3, 4, 5, 6, 7, 9, 9, 9],
        shared: 1,
    },
];

#[test]
fn written_page_is_lent_no_more(rt: HostRuntime) -> Result<(), Fail> {
    for row in &ROWS {
        let image = IMAGE;
        let mut memory = PagedMemory::with_image(rt.alloc(), 14, 4, 4, &image)?;
        assert!(rt; row.at.saturating_add(row.bytes.len() as u64) <= memory.len());
        memory.write(row.at, row.bytes)?;
        assert!(rt; bytes_of(rt.alloc(), &memory)?.as_slice() == row.wanted.as_slice());
        assert!(rt; memory.shared_pages() == row.shared);
        assert!(rt; image == IMAGE);
    }
    Ok(())
}

#[test]
fn copied_bytes_are_not_lent(rt: HostRuntime) -> Result<(), Fail> {
    let memory = PagedMemory::from_bytes(rt.alloc(), &[1, 2, 3], 2)?;
    assert!(rt; bytes_of(rt.alloc(), &memory)?.as_slice() == [1, 2, 3].as_slice());
    assert!(rt; memory.shared_pages() == 0);
    Ok(())
}

fn bytes_of(alloc: Global, memory: &PagedMemory<'_>) -> Result<Vec<u8>, AllocError> {
    let mut bytes = Vec::new(alloc);
    for at in 0..memory.len() {
        bytes.push(memory.byte(at))?;
    }
    Ok(bytes)
}
