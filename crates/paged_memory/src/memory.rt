//! The memory.

ghost use Rattle.std.specs.Prelude.{◌≡◌, ℕ, ◌+◌, ◌/◌, ◌%◌, ◌<◌, ◌≤◌, false, length, replicate, slice_index, IfOk, OnOk, OnErr};
ghost use Rattle.paged_memory.specs.Memory.{Contents, count_lent, page_count, reached, as_lent, not_lent};
ghost use Rattle.paged_memory.specs.Writing.{written};

use crate::page::Page;
use crate::pages::{byte_at, copied, imaged, lent_pages, write_pages};
use entity_map::OutOfMemory;
use std::alloc::Global;
use std::marker::Model;

/// Bytes in pages of one size, of which the last may be shorter. A page is zero and stores no
/// bytes, or it is borrowed until it is written to, or it is owned by the memory. A contract views
/// a memory as its bytes, the size of its pages, and which of them are borrowed.
#[derive(Drop)]
pub struct PagedMemory<'t> {
    alloc: Global,
    size: usize,
    len: usize,
    pages: Vec<Page<'t>>,
}

impl<'t> Model for PagedMemory<'t> {
    ghost use Rattle.std.specs.Prelude.{◌≡◌, ◌<◌, ◌^◌, length};
    ghost use Rattle.paged_memory.specs.Memory.{Contents};
    ghost use Rattle.paged_memory.specs.Pages.{joined, lent_of, parts_of, ArePaged};

    ghost Value = { Contents };

    ghost view = { λ m. record { bytes = joined m.pages.items; page = m.size; lent = lent_of m.pages.items } };

    ghost invariant = { λ m. (0 < m.size) × (m.len < 2 ^ 64) × (m.len ≡ length (joined m.pages.items)) × ArePaged m.size (parts_of m.pages.items) m.len };
}

impl<'t> PagedMemory<'t> {
    /// The number of its bytes.
    pub fn len(&self) -> u64
        ensures { result ≡ length self.now.bytes }
    {
        self.len as u64
    }

    /// The byte at an offset, which is counted from 0 and is below the length.
    pub fn byte(&self, at: u64) -> u8
        requires { at < length self.now.bytes }
        ensures { result ≡ slice_index self.now.bytes at }
    {
        byte_at(&self.pages, self.size, at as usize)
    }

    /// A copy of these bytes, in pages of `page` bytes that are all owned. `page` is not 0.
    ///
    /// # Errors
    /// `OutOfMemory` where the pages find no memory.
    pub fn from_bytes(alloc: Global, bytes: &[u8], page: u64) -> Result<Self, OutOfMemory>
        requires { 0 < page }
        ensures bytes { IfOk result (λ m. m.bytes ≡ bytes.now) }
        ensures page { IfOk result (λ m. m.page ≡ page) }
        ensures lent { IfOk result (λ m. m.lent ≡ replicate (page_count page (length bytes.now)) false) }
    {
        Ok(PagedMemory {
            alloc,
            size: page as usize,
            len: bytes.len(),
            pages: copied(alloc, bytes, page as usize)?,
        })
    }

    /// A memory of `len` bytes, in pages of `page` bytes. From `start` on it has the bytes of the
    /// image, which is borrowed and not copied; all others are zero. `page` is not 0. The image
    /// begins at a multiple of `page`, has complete pages, and ends within the length. It may be
    /// empty.
    ///
    /// # Errors
    /// `OutOfMemory` where the pages find no memory.
    pub fn with_image(
        alloc: Global,
        len: u64,
        page: u64,
        start: u64,
        image: &'t [u8],
    ) -> Result<Self, OutOfMemory>
        requires page { 0 < page }
        requires start { start % page ≡ 0 }
        requires whole { length image.now % page ≡ 0 }
        requires within { start + length image.now ≤ len }
        ensures bytes { IfOk result (λ m. m.bytes ≡ written start image.now (replicate len 0)) }
        ensures page { IfOk result (λ m. m.page ≡ page) }
        ensures lent { IfOk result (λ m. m.lent ≡ as_lent (start / page) (length image.now / page) (replicate (page_count page len) false)) }
        ensures count { IfOk result (λ m. count_lent m.lent ≡ length image.now / page) }
    {
        Ok(PagedMemory {
            alloc,
            size: page as usize,
            len: len as usize,
            pages: imaged(alloc, len as usize, page as usize, start as usize, image)?,
        })
    }

    /// Writes these bytes from the offset `at` on, counted from 0; the last of them is below the
    /// length. Every other byte stays. The pages that are written to are no longer borrowed, all
    /// others are as before, and borrowed bytes are never changed.
    ///
    /// # Errors
    /// `OutOfMemory`; then no byte is changed, but the first of the pages that were to be written
    /// to may no longer be borrowed.
    pub fn write(&mut self, at: u64, bytes: &[u8]) -> Result<(), OutOfMemory>
        requires { at + length bytes.now ≤ length self.old.bytes }
        ensures ok { OnOk result (self.new.bytes ≡ written at bytes.now self.old.bytes) }
        ensures err { OnErr result (self.new.bytes ≡ self.old.bytes) }
        ensures page { self.new.page ≡ self.old.page }
        ensures lent { OnOk result (self.new.lent ≡ not_lent (at / self.old.page) (reached self.old.page at bytes.now) self.old.lent) }
        ensures some { OnErr result ((n : ℕ) × (n ≤ reached self.old.page at bytes.now) × (self.new.lent ≡ not_lent (at / self.old.page) n self.old.lent)) }
    {
        write_pages(self.alloc, &mut self.pages, self.size, at as usize, bytes)
    }

    /// How many pages are borrowed.
    pub fn shared_pages(&self) -> u64
        ensures { result ≡ count_lent self.now.lent }
    {
        lent_pages(&self.pages)
    }
}
