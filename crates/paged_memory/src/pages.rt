//! A list of pages.

ghost use Rattle.std.specs.Prelude.{◌≡◌, ◌+◌, ◌*◌, ◌/◌, ◌<◌, ◌≤◌, ◌^◌, ◌%◌, ◌-◌, ◌++◌, ℕ, true, false, length, replicate, slice_index, OnOk, OnErr, IfOk};
ghost use Rattle.paged_memory.specs.Memory.{count_lent, page_count, reached, as_lent, not_lent};
ghost use Rattle.paged_memory.specs.Pages.{parts_of, joined, lent_of, ArePaged, OwnBetween, Continued};
ghost use Rattle.paged_memory.specs.Writing.{written};

use crate::page::{Page, byte_in, lent, own, put_in};
use entity_map::OutOfMemory;
use std::alloc::Global;

/// A byte of pages of this size.
pub(crate) fn byte_at(pages: &[Page<'_>], size: usize, at: usize) -> u8
    requires size { 0 < size }
    requires paged { ArePaged size (parts_of pages.now) (length (joined pages.now)) }
    requires within { at < length (joined pages.now) }
    ensures { result ≡ slice_index (joined pages.now) at }
{
    let index = at / size;
    let is_there = index < pages.len();
    prove!(is_there);
    byte_in(&pages[index], at % size)
}

/// Makes pages owned.
pub(crate) fn own_pages(
    alloc: Global,
    pages: &mut [Page<'_>],
    from: usize,
    until: usize,
) -> Result<(), OutOfMemory>
    requires order { from ≤ until }
    requires within { until ≤ length pages.old }
    ensures parts { parts_of pages.new ≡ parts_of pages.old }
    ensures own { OnOk result (OwnBetween pages.new from until) }
    ensures lent { OnOk result (lent_of pages.new ≡ not_lent from (until - from) (lent_of pages.old)) }
    ensures err { OnErr result ((n : ℕ) × (n ≤ until - from) × (lent_of pages.new ≡ not_lent from n (lent_of pages.old))) }
{
    for i in from..until {
        own(alloc, &mut pages[i])?;
    }
    Ok(())
}

/// Writes to owned pages, as far as they are reached.
pub(crate) fn put(pages: &mut [Page<'_>], size: usize, at: usize, bytes: &[u8], until: usize)
    requires size { 0 < size }
    requires small { length (joined pages.old) < 2 ^ 64 }
    requires paged { ArePaged size (parts_of pages.old) (length (joined pages.old)) }
    requires within { at + length bytes.now ≤ length (joined pages.old) }
    requires reach { at + length bytes.now ≤ until * size }
    requires own { OwnBetween pages.old (at / size) until }
    ensures bytes { joined pages.new ≡ written at bytes.now (joined pages.old) }
    ensures paged { ArePaged size (parts_of pages.new) (length (joined pages.old)) }
    ensures lent { lent_of pages.new ≡ lent_of pages.old }
{
    let mut rest = bytes;
    let mut place = at;
    while !rest.is_empty() {
        let inside = place % size;
        let count = rest.len().min(size - inside);
        let (front, back) = rest.split_at(count);
        let index = place / size;
        let is_there = index < pages.len();
        prove!(is_there);
        put_in(&mut pages[index], inside, front);
        rest = back;
        place += count;
    }
}

/// Writes to pages, which become owned where the write reaches.
pub(crate) fn write_pages(
    alloc: Global,
    pages: &mut [Page<'_>],
    size: usize,
    at: usize,
    bytes: &[u8],
) -> Result<(), OutOfMemory>
    requires size { 0 < size }
    requires small { length (joined pages.old) < 2 ^ 64 }
    requires paged { ArePaged size (parts_of pages.old) (length (joined pages.old)) }
    requires within { at + length bytes.now ≤ length (joined pages.old) }
    ensures ok { OnOk result (joined pages.new ≡ written at bytes.now (joined pages.old)) }
    ensures err { OnErr result (joined pages.new ≡ joined pages.old) }
    ensures paged { ArePaged size (parts_of pages.new) (length (joined pages.old)) }
    ensures lent { OnOk result (lent_of pages.new ≡ not_lent (at / size) (reached size at bytes.now) (lent_of pages.old)) }
    ensures some { OnErr result ((n : ℕ) × (n ≤ reached size at bytes.now) × (lent_of pages.new ≡ not_lent (at / size) n (lent_of pages.old))) }
{
    if bytes.is_empty() {
        return Ok(());
    }
    let until = (at + bytes.len() - 1) / size + 1;
    own_pages(alloc, pages, at / size, until)?;
    put(pages, size, at, bytes, until);
    Ok(())
}

/// How many pages are borrowed.
pub(crate) fn lent_pages(pages: &[Page<'_>]) -> u64
    ensures { result ≡ count_lent (lent_of pages.now) }
{
    let mut count = 0;
    for page in pages {
        count += lent(page);
    }
    count
}

/// Owned pages with these bytes.
pub(crate) fn copied<'t>(
    alloc: Global,
    bytes: &[u8],
    size: usize,
) -> Result<Vec<Page<'t>>, OutOfMemory>
    requires size { 0 < size }
    ensures bytes { IfOk result (λ v. joined v.items ≡ bytes.now) }
    ensures paged { IfOk result (λ v. ArePaged size (parts_of v.items) (length bytes.now)) }
    ensures lent { IfOk result (λ v. lent_of v.items ≡ replicate (page_count size (length bytes.now)) false) }
{
    let mut pages = Vec::new(alloc);
    let mut rest = bytes;
    while !rest.is_empty() {
        let count = rest.len().min(size);
        let (front, back) = rest.split_at(count);
        pages.push(Page::Own(Vec::from_slice(alloc, front)?))?;
        rest = back;
    }
    Ok(pages)
}

/// Appends a number of zeros, in pages of this size.
fn push_zeros(pages: &mut Vec<Page<'_>>, len: usize, size: usize) -> Result<(), OutOfMemory>
    requires size { 0 < size }
    ensures bytes { OnOk result (joined pages.new.items ≡ joined pages.old.items ++ replicate len 0) }
    ensures paged { OnOk result (Continued size len (parts_of pages.old.items) (parts_of pages.new.items)) }
    ensures lent { OnOk result (lent_of pages.new.items ≡ lent_of pages.old.items ++ replicate (page_count size len) false) }
{
    let mut left = len;
    while left > 0 {
        let count = left.min(size);
        pages.push(Page::Zero(count))?;
        left -= count;
    }
    Ok(())
}

/// Appends this many pages, which are borrowed.
fn push_lent<'t>(
    pages: &mut Vec<Page<'t>>,
    bytes: &'t [u8],
    size: usize,
    count: usize,
) -> Result<(), OutOfMemory>
    requires size { 0 < size }
    requires whole { length bytes.now ≡ count * size }
    ensures bytes { OnOk result (joined pages.new.items ≡ joined pages.old.items ++ bytes.now) }
    ensures paged { OnOk result (Continued size (length bytes.now) (parts_of pages.old.items) (parts_of pages.new.items)) }
    ensures lent { OnOk result (lent_of pages.new.items ≡ lent_of pages.old.items ++ replicate count true) }
{
    let mut rest = bytes;
    for i in 0..count {
        let (front, back) = rest.split_at(size);
        pages.push(Page::Lent(front))?;
        rest = back;
    }
    Ok(())
}

/// Zeros, and an image that is borrowed page by page.
pub(crate) fn imaged<'t>(
    alloc: Global,
    len: usize,
    size: usize,
    start: usize,
    image: &'t [u8],
) -> Result<Vec<Page<'t>>, OutOfMemory>
    requires size { 0 < size }
    requires start { start % size ≡ 0 }
    requires whole { length image.now % size ≡ 0 }
    requires within { start + length image.now ≤ len }
    ensures bytes { IfOk result (λ v. joined v.items ≡ written start image.now (replicate len 0)) }
    ensures paged { IfOk result (λ v. ArePaged size (parts_of v.items) len) }
    ensures lent { IfOk result (λ v. lent_of v.items
        ≡ as_lent (start / size) (length image.now / size) (replicate (page_count size len) false)) }
    ensures count { IfOk result (λ v. count_lent (lent_of v.items) ≡ length image.now / size) }
{
    let mut pages = Vec::new(alloc);
    push_zeros(&mut pages, start, size)?;
    push_lent(&mut pages, image, size, image.len() / size)?;
    push_zeros(&mut pages, len - start - image.len(), size)?;
    Ok(pages)
}
