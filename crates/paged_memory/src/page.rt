//! One page.

ghost use Rattle.std.specs.Prelude.{◌≡◌, ◌+◌, ◌<◌, ◌≤◌, length, replicate, slice_index, if◌then◌else◌, IsTrue, IfOk, OnOk, OnErr};
ghost use Rattle.paged_memory.specs.Pages.{page_bytes, is_own, is_lent};
ghost use Rattle.paged_memory.specs.Writing.{written};

use entity_map::OutOfMemory;
use std::alloc::Global;

/// The bytes of a page: a number of zeros, borrowed bytes, or owned bytes.
#[derive(Drop)]
pub(crate) enum Page<'t> {
    Zero(usize),
    Lent(&'t [u8]),
    Own(Vec<u8>),
}

/// A byte of a page.
pub(crate) fn byte_in(page: &Page<'_>, at: usize) -> u8
    requires { at < length (page_bytes page.now) }
    ensures { result ≡ slice_index (page_bytes page.now) at }
{
    match page {
        Page::Zero(_) => 0,
        Page::Lent(bytes) => bytes[at],
        Page::Own(bytes) => bytes[at],
    }
}

/// Makes a page owned. Its bytes stay the same; where memory runs out the page is unchanged.
pub(crate) fn own(alloc: Global, page: &mut Page<'_>) -> Result<(), OutOfMemory>
    ensures bytes { page_bytes page.new ≡ page_bytes page.old }
    ensures own { OnOk result (IsTrue (is_own page.new)) }
    ensures lent { OnErr result (is_lent page.new ≡ is_lent page.old) }
{
    let bytes = match page {
        Page::Zero(len) => zeros(alloc, *len)?,
        Page::Lent(bytes) => Vec::from_slice(alloc, bytes)?,
        Page::Own(_) => return Ok(()),
    };
    *page = Page::Own(bytes);
    Ok(())
}

/// A number of zeros.
fn zeros(alloc: Global, len: usize) -> Result<Vec<u8>, OutOfMemory>
    ensures { IfOk result (λ v. v.items ≡ replicate len 0) }
{
    Ok(vec![in alloc; 0; len]?)
}

/// Writes to a page that is owned.
pub(crate) fn put_in(page: &mut Page<'_>, at: usize, bytes: &[u8])
    requires own { IsTrue (is_own page.old) }
    requires within { at + length bytes.now ≤ length (page_bytes page.old) }
    ensures bytes { page_bytes page.new ≡ written at bytes.now (page_bytes page.old) }
    ensures own { IsTrue (is_own page.new) }
    ensures lent { is_lent page.new ≡ is_lent page.old }
{
    if let Page::Own(own) = page {
        own[at..at + bytes.len()].copy_from_slice(bytes);
    }
}

/// 1 for a borrowed page, 0 for another.
pub(crate) fn lent(page: &Page<'_>) -> u64
    ensures { result ≡ (if is_lent page.now then 1 else 0) }
{
    match page {
        Page::Lent(_) => 1,
        _ => 0,
    }
}
