//! The span of the bytes that are not zero.

ghost use Rattle.std.specs.Prelude.{◌≡◌, ◌≢◌, ℕ, ◌+◌, ◌^◌, ◌<◌, ◌≤◌, ⊤, length, map, slice_index, unwrap_or, All, IfOk, IfSome, IfNone, IsTrue};
ghost use Rattle.replay_spec.specs.Phases.{item_at};
ghost use Rattle.memory_images.specs.Contents.{byte_in, contents_of, end_of, pair_of, piece_of, HasContentsOver, IsInPiece, Within};
ghost use Rattle.memory_images.specs.Image.{ArePages, Bounds, EndsOf, SpanOf, joined};
ghost use Rattle.memory_images.specs.Ranges.{AreWritten};

use crate::placed_segment::PlacedSegment;
use crate::written::{Written, written_ranges};
use crate::zeros::{without_first_zeros, without_last_zeros};
use entity_map::OutOfMemory;
use std::alloc::Global;

/// Whole pages from `start` on, of `size` bytes, or of at least as many where that is the greatest
/// number.
#[derive(Clone, Copy, Debug, PartialEq, Eq)]
pub struct PageSpan {
    pub start: u64,
    pub size: u64,
}

/// The first and the last offset whose byte is not zero.
#[derive(Clone, Copy, Debug, PartialEq, Eq)]
pub struct Ends {
    pub first: u64,
    pub last: u64,
}

fn first_in(bytes: &[u8]) -> Option<usize>
    ensures none { IfNone result (All (λ b. b ≡ 0) bytes.now) }
    ensures bound { IfSome result (λ i. i < length bytes.now) }
    ensures nonzero { IfSome result (λ i. slice_index bytes.now i ≢ 0) }
    ensures before { IfSome result (λ i. (k : ℕ) → k < i → slice_index bytes.now k ≡ 0) }
{
    let rest = without_first_zeros(bytes);
    let place = rest.iter().position(|byte| *byte != 0)?;
    Some(bytes.len() - rest.len() + place)
}

fn last_in(bytes: &[u8]) -> Option<usize>
    ensures none { IfNone result (All (λ b. b ≡ 0) bytes.now) }
    ensures bound { IfSome result (λ i. i < length bytes.now) }
    ensures nonzero { IfSome result (λ i. slice_index bytes.now i ≢ 0) }
    ensures behind { IfSome result (λ i. (k : ℕ) → i < k → k < length bytes.now → slice_index bytes.now k ≡ 0) }
{
    without_last_zeros(bytes)
        .iter()
        .rposition(|byte| *byte != 0)
}

/// The part of a piece that is in a range.
fn cut<'d>(laid: &[PlacedSegment<'d>], range: Written) -> PlacedSegment<'d>
    requires some { range.start < range.end }
    requires owned { IsInPiece laid.now range }
    ensures { HasContentsOver laid.now range result }
{
    let whole = laid[range.segment];
    let from = (range.start - whole.start) as usize;
    let to = (range.end - whole.start) as usize;
    PlacedSegment {
        start: range.start,
        bytes: &whole.bytes[from..to],
    }
}

fn ends_in(x: &PlacedSegment<'_>) -> Option<Ends>
    requires { end_of x.now < 2 ^ 64 }
    ensures ends { EndsOf (byte_in x.now) (Within x.now) result }
    ensures within { IfSome result (λ ends. Within x.now ends.first × Within x.now ends.last) }
{
    let first = first_in(x.bytes)?;
    let last = last_in(x.bytes)?;
    Some(Ends {
        first: x.start + first as u64,
        last: x.start + last as u64,
    })
}

fn join(a: Option<Ends>, b: Option<Ends>) -> Option<Ends>
    ensures { result ≡ joined a b }
{
    match (a, b) {
        (None, _) => b,
        (Some(_), None) => a,
        (Some(a), Some(b)) => Some(Ends {
            first: a.first.min(b.first),
            last: a.last.max(b.last),
        }),
    }
}

/// The ends of all pieces, whether their bytes are overwritten or not.
fn outer_ends(laid: &[PlacedSegment<'_>]) -> Option<Ends>
    requires { All (λ x. end_of x < 2 ^ 64) laid.now }
    ensures { Bounds (contents_of laid.now) result }
{
    let mut ends = None;
    'laid: for x in laid {
        ends = join(ends, ends_in(x));
    }
    ends
}

fn byte_over(x: &PlacedSegment<'_>, place: u64, below: u8) -> u8
    requires { end_of x.now < 2 ^ 64 }
    ensures { result ≡ unwrap_or (item_at 0 place (piece_of x.now)) below }
{
    if place < x.start {
        return below;
    }
    if x.start + x.bytes.len() as u64 <= place {
        return below;
    }
    x.bytes[(place - x.start) as usize]
}

fn byte_at(laid: &[PlacedSegment<'_>], place: u64) -> u8
    requires { All (λ x. end_of x < 2 ^ 64) laid.now }
    ensures { result ≡ contents_of laid.now place }
{
    let mut byte = 0;
    'laid: for x in laid {
        byte = byte_over(x, place, byte);
    }
    byte
}

/// Whether the bytes at the ends of all pieces are in the final contents.
fn stand(laid: &[PlacedSegment<'_>], ends: Option<Ends>) -> bool
    requires fits { All (λ x. end_of x < 2 ^ 64) laid.now }
    requires bounds { Bounds (contents_of laid.now) ends }
    ensures { IsTrue result → EndsOf (contents_of laid.now) (λ _. ⊤) ends }
{
    match ends {
        None => true,
        Some(ends) => byte_at(laid, ends.first) != 0 && byte_at(laid, ends.last) != 0,
    }
}

/// The ends of the final contents, by the ranges that the pieces write.
fn inner_ends(laid: &[PlacedSegment<'_>], ranges: &[Written]) -> Option<Ends>
    requires fits { All (λ x. end_of x < 2 ^ 64) laid.now }
    requires written { AreWritten (map pair_of laid.now) ranges.now }
    ensures { EndsOf (contents_of laid.now) (λ _. ⊤) result }
{
    let mut ends = None;
    'ranges: for range in ranges {
        let part = cut(laid, *range);
        ends = join(ends, ends_in(&part));
    }
    ends
}

fn pairs_of(alloc: Global, laid: &[PlacedSegment<'_>]) -> Result<Vec<(u64, u64)>, OutOfMemory>
    requires { All (λ x. end_of x < 2 ^ 64) laid.now }
    ensures items { IfOk result (λ v. v.items ≡ map pair_of laid.now) }
    ensures fits { IfOk result (λ v. All (λ pair. pair.0 + pair.1 < 2 ^ 64) v.items) }
{
    let pairs = laid
        .iter()
        .map(|x| (x.start, x.bytes.len() as u64))
        .collect(alloc)?;
    Ok(pairs)
}

/// The first and the last offset whose byte is not zero. Where the ends of all pieces are in the
/// final contents, no range is made.
fn ends_of(alloc: Global, laid: &[PlacedSegment<'_>]) -> Result<Option<Ends>, OutOfMemory>
    requires { All (λ x. end_of x < 2 ^ 64) laid.now }
    ensures { IfOk result (EndsOf (contents_of laid.now) (λ _. ⊤)) }
{
    let outer = outer_ends(laid);
    if stand(laid, outer) {
        return Ok(outer);
    }
    let pairs = pairs_of(alloc, laid)?;
    let ranges = written_ranges(alloc, pairs.as_slice())?;
    Ok(inner_ends(laid, ranges.as_slice()))
}

/// The pages from that of the first byte that is not zero to that of the last.
pub(crate) fn span_of(
    alloc: Global,
    laid: &[PlacedSegment<'_>],
    page: u64,
) -> Result<Option<PageSpan>, OutOfMemory>
    requires page { 0 < page }
    requires fits { All (λ x. end_of x < 2 ^ 64) laid.now }
    ensures { IfOk result (SpanOf page (contents_of laid.now)) }
{
    match ends_of(alloc, laid)? {
        None => Ok(None),
        Some(ends) => Ok(Some(pages_of(ends, page))),
    }
}

fn pages_of(ends: Ends, page: u64) -> PageSpan
    requires page { 0 < page }
    requires order { ends.first ≤ ends.last }
    ensures { ArePages page ends result }
{
    let start = ends.first - ends.first % page;
    let last = ends.last - ends.last % page;
    PageSpan {
        start,
        size: (last - start).saturating_add(page),
    }
}
