//! The images of all memories. They are measured before one is made.

ghost use Rattle.std.specs.Prelude.{◌≡◌, ℕ, List, Option, ◌+◌, ◌-◌, ◌<◌, ◌≤◌, ◌^◌, All, IfOk, IfSome, IfNone, length, take, sum_by, min, Err};
ghost use Rattle.std.specs.Option.{option_map};
ghost use Rattle.replay_spec.specs.Images.{ImageOf, MemoryImage, image_bytes};
ghost use Rattle.memory_images.specs.Contents.{contents_of, contents_at, end_of};
ghost use Rattle.memory_images.specs.Image.{SpanOf};
ghost use Rattle.memory_images.specs.Images.{AreListed, image_of, images_of as view_images, span_size};
ghost use Rattle.memory_images.specs.Past.{PassesAt};

use crate::error::ImageError;
use crate::fill::filled;
use crate::placed_segment::PlacedSegment;
use crate::span::{PageSpan, span_of};
use entity_map::OutOfMemory;
use std::alloc::Global;

/// The bytes of a memory from the offset `start` on.
#[derive(Drop)]
pub struct Image {
    pub start: u64,
    pub bytes: Vec<u8>,
}

fn size(span: Option<PageSpan>) -> u64
    ensures { result ≡ span_size span }
{
    match span {
        None => 0,
        Some(span) => span.size,
    }
}

fn make_image(
    alloc: Global,
    laid: &[PlacedSegment<'_>],
    span: Option<PageSpan>,
) -> Result<Option<Image>, OutOfMemory>
    requires fits { All (λ x. end_of x < 2 ^ 64) laid.now }
    requires small { span_size span < 2 ^ 64 - 1 }
    ensures { IfOk result (λ image. (page : ℕ) → SpanOf page (contents_of laid.now) span
        → ImageOf page (contents_of laid.now) (option_map image_of image)) }
{
    match span {
        None => Ok(None),
        Some(span) => {
            let bytes = filled(alloc, laid, span)?;
            Ok(Some(Image {
                start: span.start,
                bytes,
            }))
        }
    }
}

fn spans_of(
    alloc: Global,
    memories: &[Vec<PlacedSegment<'_>>],
    page: u64,
) -> Result<Vec<Option<PageSpan>>, OutOfMemory>
    requires page { 0 < page }
    requires fits { All (λ laid. All (λ x. end_of x < 2 ^ 64) laid.items) memories.now }
    ensures { IfOk result (λ v. AreListed (λ m. SpanOf page (contents_at memories.now m)) (length memories.now) v.items) }
{
    let mut spans = Vec::with_capacity(alloc, memories.len())?;
    'memories: for laid in memories {
        spans.push(span_of(alloc, laid.as_slice(), page)?)?;
    }
    Ok(spans)
}

/// The sum of all sizes and `passive`, at most `u64::MAX`.
fn total(passive: u64, spans: &[Option<PageSpan>]) -> u64
    ensures { result ≡ min (passive + sum_by span_size spans.now) (2 ^ 64 - 1) }
{
    let mut total = passive;
    'sizes: for span in spans {
        total = total.saturating_add(size(*span));
    }
    total
}

/// The first memory with whose span the sizes and `passive` pass 4294967295.
fn span_past(passive: u64, spans: &[Option<PageSpan>]) -> Option<usize>
    requires { passive < 2 ^ 32 }
    ensures bound { IfSome result (λ m. m < length spans.now) }
    ensures before { IfSome result (λ m. passive + sum_by span_size (take m spans.now) < 2 ^ 32) }
    ensures with { IfSome result (λ m. 2 ^ 32 ≤ passive + sum_by span_size (take (m + 1) spans.now)) }
    ensures none { IfNone result (passive + sum_by span_size spans.now < 2 ^ 32) }
{
    let mut total = passive;
    'sizes: for m in 0..spans.len() {
        total = total.saturating_add(size(spans[m]));
        if total > u64::from(u32::MAX) {
            return Some(m);
        }
    }
    None
}

fn make_all(
    alloc: Global,
    memories: &[Vec<PlacedSegment<'_>>],
    spans: &[Option<PageSpan>],
) -> Result<Vec<Option<Image>>, OutOfMemory>
    requires fits { All (λ laid. All (λ x. end_of x < 2 ^ 64) laid.items) memories.now }
    requires count { length spans.now ≡ length memories.now }
    requires small { All (λ span. span_size span < 2 ^ 64 - 1) spans.now }
    ensures { IfOk result (λ v. (page : ℕ) → AreListed (λ m. SpanOf page (contents_at memories.now m)) (length memories.now) spans.now
        → AreListed (λ m. ImageOf page (contents_at memories.now m)) (length memories.now) (view_images v.items)) }
{
    let mut images = Vec::with_capacity(alloc, memories.len())?;
    'making: for m in 0..memories.len() {
        images.push(make_image(alloc, memories[m].as_slice(), spans[m])?)?;
    }
    Ok(images)
}

/// The image of each memory, unless the images and `passive` bytes of passive segments pass 4294967295 bytes
/// together.
pub(crate) fn images_of(
    alloc: Global,
    memories: &[Vec<PlacedSegment<'_>>],
    passive: u64,
    page: u64,
) -> Result<Vec<Option<Image>>, ImageError>
    requires page { 0 < page }
    requires fits { All (λ laid. All (λ x. end_of x < 2 ^ 64) laid.items) memories.now }
    ensures images { IfOk result (λ v. AreListed (λ m. ImageOf page (contents_at memories.now m)) (length memories.now) (view_images v.items)) }
    ensures fits { IfOk result (λ v. passive + sum_by length (image_bytes (view_images v.items)) < 2 ^ 32) }
    ensures too_large { result ≡ Err ImageError.TooLarge → (images : List (Option MemoryImage))
        → AreListed (λ m. ImageOf page (contents_at memories.now m)) (length memories.now) images
        → 2 ^ 32 ≤ passive + sum_by length (image_bytes images) }
{
    let spans = spans_of(alloc, memories, page)?;
    if total(passive, spans.as_slice()) > u64::from(u32::MAX) {
        return Err(ImageError::TooLarge);
    }
    let images = make_all(alloc, memories, spans.as_slice())?;
    Ok(images)
}

/// The first memory with whose image the images and `passive` bytes of passive segments pass 4294967295 bytes
/// together. No image is made.
pub(crate) fn image_past(
    alloc: Global,
    memories: &[Vec<PlacedSegment<'_>>],
    passive: u64,
    page: u64,
) -> Result<Option<usize>, OutOfMemory>
    requires page { 0 < page }
    requires fits { All (λ laid. All (λ x. end_of x < 2 ^ 64) laid.items) memories.now }
    requires passive { passive < 2 ^ 32 }
    ensures bound { IfOk result (λ o. IfSome o (λ m. m < length memories.now)) }
    ensures past { IfOk result (λ o. IfSome o (λ m. (images : List (Option MemoryImage))
        → AreListed (λ m. ImageOf page (contents_at memories.now m)) (length memories.now) images → PassesAt images passive m)) }
    ensures none { IfOk result (λ o. IfNone o ((images : List (Option MemoryImage))
        → AreListed (λ m. ImageOf page (contents_at memories.now m)) (length memories.now) images
        → passive + sum_by length (image_bytes images) < 2 ^ 32)) }
{
    let spans = spans_of(alloc, memories, page)?;
    Ok(span_past(passive, spans.as_slice()))
}
