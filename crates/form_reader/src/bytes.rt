//! Parts of the format at the front of bytes (core specification, 5.2, values). A part that is
//! missing is `None`; none needs memory.

ghost use Rattle.std.specs.Prelude.{◌≡◌};
ghost use Rattle.std.specs.Option.{option_map, ok_or};
ghost use Rattle.std.specs.Result.{result_ok};
ghost use Rattle.form_reader.specs.Reading.{Bad, uncons};
ghost use Rattle.form_reader.specs.ReadingNumbers.{unsigned_at, counted_bytes_at, name_at};

use crate::numbers::sevens_at;

/// The first byte, and the bytes after it; `None` where there is no byte.
#[inline]
pub fn first_byte(bytes: &[u8]) -> Option<(u8, &[u8])>
    ensures { option_map (λ x. (x.0, x.1.now)) result ≡ uncons bytes.now }
{
    match bytes {
        [] => None,
        [byte, rest @ ..] => Some((*byte, rest)),
    }
}

/// A number of 32 bits of any length, and the bytes after it.
#[tactic(auto, unfolding(crate::specs::ReadingNumbers::unsigned_at))]
pub(crate) fn long_u32_at(bytes: &[u8]) -> Option<(u32, &[u8])>
    ensures { ok_or (option_map (λ x. (x.0, x.1.now)) result) Bad ≡ unsigned_at 32 bytes.now }
{
    let (found, rest) = sevens_at(bytes)?;
    match u32::try_from(found.sum) {
        Ok(number) => Some((number, rest)),
        Err(_) => None,
    }
}

/// An unsigned number of 32 bits, and the bytes after it; `None` where the bytes end within it,
/// where it has more than five, and where it is 2^32 or more. Most numbers have one byte, so there
/// is a separate path for that.
#[inline]
#[tactic(auto, using(crate::proofs::Taken::taken_or, crate::proofs::ShortNumbers::short_u32))]
pub fn u32_at(bytes: &[u8]) -> Option<(u32, &[u8])>
    ensures { option_map (λ x. (x.0, x.1.now)) result ≡ result_ok (unsigned_at 32 bytes.now) }
{
    match first_byte(bytes) {
        Some((byte, rest)) if byte < 128 => Some((u32::from(byte), rest)),
        _ => long_u32_at(bytes),
    }
}

/// The bytes that a number of 32 bits counts, and the bytes after them; `None` where there is no
/// such number, and where fewer bytes follow.
#[tactic(auto, unfolding(crate::specs::ReadingNumbers::counted_bytes_at, crate::specs::Reading::raw_bytes_at))]
pub fn counted_bytes(bytes: &[u8]) -> Option<(&[u8], &[u8])>
    ensures { option_map (λ x. (x.0.now, x.1.now)) result ≡ result_ok (counted_bytes_at bytes.now) }
{
    let (count, rest) = u32_at(bytes)?;
    let count = count as usize;
    if rest.len() < count {
        return None;
    }
    Some(rest.split_at(count))
}

/// A name, and the bytes after it; `None` where no counted bytes are there, and where they are not
/// valid UTF-8.
#[inline(always)]
#[tactic(auto, using(crate::proofs::Taken::was_read, crate::proofs::NameLaws::name_taken, crate::proofs::NameLaws::name_refused), unfolding(crate::specs::ReadingNumbers::name_at))]
pub fn name(bytes: &[u8]) -> Option<(&str, &[u8])>
    ensures { option_map (λ x. (x.0.now, x.1.now)) result ≡ result_ok (name_at bytes.now) }
{
    let (text, rest) = counted_bytes(bytes)?;
    match std::str::from_utf8(text) {
        Ok(name) => Some((name, rest)),
        Err(_) => None,
    }
}
