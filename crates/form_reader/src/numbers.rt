//! Numbers at the front of bytes (core specification, 5.2, integers).

ghost use Rattle.std.specs.Prelude.{◌≡◌, ◌≤◌, ◌<◌, ◌^◌, IfSome};
ghost use Rattle.std.specs.Option.{option_map};
ghost use Rattle.form_reader.specs.Reading.{Reads};
ghost use Rattle.form_reader.specs.ReadingNumbers.{unsigned_at, signed_at, non_negative_at, signed_of, found_at, sevens_of, wide_sevens_of};

use crate::bytes::{first_byte, long_u32_at};
use crate::cursor::Cursor;
use crate::error::ReadError;

/// The maximum number of bytes of a number of 32 bits.
const MOST_BYTES: usize = 5;

/// The maximum number of bytes of a number of 64 bits.
const MOST_WIDE_BYTES: usize = 10;

/// The low seven bits of each byte of a short number, together.
#[derive(Clone, Copy)]
pub struct Sevens {
    pub sum: u64,
    /// 128 to the power of the number of bytes.
    pub weight: u64,
    pub last: u8,
}

/// The low seven bits of each byte of a number, together.
#[derive(Clone, Copy)]
pub struct WideSevens {
    pub sum: u128,
    /// 128 to the power of the number of bytes.
    pub weight: u128,
    pub last: u8,
}

/// The bytes up to the first below 128, of at most five.
#[tactic(auto, unfolding(crate::specs::ReadingNumbers::found_at))]
pub(crate) fn sevens_at(bytes: &[u8]) -> Option<(Sevens, &[u8])>
    ensures small { IfSome result (λ x. (x.0.sum < x.0.weight) × (x.0.weight ≤ 2 ^ 35)) }
    ensures found { option_map (λ x. (sevens_of x.0, x.1.now)) result ≡ found_at MOST_BYTES bytes.now }
{
    let mut sum: u64 = 0;
    let mut weight: u64 = 1;
    let mut last: u8 = 0;
    let mut rest = bytes;
    'bytes: for _ in 0..MOST_BYTES {
        let (byte, after) = first_byte(rest)?;
        last = byte;
        sum += u64::from(last % 128) * weight;
        weight *= 128;
        rest = after;
        if last < 128 {
            return Some((Sevens { sum, weight, last }, rest));
        }
    }
    None
}

/// The bytes up to the first below 128, of at most ten.
#[tactic(auto, unfolding(crate::specs::ReadingNumbers::found_at))]
fn wide_sevens_at(bytes: &[u8]) -> Option<(WideSevens, &[u8])>
    ensures small { IfSome result (λ x. (x.0.sum < x.0.weight) × (x.0.weight ≤ 2 ^ 70)) }
    ensures found { option_map (λ x. (wide_sevens_of x.0, x.1.now)) result ≡ found_at MOST_WIDE_BYTES bytes.now }
{
    let mut sum: u128 = 0;
    let mut weight: u128 = 1;
    let mut last: u8 = 0;
    let mut rest = bytes;
    'bytes: for _ in 0..MOST_WIDE_BYTES {
        let (byte, after) = first_byte(rest)?;
        last = byte;
        sum += u128::from(last % 128) * weight;
        weight *= 128;
        rest = after;
        if last < 128 {
            return Some((WideSevens { sum, weight, last }, rest));
        }
    }
    None
}

/// The number that the bytes spell where it is signed: bit 6 of the last byte is its sign.
fn signed(found: &Sevens) -> i64
    requires below { found.now.sum < found.now.weight }
    requires small { found.now.weight ≤ 2 ^ 35 }
    ensures { result ≡ signed_of (sevens_of found.now) }
{
    let sum = found.sum as i64;
    if found.last % 128 >= 64 {
        sum - found.weight as i64
    } else {
        sum
    }
}

/// As `signed`, for more bytes.
fn wide_signed(found: &WideSevens) -> i128
    requires below { found.now.sum < found.now.weight }
    requires small { found.now.weight ≤ 2 ^ 70 }
    ensures { result ≡ signed_of (wide_sevens_of found.now) }
{
    let sum = found.sum as i128;
    if found.last % 128 >= 64 {
        sum - found.weight as i128
    } else {
        sum
    }
}

impl<'d> Cursor<'d> {
    fn long_u32(&mut self) -> Result<u32, ReadError>
        ensures { Reads (unsigned_at 32) (λ x. x) self.old.rest.now self.new.rest.now result }
    {
        let Some((number, rest)) = long_u32_at(self.rest) else {
            return Err(ReadError::Malformed);
        };
        self.rest = rest;
        Ok(number)
    }

    #[tactic(auto, unfolding(crate::specs::ReadingNumbers::unsigned_at))]
    fn long_u64(&mut self) -> Result<u64, ReadError>
        ensures { Reads (unsigned_at 64) (λ x. x) self.old.rest.now self.new.rest.now result }
    {
        let Some((found, rest)) = wide_sevens_at(self.rest) else {
            return Err(ReadError::Malformed);
        };
        self.rest = rest;
        match u64::try_from(found.sum) {
            Ok(number) => Ok(number),
            Err(_) => Err(ReadError::Malformed),
        }
    }

    #[tactic(auto, unfolding(crate::specs::ReadingNumbers::signed_at))]
    fn long_s32(&mut self) -> Result<i32, ReadError>
        ensures { Reads (signed_at 32) (λ x. x) self.old.rest.now self.new.rest.now result }
    {
        let Some((found, rest)) = sevens_at(self.rest) else {
            return Err(ReadError::Malformed);
        };
        self.rest = rest;
        match i32::try_from(signed(&found)) {
            Ok(number) => Ok(number),
            Err(_) => Err(ReadError::Malformed),
        }
    }

    #[tactic(auto, unfolding(crate::specs::ReadingNumbers::signed_at))]
    fn long_s64(&mut self) -> Result<i64, ReadError>
        ensures { Reads (signed_at 64) (λ x. x) self.old.rest.now self.new.rest.now result }
    {
        let Some((found, rest)) = wide_sevens_at(self.rest) else {
            return Err(ReadError::Malformed);
        };
        self.rest = rest;
        match i64::try_from(wide_signed(&found)) {
            Ok(number) => Ok(number),
            Err(_) => Err(ReadError::Malformed),
        }
    }

    /// A signed number of 33 bits that is not negative, and so below 2^32: bit 6 of the last byte
    /// is its sign.
    #[tactic(auto, unfolding(crate::specs::ReadingNumbers::non_negative_at))]
    fn long_non_negative_s33(&mut self) -> Result<u32, ReadError>
        ensures { Reads (non_negative_at 33) (λ x. x) self.old.rest.now self.new.rest.now result }
    {
        let Some((found, rest)) = sevens_at(self.rest) else {
            return Err(ReadError::Malformed);
        };
        self.rest = rest;
        let is_negative = found.last % 128 >= 64;
        if is_negative {
            return Err(ReadError::Malformed);
        }
        match u32::try_from(found.sum) {
            Ok(number) => Ok(number),
            Err(_) => Err(ReadError::Malformed),
        }
    }

    /// An unsigned number of 32 bits. Most numbers have one byte, so there is a separate path for
    /// that.
    #[inline]
    pub fn u32(&mut self) -> Result<u32, ReadError>
        ensures { Reads (unsigned_at 32) (λ x. x) self.old.rest.now self.new.rest.now result }
    {
        match first_byte(self.rest) {
            Some((byte, rest)) if byte < 128 => {
                self.rest = rest;
                Ok(u32::from(byte))
            }
            _ => self.long_u32(),
        }
    }

    /// An unsigned number of 64 bits.
    #[inline]
    pub fn u64(&mut self) -> Result<u64, ReadError>
        ensures { Reads (unsigned_at 64) (λ x. x) self.old.rest.now self.new.rest.now result }
    {
        match first_byte(self.rest) {
            Some((byte, rest)) if byte < 128 => {
                self.rest = rest;
                Ok(u64::from(byte))
            }
            _ => self.long_u64(),
        }
    }

    /// A signed number of 32 bits.
    #[inline]
    pub fn s32(&mut self) -> Result<i32, ReadError>
        ensures { Reads (signed_at 32) (λ x. x) self.old.rest.now self.new.rest.now result }
    {
        match first_byte(self.rest) {
            Some((byte, rest)) if byte < 64 => {
                self.rest = rest;
                Ok(i32::from(byte))
            }
            _ => self.long_s32(),
        }
    }

    /// A signed number of 64 bits.
    #[inline]
    pub fn s64(&mut self) -> Result<i64, ReadError>
        ensures { Reads (signed_at 64) (λ x. x) self.old.rest.now self.new.rest.now result }
    {
        match first_byte(self.rest) {
            Some((byte, rest)) if byte < 64 => {
                self.rest = rest;
                Ok(i64::from(byte))
            }
            _ => self.long_s64(),
        }
    }

    /// A signed number of 33 bits that is not negative, as the indices of heap types are.
    #[inline]
    pub fn non_negative_s33(&mut self) -> Result<u32, ReadError>
        ensures { Reads (non_negative_at 33) (λ x. x) self.old.rest.now self.new.rest.now result }
    {
        match first_byte(self.rest) {
            Some((byte, rest)) if byte < 64 => {
                self.rest = rest;
                Ok(u32::from(byte))
            }
            _ => self.long_non_negative_s33(),
        }
    }
}
