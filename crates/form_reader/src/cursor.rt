//! A position in the input, and bytes that are read there (core specification, 5.1, grammar, and
//! 5.2, names).

ghost use Rattle.std.specs.Prelude.{◌≡◌};
ghost use Rattle.form_reader.specs.Reading.{ByteRead, Reads, raw_bytes_at};
ghost use Rattle.form_reader.specs.ReadingNumbers.{counted_bytes_at, name_at};

use crate::error::ReadError;

/// The bytes that remain to be read. After a failed read they may be any of the bytes that remained
/// before it.
#[derive(Drop)]
pub struct Cursor<'d> {
    pub rest: &'d [u8],
}

impl<'d> Cursor<'d> {
    /// The next byte.
    #[inline]
    pub fn byte(&mut self) -> Result<u8, ReadError>
        ensures { ByteRead self.old.rest.now self.new.rest.now result }
    {
        match self.rest {
            [] => Err(ReadError::Malformed),
            [byte, rest @ ..] => {
                self.rest = rest;
                Ok(*byte)
            }
        }
    }

    /// The next `count` bytes.
    #[inline(always)]
    #[tactic(auto, unfolding(crate::specs::Reading::raw_bytes_at))]
    pub fn raw_bytes(&mut self, count: u32) -> Result<&'d [u8], ReadError>
        ensures { Reads (raw_bytes_at count) (λ x. x.now) self.old.rest.now self.new.rest.now result }
    {
        let count = count as usize;
        if self.rest.len() < count {
            return Err(ReadError::Malformed);
        }
        let (front, rest) = self.rest.split_at(count);
        self.rest = rest;
        Ok(front)
    }

    /// As `raw_bytes`, where the number of bytes is a constant.
    #[tactic(auto, unfolding(crate::specs::Reading::raw_bytes_at))]
    pub fn byte_array<const N: usize>(&mut self) -> Result<[u8; N], ReadError>
        ensures { Reads (raw_bytes_at N) (λ x. x) self.old.rest.now self.new.rest.now result }
    {
        match self.rest.split_first_chunk::<N>() {
            Some((front, rest)) => {
                self.rest = rest;
                Ok(*front)
            }
            None => Err(ReadError::Malformed),
        }
    }

    /// A count, and that many bytes.
    #[inline(always)]
    #[tactic(auto, unfolding(crate::specs::ReadingNumbers::counted_bytes_at))]
    pub fn counted_bytes(&mut self) -> Result<&'d [u8], ReadError>
        ensures { Reads counted_bytes_at (λ x. x.now) self.old.rest.now self.new.rest.now result }
    {
        let count = self.u32()?;
        self.raw_bytes(count)
    }

    /// A size, and a cursor over the bytes that fill it.
    pub fn sized(&mut self) -> Result<Cursor<'d>, ReadError>
        ensures { Reads counted_bytes_at (λ x. x.rest.now) self.old.rest.now self.new.rest.now result }
    {
        let rest = self.counted_bytes()?;
        Ok(Cursor { rest })
    }

    /// A name, which is valid UTF-8.
    #[inline(always)]
    #[tactic(auto, unfolding(crate::specs::ReadingNumbers::name_at))]
    pub fn name(&mut self) -> Result<&'d str, ReadError>
        ensures { Reads name_at (λ x. x.now) self.old.rest.now self.new.rest.now result }
    {
        let bytes = self.counted_bytes()?;
        match std::str::from_utf8(bytes) {
            Ok(name) => Ok(name),
            Err(_) => Err(ReadError::Malformed),
        }
    }
}
