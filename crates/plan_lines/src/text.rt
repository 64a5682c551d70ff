//! A text that grows in memory.

ghost use Rattle.std.specs.Prelude.{◌≡◌, ◌<◌, ◌≤◌, ◌++◌, ◌∷◌, [], false, IfOk, OnOk};
ghost use Rattle.std.specs.Fmt.{digit_glyph};
ghost use Rattle.plan_lines.specs.Expressions.{hexadecimal};

use crate::room::{make_room, put, put_byte};
use entity_map::OutOfMemory;
use itoa::{Buffer, Integer};
use std::alloc::Global;
use std::marker::Model;

/// Bytes that are written from the first to the last. After a failure the text may end anywhere.
#[derive(Drop)]
pub struct Text {
    // The bytes, and spare capacity behind them: so most writes are a test of its length, and a
    // copy.
    pub(crate) room: Vec<u8>,
    pub(crate) used: usize,
}

impl Model for Text {
    ghost use Rattle.std.specs.Prelude.{◌≤◌, ℕ, List, take, vec_len};

    ghost Value = { List ℕ };

    ghost view = { λ t. take t.used t.room.items };

    ghost invariant = { λ t. t.used ≤ vec_len t.room };
}

impl Text {
    /// The empty text.
    pub fn new(alloc: Global) -> Self
        ensures { result ≡ [] }
    {
        Text {
            room: Vec::new(alloc),
            used: 0,
        }
    }

    /// The empty text, with capacity for `n` bytes.
    ///
    /// # Errors
    /// `OutOfMemory` where the capacity finds no memory.
    pub fn with_capacity(alloc: Global, n: usize) -> Result<Self, OutOfMemory>
        ensures { IfOk result (λ text. text ≡ []) }
    {
        Ok(Text {
            room: Vec::with_capacity(alloc, n)?,
            used: 0,
        })
    }

    /// The bytes of the text.
    pub fn into_bytes(self) -> Vec<u8>
        ensures { result.items ≡ self }
    {
        let Text { mut room, used } = self;
        room.truncate(used);
        room
    }

    /// Appends words.
    ///
    /// # Errors
    /// `OutOfMemory`; the text may then end anywhere.
    #[inline(always)]
    pub fn push_str(&mut self, words: &str) -> Result<(), OutOfMemory>
        ensures { OnOk result (self.new ≡ self.old ++ words.now) }
    {
        self.push_bytes(words.as_bytes())
    }

    // Appends bytes.
    #[inline(always)]
    pub(crate) fn push_bytes(&mut self, bytes: &[u8]) -> Result<(), OutOfMemory>
        ensures { OnOk result (self.new ≡ self.old ++ bytes.now) }
    {
        make_room(&mut self.room, self.used, bytes.len())?;
        self.used = put(&mut self.room, self.used, bytes);
        Ok(())
    }

    /// Appends one byte.
    ///
    /// # Errors
    /// `OutOfMemory`; the text may then end anywhere.
    #[inline(always)]
    pub fn push_byte(&mut self, byte: u8) -> Result<(), OutOfMemory>
        ensures { OnOk result (self.new ≡ self.old ++ byte ∷ []) }
    {
        make_room(&mut self.room, self.used, 1)?;
        self.used = put_byte(&mut self.room, self.used, byte);
        Ok(())
    }

    /// Appends a number in decimal, with a minus sign where it is below 0.
    ///
    /// # Errors
    /// `OutOfMemory`; the text may then end anywhere.
    #[inline(always)]
    pub fn push_number<I: Integer>(&mut self, number: I) -> Result<(), OutOfMemory>
        ensures { OnOk result (self.new ≡ self.old ++ I.text number) }
    {
        let mut buffer = Buffer::new();
        self.push_str(buffer.format(number))
    }

    /// Appends the last `digits` digits of a number in base 16, with zeros in front where it has
    /// fewer.
    ///
    /// # Errors
    /// `OutOfMemory`; the text may then end anywhere.
    pub fn push_hexadecimal(&mut self, number: u128, digits: usize) -> Result<(), OutOfMemory>
        requires { digits ≤ 32 }
        ensures { OnOk result (self.new ≡ self.old ++ hexadecimal digits number) }
    {
        for place in (0..digits).rev() {
            let digit = (number >> (4 * place)) % 16;
            self.push_byte(hexadecimal_digit(digit as u8))?;
        }
        Ok(())
    }
}

fn hexadecimal_digit(digit: u8) -> u8
    requires { digit < 16 }
    ensures { result ≡ digit_glyph false digit }
{
    if digit < 10 {
        b'0' + digit
    } else {
        b'a' + (digit - 10)
    }
}
