//! Texts, end to end in one buffer.

ghost use Rattle.std.specs.Prelude.{◌≡◌, ◌+◌, ◌<◌, ◌++◌, ◌∷◌, [], length, slice_get, Some, IfSome, OnOk, OnErr};

use crate::memory::OutOfMemory;
use std::alloc::Global;
use std::marker::Model;

/// The range of a text in its buffer. The buffer has fewer than 2^32 bytes, so a range takes eight.
#[derive(Clone, Copy)]
pub(crate) struct TextRange {
    start: u32,
    end: u32,
}

/// The range of this many bytes after a buffer of `start` bytes.
fn text_range(start: usize, length: usize) -> Option<TextRange>
    ensures { IfSome result (λ place. (place.start ≡ start) × (place.end ≡ start + length)) }
{
    let start = u32::try_from(start).ok()?;
    let end = start.checked_add(u32::try_from(length).ok()?)?;
    Some(TextRange { start, end })
}

/// A list of texts, which needs two allocations in all.
#[derive(Drop)]
pub(crate) struct Texts {
    buffer: String,
    places: Vec<TextRange>,
}

impl Model for Texts {
    ghost use Rattle.std.specs.Prelude.{ℕ, List, All, map};
    ghost use Rattle.std.specs.String.{string_bytes};
    ghost use Rattle.entity_map.specs.Texts.{text_in, IsTextRange};

    ghost Value = { List (List ℕ) };

    ghost view = { λ texts. map (text_in (string_bytes texts.buffer)) texts.places.items };

    ghost invariant = { λ texts. All (IsTextRange (string_bytes texts.buffer)) texts.places.items };
}

impl Texts {
    /// The empty list.
    pub(crate) fn new(alloc: Global) -> Self
        ensures { result ≡ [] }
    {
        Texts {
            buffer: String::new(alloc),
            places: Vec::new(alloc),
        }
    }

    /// Reserves capacity for the ranges of `n` more texts.
    pub(crate) fn reserve(&mut self, n: usize) -> Result<(), OutOfMemory>
        ensures { self.new ≡ self.old }
    {
        self.places.reserve(n)?;
        Ok(())
    }

    /// Adds a text.
    pub(crate) fn push(&mut self, text: &str) -> Result<(), OutOfMemory>
        ensures ok { OnOk result (self.new ≡ self.old ++ text.now ∷ []) }
        ensures err { OnErr result (self.new ≡ self.old) }
    {
        let Some(place) = text_range(self.buffer.len(), text.len()) else {
            return Err(OutOfMemory);
        };
        self.places.reserve(1)?;
        self.buffer.push_str(text)?;
        self.places.push_reserved(place);
        Ok(())
    }

    /// The text at an index.
    pub(crate) fn get(&self, number: usize) -> &str
        requires { number < length self.now }
        ensures { slice_get self.now number ≡ Some result.now }
    {
        let place = self.places[number];
        &self.buffer[place.start as usize..place.end as usize]
    }

    /// The number of texts.
    pub(crate) fn len(&self) -> usize
        ensures { result ≡ length self.now }
    {
        self.places.len()
    }
}
