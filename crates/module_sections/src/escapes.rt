//! The functions to which references are made, and their numbers.

ghost use Rattle.std.specs.Prelude.{◌≡◌, ◌+◌, ◌<◌, ◌≤◌, ◌∷◌, [], length, map, All, IfOk, OnOk};
ghost use Rattle.std.specs.List.{range_with_len};
ghost use Rattle.wasm_index.specs.Index.{number_of};
ghost use Rattle.module_sections.specs.Escapes.{number_among};
ghost use Rattle.module_sections.specs.EscapeLog.{after_escapes};

use entity_map::{EntityRef, OutOfMemory, ReservedValue};
use std::alloc::Global;
use std::marker::Model;
use wasm_index::FuncIndex;
use wasm_module::FuncRefIndex;

/// The functions to which the module makes references, each once, in the order in which it first
/// does.
#[derive(Drop)]
pub(crate) struct Escaping {
    // The number of each function, and `u32::MAX` for one to which no reference is made yet.
    numbers: Vec<u32>,
    order: Vec<u32>,
}

impl Model for Escaping {
    ghost use Rattle.std.specs.Prelude.{length};
    ghost use Rattle.module_sections.specs.EscapeLog.{EscapeLog};
    ghost use Rattle.module_sections.specs.Numbers.{AreNumbers};

    ghost Value = { EscapeLog };

    ghost view = { λ e. record { count = length e.numbers.items; order = e.order.items } };

    ghost invariant = { λ e. AreNumbers e.numbers.items e.order.items };
}

impl Escaping {
    /// `count` functions, to which no reference is made yet.
    pub(crate) fn new(alloc: Global, count: usize) -> Result<Self, OutOfMemory>
        requires { count < u32.MAX }
        ensures { IfOk result (λ e. e ≡ record { count = count; order = [] }) }
    {
        Ok(Escaping {
            numbers: vec![in alloc; u32::MAX; count]?,
            order: Vec::new(alloc),
        })
    }

    /// Records a reference to a function; only the first one has an effect.
    pub(crate) fn note_escape(&mut self, function: FuncIndex) -> Result<(), OutOfMemory>
        requires { number_of function < self.old.count }
        ensures { OnOk result (self.new ≡ after_escapes self.old (number_of function ∷ [])) }
    {
        self.note_escape_at(function.index())
    }

    /// Records references to functions, in order.
    pub(crate) fn note_escapes(&mut self, functions: &[FuncIndex]) -> Result<(), OutOfMemory>
        requires { All (λ f. number_of f < self.old.count) functions.now }
        ensures { OnOk result (self.new ≡ after_escapes self.old (map number_of functions.now)) }
    {
        for function in functions {
            self.note_escape(*function)?;
        }
        Ok(())
    }

    /// Records references to functions with consecutive numbers.
    pub(crate) fn note_escape_range(&mut self, start: u32, count: u32) -> Result<(), OutOfMemory>
        requires { start + count ≤ self.old.count }
        ensures { OnOk result (self.new ≡ after_escapes self.old (range_with_len start count)) }
    {
        for offset in 0..count {
            self.note_escape_at(start as usize + offset as usize)?;
        }
        Ok(())
    }

    // Records a reference to the function of a number.
    #[inline(always)]
    fn note_escape_at(&mut self, function: usize) -> Result<(), OutOfMemory>
        requires { function < self.old.count }
        ensures { OnOk result (self.new ≡ after_escapes self.old (function ∷ [])) }
    {
        if self.numbers[function] == u32::MAX {
            let number = self.order.len() as u32;
            self.order.push(function as u32)?;
            self.numbers[function] = number;
        }
        Ok(())
    }

    /// The number of a function among those to which references are made, and the reserved one for
    /// another function.
    pub(crate) fn number(&self, function: FuncIndex) -> FuncRefIndex
        requires { number_of function < self.now.count }
        ensures number { number_of result ≡ number_among self.now.order (number_of function) }
        ensures few { self.now.count < u32.MAX }
    {
        let number = self.numbers[function.index()];
        if number == u32::MAX {
            FuncRefIndex::reserved_value()
        } else {
            FuncRefIndex::from_u32(number)
        }
    }

    /// The number of functions to which references are made.
    pub(crate) fn len(&self) -> usize
        ensures len { result ≡ length self.now.order }
        ensures few { result ≤ self.now.count }
    {
        self.order.len()
    }

    /// The functions to which the module makes references, in the order in which it first does.
    pub(crate) fn order(&self) -> &[u32]
        ensures listed { result.now ≡ self.now.order }
        ensures in_range { All (λ f. f < self.now.count) result.now }
    {
        self.order.as_slice()
    }
}
