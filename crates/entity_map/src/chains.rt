//! A hash table with chains: it finds numbers by their hashes.

ghost use Rattle.std.specs.Prelude.{◌≡◌, ◌≢◌, ℕ, List, ◌+◌, ◌*◌, ◌<◌, ◌≤◌, ◌++◌, ◌∷◌, [], length, slice_get, slice_index, Some, OnOk, IfSome, IfNone};
ghost use Rattle.entity_map.specs.Chains.{room_of, slot, slots_of, IsTable};

use crate::memory::OutOfMemory;
use crate::texts::Texts;
use std::alloc::Global;

/// Numbers by the slots of their hashes: the last of each slot, and the one before each. A link is
/// a number plus one, or 0 where there is none.
/// There are twice as many slots as the capacity for numbers, so that most chains are short.
#[derive(Drop)]
pub(crate) struct Chains {
    last: Vec<u32>,
    before: Vec<u32>,
}

impl Chains {
    /// No slots.
    pub(crate) fn new(alloc: Global) -> Self
        ensures { IsTable [] result }
    {
        Chains {
            last: Vec::new(alloc),
            before: Vec::new(alloc),
        }
    }

    /// Reserves capacity for this many more hashes. A new allocation holds at least twice as
    /// many hashes as there are.
    pub(crate) fn make_room(
        &mut self,
        alloc: Global,
        hashes: &[u32],
        more: u32,
    ) -> Result<(), OutOfMemory>
        requires few { length hashes.now < u32.MAX }
        requires table { IsTable hashes.now self.old }
        ensures room { OnOk result (length hashes.now + more ≤ room_of self.new) }
        ensures table { IsTable hashes.now self.new }
    {
        let wanted = hashes.len() + more as usize;
        if wanted <= self.before.len() {
            return Ok(());
        }
        let room = (2 * hashes.len()).max(wanted).max(8);
        let mut chains = Chains {
            last: Vec::from_elem(alloc, 0, 2 * room)?,
            before: Vec::from_elem(alloc, 0, room)?,
        };
        for number in 0..hashes.len() {
            chains.add(hashes[number], number);
        }
        *self = chains;
        Ok(())
    }

    /// Adds a hash by its number, after those below it.
    pub(crate) fn add(&mut self, hash: u32, number: usize)
        requires room { number < room_of self.old }
        requires few { number < u32.MAX }
        requires twice { slots_of self.old ≡ 2 * room_of self.old }
        ensures room { room_of self.new ≡ room_of self.old }
        ensures table { (hashes : List ℕ) → length hashes ≡ number → IsTable hashes self.old → IsTable (hashes ++ hash ∷ []) self.new }
    {
        let slot = slot(hash, self.last.len());
        self.before[number] = self.last[slot];
        self.last[slot] = number as u32 + 1;
    }

    /// The number of a text, which has this hash.
    pub(crate) fn find(&self, texts: &Texts, hashes: &[u32], hash: u32, text: &str) -> Option<usize>
        requires count { length texts.now ≡ length hashes.now }
        requires table { IsTable hashes.now self.now }
        ensures found { IfSome result (λ i. slice_get texts.now i ≡ Some text.now) }
        ensures absent { IfNone result ((i : ℕ) → i < length hashes.now → slice_index hashes.now i ≡ hash → slice_get texts.now i ≢ Some text.now) }
    {
        if self.last.is_empty() {
            return None;
        }
        let mut link = self.last[slot(hash, self.last.len())];
        while link > 0 {
            let number = link as usize - 1;
            if hashes[number] == hash && texts.get(number) == text {
                return Some(number);
            }
            link = self.before[number];
        }
        None
    }
}

/// The slot of a hash, which is in proportion to it, so that there may be any number of slots.
#[tactic(auto, unfolding(crate::specs::Chains::slot))]
fn slot(hash: u32, slots: usize) -> usize
    requires { 0 < slots }
    ensures value { result ≡ slot slots hash }
    ensures within { result < slots }
{
    ((u128::from(hash) * slots as u128) >> 32) as usize
}
