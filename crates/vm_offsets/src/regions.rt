//! The regions of a context.

ghost use Rattle.std.specs.Prelude.{◌≡◌, ◌<◌, ◌∷◌, map, reverse, slice_get, Some};
ghost use Rattle.std.specs.Option.{option_map};
ghost use Rattle.std.specs.Iterator.{YieldsFirstBy, item_count};
ghost use Rattle.vm_offsets.specs.Falls.{part_label, entry_label};
ghost use Rattle.vm_offsets.specs.Layouts.{fields_of, pointer_of, entries_of};
ghost use Rattle.vm_offsets.specs.Regions.{context_regions, static_part};

use crate::accessors::{
    FUNC_REFS, GLOBALS, IMPORTED_FUNCTIONS, IMPORTED_GLOBALS, IMPORTED_MEMORIES, IMPORTED_TABLES,
    IMPORTED_TAGS, MEMORIES, OWNED_MEMORIES, RUNTIME_DATA_BASES, RUNTIME_DATA_LENGTHS,
    STARTUP_FUNC_REF, TABLES, TAGS,
};
use crate::offsets::VMOffsets;
use crate::part::ContextPart;
use crate::table::ENTRIES;
use std::marker::Model;
use vm_structs::PtrSize;

/// Gives the description and the size, in bytes, of each region of a context. A contract views it
/// as the list of those that remain.
#[derive(Drop)]
pub struct RegionSizes {
    parts: [ContextPart; ENTRIES + 1],
    next: usize,
    end: u32,
}

impl Model for RegionSizes {
    ghost use Rattle.std.specs.Prelude.{ℕ, List, map, drop};
    ghost use Rattle.vm_offsets.specs.Regions.{regions_back};
    ghost use Rattle.vm_offsets.specs.Falls.{Falls, part_entry};

    ghost Value = { List (List ℕ × ℕ) };

    ghost view = { λ it. regions_back it.end (map part_entry (drop it.next it.parts)) };

    ghost invariant = { λ it. Falls it.end (drop it.next it.parts) };
}

impl Iterator for RegionSizes {
    type Item = (&'static str, u32);

    ghost next_gives = { YieldsFirstBy (λ item. (item.0.now, item.1)) (λ left. left) };

    ghost remaining = { item_count (λ left. left) };

    fn next(&mut self) -> Option<(&'static str, u32)> {
        let part = *self.parts.get(self.next)?;
        let size = self.end - part.begin;
        self.end = part.begin;
        self.next += 1;
        Some((part.description, size))
    }
}

impl<P: PtrSize> VMOffsets<P> {
    // The part that begins with the entry at a position.
    fn part(&self, description: &'static str, place: usize) -> ContextPart
        requires { place < ENTRIES }
        ensures description { result.description.now ≡ description.now }
        ensures begin { option_map (λ placed. placed.begin) (slice_get (entries_of self.now) place) ≡ Some result.begin }
    {
        ContextPart {
            description,
            begin: self.entry(place).begin,
        }
    }

    // The parts of the context, the last one first.
    #[tactic(auto, unfolding(crate::specs::Context::context_entries, crate::specs::Context::context_table))]
    fn parts(&self) -> [ContextPart; ENTRIES + 1]
        ensures { map part_label result ≡ map entry_label (reverse (static_part ∷ entries_of self.now)) }
    {
        [
            self.part("runtime data lengths", RUNTIME_DATA_LENGTHS),
            self.part("runtime data base pointers", RUNTIME_DATA_BASES),
            self.part("startup funcref", STARTUP_FUNC_REF),
            self.part("module functions", FUNC_REFS),
            self.part("defined tags", TAGS),
            self.part("defined globals", GLOBALS),
            self.part("defined tables", TABLES),
            self.part("imported tags", IMPORTED_TAGS),
            self.part("imported globals", IMPORTED_GLOBALS),
            self.part("imported tables", IMPORTED_TABLES),
            self.part("imported functions", IMPORTED_FUNCTIONS),
            self.part("owned memories", OWNED_MEMORIES),
            self.part("defined memories", MEMORIES),
            self.part("imported memories", IMPORTED_MEMORIES),
            ContextPart {
                description: "static vmctx data",
                begin: 0,
            },
        ]
    }

    /// The regions of the context, the last one first. The region of an entry reaches to the next
    /// entry, or to the end, so padding counts in the region before it. The part that every module
    /// has is returned last.
    pub fn region_sizes(&self) -> RegionSizes
        ensures { result ≡ context_regions (pointer_of self.now) (fields_of self.now) }
    {
        RegionSizes {
            parts: self.parts(),
            next: 0,
            end: self.size,
        }
    }
}
