//! Worked examples of the definitions: each clause computes.

ghost use Rattle.std.specs.Prelude.{◌≡◌, [], ◌∷◌, codes, map, reverse, Some, None};
ghost use Rattle.std.specs.Option.{option_map};
ghost use Rattle.vm_offsets.specs.Context.{align, entry, placed_from, end_from, entry_named, context_entries, context_size, context_table};
ghost use Rattle.vm_offsets.specs.Regions.{regions_back, context_regions};
ghost use Rattle.vm_offsets.specs.Examples.{empty_module, linked_program};

/// A table of two entries with an alignment step between them. The bytes that the step skips count
/// in the region of the first.
pub fn worked_table()
    ensures first { option_map (λ placed. placed.begin) (entry_named (codes "a")
        (placed_from 48 (entry (codes "a") 3 4 ∷ align 8 ∷ entry (codes "b") 1 8 ∷ []))) ≡ Some 48 }
    ensures second { option_map (λ placed. placed.begin) (entry_named (codes "b")
        (placed_from 48 (entry (codes "a") 3 4 ∷ align 8 ∷ entry (codes "b") 1 8 ∷ []))) ≡ Some 64 }
    ensures no_such_entry { entry_named (codes "c") (placed_from 48 (entry (codes "a") 3 4 ∷ align 8 ∷ entry (codes "b") 1 8 ∷ [])) ≡ None }
    ensures end { end_from 48 (entry (codes "a") 3 4 ∷ align 8 ∷ entry (codes "b") 1 8 ∷ []) ≡ 72 }
    ensures regions { regions_back 72 (reverse (placed_from 48 (entry (codes "a") 3 4 ∷ align 8 ∷ entry (codes "b") 1 8 ∷ [])))
        ≡ (codes "b", 8) ∷ (codes "a", 16) ∷ [] }
{}

/// The context of the empty module is its static part, and the others have no bytes.
#[tactic(auto, unfolding(crate::specs::Context::context_entries, crate::specs::Context::context_size, crate::specs::Context::context_table))]
pub fn worked_empty_module()
    ensures size { context_size 8 empty_module ≡ 48 }
    ensures narrow { context_size 4 empty_module ≡ 32 }
    ensures regions { context_regions 8 empty_module
        ≡ (codes "runtime data lengths", 0)
        ∷ (codes "runtime data base pointers", 0)
        ∷ (codes "startup funcref", 0)
        ∷ (codes "module functions", 0)
        ∷ (codes "defined tags", 0)
        ∷ (codes "defined globals", 0)
        ∷ (codes "defined tables", 0)
        ∷ (codes "imported tags", 0)
        ∷ (codes "imported globals", 0)
        ∷ (codes "imported tables", 0)
        ∷ (codes "imported functions", 0)
        ∷ (codes "owned memories", 0)
        ∷ (codes "defined memories", 0)
        ∷ (codes "imported memories", 0)
        ∷ (codes "static vmctx data", 48)
        ∷ [] }
{}

/// The context of a linked program, and the greatest number of imported functions.
#[tactic(auto, unfolding(crate::specs::Context::context_entries, crate::specs::Context::context_size, crate::specs::Context::context_table))]
pub fn worked_programs()
    ensures size { context_size 8 linked_program ≡ 220 }
    ensures regions { map (λ region. region.1) (context_regions 8 linked_program)
        ≡ 4 ∷ 8 ∷ 32 ∷ 64 ∷ 0 ∷ 16 ∷ 24 ∷ 0 ∷ 0 ∷ 0 ∷ 0 ∷ 16 ∷ 8 ∷ 0 ∷ 48 ∷ [] }
    ensures most_functions { context_size 8 (record empty_module { num_imported_functions = 178956968 }) ≡ 4294967280 }
    ensures too_many_functions { context_size 8 (record empty_module { num_imported_functions = 178956969 }) ≡ 4294967312 }
{}
