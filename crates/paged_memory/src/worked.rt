//! Worked examples of the definitions.

ghost use Rattle.std.specs.Prelude.{◌≡◌, ℕ, true, false, List, [], ◌∷◌};
ghost use Rattle.paged_memory.specs.Memory.{as_lent, count_lent, not_lent, page_count, reached};
ghost use Rattle.paged_memory.specs.Writing.{written};

/// Two items that are written from position 1 on.
pub fn two_items_over_four(first: u8, second: u8)
    ensures { written 1 (first ∷ second ∷ []) (9 ∷ 9 ∷ 9 ∷ 9 ∷ []) ≡ 9 ∷ first ∷ second ∷ 9 ∷ [] }
{}

/// Nine bytes are in three pages of four. Two bytes at 3 reach two pages, one byte at 4 reaches
/// one, and no bytes reach none. Of three pages the last two are borrowed, and then the first of
/// these is no longer.
pub fn pages_of_four_bytes()
    ensures pages { page_count 4 9 ≡ 3 }
    ensures two { reached 4 3 (7 ∷ 8 ∷ []) ≡ 2 }
    ensures one { reached 4 4 (7 ∷ []) ≡ 1 }
    ensures none { reached 4 3 [] ≡ 0 }
    ensures lent { as_lent 1 2 (false ∷ false ∷ false ∷ []) ≡ false ∷ true ∷ true ∷ [] }
    ensures written { not_lent 1 1 (false ∷ true ∷ true ∷ []) ≡ false ∷ false ∷ true ∷ [] }
    ensures count { count_lent (false ∷ true ∷ true ∷ []) ≡ 2 }
{}
