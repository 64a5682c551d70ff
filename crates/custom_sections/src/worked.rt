//! Worked examples of the definitions: each clause computes.

ghost use Rattle.std.specs.Prelude.{◌≡◌, ℕ, ◌<◌, List, [], ◌∷◌, ◌++◌, take, length, codes, Some, None, true, false};
ghost use Rattle.custom_sections.specs.declared.hints.Hint.{Hint};
ghost use Rattle.custom_sections.specs.HintGrammar.{hint_section};
ghost use Rattle.custom_sections.specs.NameLists.{no_names};
ghost use Rattle.custom_sections.specs.CutNames.{TellNames};
ghost use Rattle.custom_sections.specs.NameReading.{names_of_section};
ghost use Rattle.custom_sections.specs.DebugNames.{is_debug};

/// Names of custom sections.
#[tactic(auto, unfolding(crate::specs::DebugNames::is_debug))]
pub fn worked_debug_names()
    ensures plain { is_debug (codes ".debug_info") ≡ true }
    ensures split { is_debug (codes ".debug_line.dwo.dwo") ≡ true }
    ensures other { is_debug (codes "debug_info") ≡ false }
    ensures no_more { is_debug (codes ".debug.dwo") ≡ false }
{}

/// A section with one hint of function 2, cut anywhere.
pub fn worked_hints()
    ensures whole { hint_section.spells (0x01 ∷ 0x02 ∷ 0x01 ∷ 0x05 ∷ 0x01 ∷ 0x01 ∷ [])
        ((2, record { func_offset = 5; taken = true } ∷ []) ∷ []) }
    ensures cut { (n : ℕ) (entries : List (ℕ × List Hint)) → n < 6
        → ¬ hint_section.spells (take n (0x01 ∷ 0x02 ∷ 0x01 ∷ 0x05 ∷ 0x01 ∷ 0x01 ∷ [])) entries }
    ensures other_byte { (entries : List (ℕ × List Hint))
        → ¬ hint_section.spells (0x01 ∷ 0x02 ∷ 0x01 ∷ 0x05 ∷ 0x01 ∷ 0x02 ∷ []) entries }
    ensures longer { (entries : List (ℕ × List Hint))
        → ¬ hint_section.spells (0x01 ∷ 0x02 ∷ 0x01 ∷ 0x05 ∷ 0x01 ∷ 0x01 ∷ 0x00 ∷ []) entries }
{}

/// Sections with one fault, or none.
pub fn worked_names()
    ensures module_before_a_fault { names_of_section false (0x00 ∷ 0x02 ∷ 0x01 ∷ 0x6D ∷ 0x01 ∷ 0x7F ∷ [])
        ≡ record no_names { module_name = Some (codes "m") } }
    ensures byte_behind_the_name_of_the_module { names_of_section false (0x00 ∷ 0x03 ∷ 0x01 ∷ 0x6D ∷ 0x00 ∷ []) ≡ no_names }
    ensures fault_within_a_vector { names_of_section false (0x01 ∷ 0x06 ∷ 0x02 ∷ 0x00 ∷ 0x01 ∷ 0x61 ∷ 0x01 ∷ 0x05 ∷ [])
        ≡ record no_names { functions = (0, codes "a") ∷ [] } }
    ensures higher_ids_are_skipped { names_of_section false (0x09 ∷ 0x02 ∷ 0xFF ∷ 0xFF ∷ 0x00 ∷ 0x02 ∷ 0x01 ∷ 0x6D ∷ [])
        ≡ record no_names { module_name = Some (codes "m") } }
    ensures locals_are_skipped { names_of_section false (0x02 ∷ 0x02 ∷ 0xFF ∷ 0xFF ∷ 0x00 ∷ 0x02 ∷ 0x01 ∷ 0x6D ∷ [])
        ≡ record no_names { module_name = Some (codes "m") } }
    ensures locals_are_read { names_of_section true (0x02 ∷ 0x06 ∷ 0x01 ∷ 0x03 ∷ 0x01 ∷ 0x00 ∷ 0x01 ∷ 0x78 ∷ [])
        ≡ record no_names { locals = (3, (0, codes "x") ∷ []) ∷ [] } }
    ensures fault_within_locals { names_of_section true (0x02 ∷ 0x02 ∷ 0xFF ∷ 0xFF ∷ 0x00 ∷ 0x02 ∷ 0x01 ∷ 0x6D ∷ []) ≡ no_names }
{}

/// Two names, and two functions with names of locals, each cut in the second.
pub fn worked_cut_names()
    ensures first_name { TellNames false (0x01 ∷ 0x06 ∷ 0x02 ∷ 0x00 ∷ 0x01 ∷ 0x61 ∷ 0x01 ∷ 0x05 ∷ [])
        (record no_names { functions = (0, codes "a") ∷ [] }) }
    ensures not_nothing { ¬ TellNames false (0x01 ∷ 0x06 ∷ 0x02 ∷ 0x00 ∷ 0x01 ∷ 0x61 ∷ 0x01 ∷ 0x05 ∷ []) no_names }
    ensures first_local { TellNames true (0x02 ∷ 0x07 ∷ 0x02 ∷ 0x03 ∷ 0x02 ∷ 0x00 ∷ 0x01 ∷ 0x78 ∷ 0x01 ∷ [])
        (record no_names { locals = (3, (0, codes "x") ∷ []) ∷ [] }) }
{}
