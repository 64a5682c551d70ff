//! Laws of the definitions.

ghost use Rattle.std.specs.Prelude.{◌≡◌, ◌↔◌, ℕ, List, ◌++◌, Bool, Some};
ghost use Rattle.custom_sections.specs.declared.hints.Hint.{Hint};
ghost use Rattle.custom_sections.specs.NameLists.{NameLists, joined_all};
ghost use Rattle.custom_sections.specs.NameReading.{names_before, names_of_section};
ghost use Rattle.custom_sections.specs.NameGrammar.{name_map, SpellsSubsections};
ghost use Rattle.custom_sections.specs.CutNames.{TellNames};
ghost use Rattle.custom_sections.specs.HintReading.{hints_of_section};
ghost use Rattle.custom_sections.specs.HintGrammar.{hint_section};

/// What the grammar of the standard spells is read completely: names one after another, whatever
/// follows, and a section without a fault.
pub fn spelled_names_are_read()
    ensures vector { (front rest : List ℕ) (names : List (ℕ × List ℕ)) → name_map.spells front names
        → names_before (front ++ rest) ≡ (names, Some rest) }
    ensures section { (locals : Bool) (bytes : List ℕ) (all : List NameLists) → SpellsSubsections locals bytes all
        → names_of_section locals bytes ≡ joined_all all }
{}

/// Names are read exactly as the contents of a section tell them: those before the first fault, and
/// no contents tell other names.
pub fn told_names_are_read()
    ensures { (locals : Bool) (contents : List ℕ) (names : NameLists)
        → TellNames locals contents names ↔ (names_of_section locals contents ≡ names) }
{}

/// Hints are read exactly where the grammar spells them: all that the contents of a section spell,
/// and nothing where they spell no such section.
pub fn spelled_hints_are_read()
    ensures { (bytes : List ℕ) (entries : List (ℕ × List Hint)) → hint_section.spells bytes entries ↔ (hints_of_section bytes ≡ Some entries) }
{}
