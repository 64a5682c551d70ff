//! Worked examples of the definitions.

ghost use Rattle.std.specs.Prelude.{◌≡◌, ℕ, List, [], ◌∷◌, take, None};
ghost use Rattle.wasm_spec.specs.Grammar.{header};
ghost use Rattle.wasm_spec.specs.TypeGrammar.{memory_type};
ghost use Rattle.refusal_place.specs.declared.kind.SectionKind.TheVariants as kind;
ghost use Rattle.refusal_place.specs.Entries.{IsEntryAt};
ghost use Rattle.refusal_place.specs.Places.{Decides, IsFirstUnspelled, IsPlaceOf};
ghost use Rattle.refusal_place.specs.Worked.{in_header, memory_contents, memory_bytes, at_memory, cut_bytes, at_cut};
ghost use Rattle.refusal_place.specs.Worked.{two_sections, custom_row, memory_row};
ghost use Rattle.refusal_place.specs.SectionList.{IsSectionList, name_of, fields_of};
ghost use Rattle.refusal_place.specs.declared.section_list.SectionPlace.{SectionPlace};

/// The place of a header that is cut, of a memory that is wrong, and of a section that is cut; and
/// places that are not theirs.
pub fn worked_place()
    ensures header { IsPlaceOf (take 4 header) (in_header 4) }
    ensures not_the_byte_before { ¬ IsPlaceOf (take 4 header) (in_header 3) }
    ensures second_memory { IsPlaceOf memory_bytes (at_memory 1 13) }
    ensures not_the_first_memory { (byte : ℕ) → ¬ IsPlaceOf memory_bytes (at_memory 0 byte) }
    ensures first_is_spelled { (offset : ℕ) → ¬ IsFirstUnspelled memory_type memory_contents 0 offset }
    ensures decided { Decides memory_bytes 15 }
    ensures not_decided { ¬ Decides memory_bytes 13 }
    ensures cut { IsPlaceOf cut_bytes (at_cut 11 13) }
    ensures not_a_byte_later { ¬ IsPlaceOf cut_bytes (at_cut 12 13) }
    ensures not_another_end { ¬ IsPlaceOf cut_bytes (at_cut 11 12) }
{}

/// The second of two memories begins three bytes behind the start of the contents, and there is no
/// third.
pub fn worked_entry()
    ensures second { IsEntryAt memory_bytes kind.Memory 1 13 }
    ensures no_third { (byte : ℕ) → ¬ IsEntryAt memory_bytes kind.Memory 2 byte }
{}

/// The sections of an input with two, and of one whose section is cut.
pub fn worked_sections()
    ensures two { (first second : SectionPlace) → fields_of first ≡ custom_row → fields_of second ≡ memory_row
        → IsSectionList two_sections (first ∷ second ∷ []) }
    ensures not_one { (first : SectionPlace) → ¬ IsSectionList two_sections (first ∷ []) }
    ensures not_late { (first second : SectionPlace) → IsSectionList two_sections (first ∷ second ∷ []) → second.start ≡ 13 }
    ensures not_nameless { (first second : SectionPlace) → IsSectionList two_sections (first ∷ second ∷ []) → ¬ (name_of first ≡ None) }
    ensures cut { IsSectionList cut_bytes [] }
    ensures not_cut { (p : SectionPlace) (ps : List SectionPlace) → ¬ IsSectionList cut_bytes (p ∷ ps) }
{}
