//! Worked examples of the definitions.

ghost use Rattle.std.specs.Prelude.{◌≡◌, [], ◌∷◌, List, codes};
ghost use Rattle.refusal_place.specs.SectionList.{fields_of};
ghost use Rattle.refusal_place.specs.declared.section_list.SectionPlace.{SectionPlace};
ghost use Rattle.name_maps.specs.Entries.{NameMapEntry};
ghost use Rattle.name_maps.specs.NameMaps.{subsections_told};
ghost use Rattle.name_maps.specs.Told.{SectionsTell};
ghost use Rattle.name_maps.specs.Worked.{cut_globals, first_global, cut_labels, first_label, skipped_first, of_module, named_bytes, row_with};

/// Names of globals and of labels, of which the second is cut; a subsection that is skipped; and a
/// section with names of globals, which no section of another name tells.
pub fn worked_name_maps()
    ensures global { (subsections_told 8).spells cut_globals (first_global ∷ []) }
    ensures no_other { (entries : List NameMapEntry) → (subsections_told 8).spells cut_globals entries → entries ≡ first_global ∷ [] }
    ensures label { (subsections_told 9).spells cut_labels (first_label ∷ []) }
    ensures module_behind_another { (subsections_told 7).spells skipped_first (of_module ∷ []) }
    ensures section { (p : SectionPlace) → fields_of p ≡ row_with (codes "name") → SectionsTell named_bytes (p ∷ []) (first_global ∷ []) }
    ensures other_name { (p : SectionPlace) → fields_of p ≡ row_with (codes "nome") → ¬ SectionsTell named_bytes (p ∷ []) (first_global ∷ []) }
{}
