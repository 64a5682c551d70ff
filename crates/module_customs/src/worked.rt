//! Worked examples of the definitions: each clause computes.

ghost use Rattle.std.specs.Prelude.{◌≡◌, [], ◌∷◌, codes, Some, None, true, false};
ghost use Rattle.module_customs.specs.Kept.{last_at, kept_hint};
ghost use Rattle.custom_sections.specs.NameLists.{no_names};
ghost use Rattle.module_customs.specs.Hints.{module_hints};
ghost use Rattle.module_customs.specs.Names.{module_names};
ghost use Rattle.module_customs.specs.Worked.{one_import, named, hinted};

/// Function 0 is imported, and named `f` and then `g`.
pub fn worked_names()
    ensures before_the_function { module_names false (named 0x66 ∷ one_import ∷ []) ≡ no_names }
    ensures behind_it { module_names false (one_import ∷ named 0x66 ∷ []) ≡ record no_names { functions = (0, codes "f") ∷ [] } }
    ensures later_name { last_at (module_names false (one_import ∷ named 0x66 ∷ named 0x67 ∷ [])).functions 0 ≡ Some (codes "g") }
{}

/// A section of hints of function 0, and one after it: complete, or cut.
pub fn worked_hints()
    ensures last_counts { module_hints (hinted (0x01 ∷ 0x00 ∷ 0x01 ∷ 0x05 ∷ 0x01 ∷ 0x01 ∷ []) ∷ hinted (0x01 ∷ 0x00 ∷ 0x00 ∷ []) ∷ [])
        ≡ (0, []) ∷ [] }
    ensures cut_is_dropped { module_hints (hinted (0x01 ∷ 0x00 ∷ 0x01 ∷ 0x05 ∷ 0x01 ∷ 0x01 ∷ []) ∷ hinted (0x01 ∷ 0x00 ∷ 0x01 ∷ []) ∷ [])
        ≡ (0, record { func_offset = 5; taken = true } ∷ []) ∷ [] }
{}

/// Two entries of one index.
#[tactic(auto, unfolding(crate::specs::Kept::kept_hint))]
pub fn worked_kept(first: u32, second: u32)
    ensures last_name { last_at ((3, codes "a") ∷ (3, codes "b") ∷ []) 3 ≡ Some (codes "b") }
    ensures first_hints { kept_hint ((3, first) ∷ (3, second) ∷ []) 3 ≡ Some first }
    ensures no_function { kept_hint ((4294967295, first) ∷ []) 4294967295 ≡ None }
{}
