//! Worked examples of the definitions: each clause computes.

ghost use Rattle.std.specs.Prelude.{◌≡◌, ◌-◌, ◌^◌, [], ◌∷◌};
ghost use Rattle.devices.specs.Calls.{no_calls, FailsNext, after_success, after_fault};
ghost use Rattle.devices.specs.Counter.{raised_by, Rose};
ghost use Rattle.devices.specs.Device.{TellsFront, NothingLeft, since_end_after, since_end_after_fault, IsNotPassed, AppendsFront, AppendsPart};

/// Bytes that move out of a source.
pub fn worked_reads()
    ensures front { TellsFront (Some (7 ∷ 8 ∷ 9 ∷ [])) (7 ∷ 8 ∷ []) (Some (9 ∷ [])) }
    ensures lost { ¬ TellsFront (Some (7 ∷ 8 ∷ 9 ∷ [])) (7 ∷ []) (Some (9 ∷ [])) }
    ensures twice { ¬ TellsFront (Some (7 ∷ [])) (7 ∷ []) (Some (7 ∷ [])) }
    ensures silent { TellsFront None (7 ∷ 8 ∷ []) None }
    ensures falls_silent { ¬ TellsFront (Some (7 ∷ [])) (7 ∷ []) None }
    ensures end { NothingLeft (Some []) }
    ensures no_end { ¬ NothingLeft (Some (9 ∷ [])) }
    ensures before_end { since_end_after 2 (since_end_after_fault None) ≡ None }
    ensures at_end { since_end_after 0 None ≡ Some 0 }
    ensures past_end { since_end_after 0 (since_end_after_fault (Some 0)) ≡ Some 2 }
    ensures not_past { IsNotPassed (since_end_after 0 None) }
    ensures passed { ¬ IsNotPassed (since_end_after 2 (Some 0)) }
{}

/// Bytes that move into a sink.
pub fn worked_writes()
    ensures whole { AppendsFront (Some (1 ∷ [])) (2 ∷ 3 ∷ []) (Some (1 ∷ 2 ∷ 3 ∷ [])) }
    ensures twice { ¬ AppendsFront (Some []) (2 ∷ []) (Some (2 ∷ 2 ∷ [])) }
    ensures silent { AppendsFront None (2 ∷ 3 ∷ []) None }
    ensures part { AppendsPart (Some (1 ∷ [])) (2 ∷ 3 ∷ []) (Some (1 ∷ 2 ∷ [])) }
    ensures no_part { ¬ AppendsPart (Some []) (2 ∷ []) (Some (2 ∷ [])) }
    ensures no_front { ¬ AppendsPart (Some []) (2 ∷ 3 ∷ []) (Some (3 ∷ [])) }
{}

/// Counters, in the middle and at their end.
pub fn worked_counters()
    ensures raised { raised_by 3 4 ≡ 7 }
    ensures ended { raised_by 3 (2 ^ 64 - 2) ≡ 2 ^ 64 - 1 }
    ensures rose { Rose 4 5 }
    ensures stands { Rose (2 ^ 64 - 1) (2 ^ 64 - 1) }
    ensures still { ¬ Rose 4 4 }
{}

/// The second call fails: the first does not, and after the second no other does.
pub fn worked_calls()
    ensures first { ¬ FailsNext (no_calls (2 ∷ [])) }
    ensures second { FailsNext (after_success (no_calls (2 ∷ []))) }
    ensures third { ¬ FailsNext (after_fault (after_success (no_calls (2 ∷ [])))) }
    ensures counted { after_fault (after_success (no_calls (2 ∷ [])))
        ≡ record { failing = 2 ∷ []; made = 2; faults = 1 } }
{}
