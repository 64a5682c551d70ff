//! Worked examples of tables, globals and startup: each clause computes, or is proved from its parts.

ghost use Rattle.std.specs.Prelude.{◌≡◌, [], ◌∷◌, Some, None, pos, true};
ghost use Rattle.wasm_spec.specs.declared.operators.Operator.TheVariants as op;
ghost use Rattle.replay_spec.specs.Values.{I32, Ref, Null, Func};
ghost use Rattle.replay_spec.specs.Phases.{content_of, trap_of};
ghost use Rattle.replay_spec.specs.Elements.{elements_phase};
ghost use Rattle.replay_spec.specs.Tables.{constant_place, end_on, TakesPrefix, IsTablePlan, planned_elements_phase};
ghost use Rattle.replay_spec.specs.Globals.{values_after, planned_globals};
ghost use Rattle.replay_spec.specs.Startup.{Never, Always, raised_by_tables};
ghost use Rattle.replay_spec.specs.WorkedTables.{four_cells, functions_at, three_cells, from_a_global, imaged, second_traps, first_imaged, three_globals, planned_three};

/// What element segments leave in a table, and where they trap; a plan with an image leaves the same.
pub fn worked_element_phases()
    ensures before { content_of (elements_phase [] (λ t. 0) [] (four_cells ∷ []) second_traps) 0 0 ≡ Ref Null }
    ensures first { content_of (elements_phase [] (λ t. 0) [] (four_cells ∷ []) second_traps) 0 1 ≡ Ref (Func 5) }
    ensures last { content_of (elements_phase [] (λ t. 0) [] (four_cells ∷ []) second_traps) 0 3 ≡ Ref Null }
    ensures second_traps { trap_of (elements_phase [] (λ t. 0) [] (four_cells ∷ []) second_traps) ≡ Some 2 }
    ensures planned_first { content_of (planned_elements_phase [] (λ t. 0) [] first_imaged) 0 1 ≡ Ref (Func 5) }
    ensures planned_last { content_of (planned_elements_phase [] (λ t. 0) [] first_imaged) 0 3 ≡ Ref Null }
    ensures planned_traps { trap_of (planned_elements_phase [] (λ t. 0) [] first_imaged) ≡ Some 2 }
    // The value of a global is written to an imported table. Cells that no segment covers are
    // unchanged.
    ensures global { content_of (elements_phase (Ref (Func 9) ∷ []) (λ t. 0) ((Ref Null ∷ Ref (Func 3) ∷ []) ∷ []) [] (from_a_global ∷ [])) 0 0 ≡ Ref (Func 9) }
    ensures imported { content_of (elements_phase (Ref (Func 9) ∷ []) (λ t. 0) ((Ref Null ∷ Ref (Func 3) ∷ []) ∷ []) [] (from_a_global ∷ [])) 0 1 ≡ Ref (Func 3) }
{}

/// Which segments are in the image of a table.
pub fn worked_table_images()
    ensures functions_and_null { IsTablePlan true 0 (four_cells ∷ []) (three_cells ∷ []) (imaged (None ∷ Some 0 ∷ None ∷ Some 0 ∷ [])) }
    // No segment after a kept segment is in an image.
    ensures prefix { TakesPrefix true 0 (four_cells ∷ []) (three_cells ∷ from_a_global ∷ three_cells ∷ []) (three_cells ∷ []) (from_a_global ∷ three_cells ∷ []) }
    // An offset is a constant of an integer class.
    ensures sum { constant_place (op.I32Const (pos 1) ∷ op.I32Const (pos 2) ∷ op.I32Add ∷ []) ≡ Some 3 }
    ensures float { constant_place (op.F32Const 0 ∷ []) ≡ None }
    // An empty segment counts too.
    ensures empty { end_on 0 (functions_at (pos 3) [] ∷ functions_at (pos 0) (1 ∷ []) ∷ []) ≡ 3 }
{}

/// The values of globals, of which one is known before any code runs.
pub fn worked_globals()
    ensures module { values_after (λ t. 0) (I32 41 ∷ []) three_globals ≡ I32 41 ∷ I32 42 ∷ I32 7 ∷ I32 49 ∷ [] }
    ensures plan { planned_globals (λ t. 0) (I32 41 ∷ []) planned_three ≡ I32 41 ∷ I32 42 ∷ I32 7 ∷ I32 49 ∷ [] }
{}

/// Startup is raised by a kept segment, and not by images alone.
pub fn worked_startup()
    ensures images { raised_by_tables (imaged (Some 0 ∷ [])) Never ≡ Never }
    ensures kept { raised_by_tables first_imaged Never ≡ Always }
{}
