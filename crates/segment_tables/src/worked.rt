//! Worked examples of the definitions: each clause computes, but those of records.

ghost use Rattle.std.specs.Prelude.{◌≡◌, [], ◌∷◌, length, map, true, None, Some, pos};
ghost use Rattle.wasm_spec.specs.Module.{ActiveElement, PassiveElement, DeclaredElement, Functions, Expressions, Passive, Active, Exports, Start, Elements, Segments};
ghost use Rattle.segment_tables.specs.declared.segment_rows.SegmentsRecord.{SegmentsRecord};
ghost use Rattle.segment_tables.specs.Operators.{operator_row};
ghost use Rattle.segment_tables.specs.Elements.{element_rows};
ghost use Rattle.segment_tables.specs.DataSegments.{data_rows};
ghost use Rattle.segment_tables.specs.References.{module_references, ListsOnce};
ghost use Rattle.segment_tables.specs.Tables.{TellsSegments, module_expressions};

use wasm_spec::{AbstractHeapType, ExternalKind, HeapType, Operator, UnpackedIndex};

/// Rows of operators and segments.
pub fn worked_rows()
    ensures null { operator_row (Operator.RefNull (HeapType.Concrete (UnpackedIndex.Module 3)))
        ≡ record { code = 7; heap = 19; list = 4; index = 3; low = 0; high = 0 } }
    ensures function { operator_row (Operator.RefFunc 4) ≡ record { code = 8; heap = 0; list = 0; index = 4; low = 0; high = 0 } }
    ensures elements { let rows = element_rows 0 0
        (record { kind = ActiveElement None (Operator.I32Const (pos 1) ∷ []); items = Functions (4 ∷ 2 ∷ []) }
        ∷ record { kind = DeclaredElement; items = Expressions (record { nullable = true; heap = HeapType.Abstract AbstractHeapType.Any }) ((Operator.I32Const (pos 5) ∷ Operator.RefI31 ∷ []) ∷ []) } ∷ []) in
        (map (λ row. row.kind) rows ≡ 1 ∷ 2 ∷ [])
        × (map (λ row. row.table) rows ≡ 0 ∷ 0 ∷ [])
        × (map (λ row. row.offset) rows ≡ 0 ∷ 0 ∷ [])
        × (map (λ row. row.expressed) rows ≡ 0 ∷ 1 ∷ [])
        × (map (λ row. row.element) rows ≡ record { kind = 5; nullable = 1; heap = 2; list = 0; index = 0 } ∷ record { kind = 5; nullable = 1; heap = 11; list = 0; index = 0 } ∷ [])
        × (map (λ row. row.functions) rows ≡ record { begin = 0; len = 2 } ∷ record { begin = 2; len = 0 } ∷ [])
        × (map (λ row. row.expressions) rows ≡ record { begin = 1; len = 0 } ∷ record { begin = 1; len = 1 } ∷ []) }
    ensures segments { data_rows 2 (record { kind = Passive; bytes = 7 ∷ [] } ∷ record { kind = Active 1 (Operator.I32Const (pos 8) ∷ []); bytes = [] } ∷ [])
        ≡ (0, 0, 0, 7 ∷ []) ∷ (1, 1, 2, []) ∷ [] }
{}

/// What occurs outside of bodies. The start function does not count.
pub fn worked_references()
    ensures occur { module_references
        (Exports (record { name = []; kind = ExternalKind.Func; index = 4 } ∷ record { name = []; kind = ExternalKind.Memory; index = 9 } ∷ [])
        ∷ Start 2
        ∷ Elements (record { kind = PassiveElement; items = Functions (1 ∷ []) } ∷ [])
        ∷ Segments (record { kind = Active 0 (Operator.RefFunc 6 ∷ []); bytes = 3 ∷ [] } ∷ []) ∷ [])
        ≡ 4 ∷ 1 ∷ 6 ∷ [] }
    ensures alone { ListsOnce (3 ∷ []) (3 ∷ []) }
    ensures missing { ¬ ListsOnce (3 ∷ []) [] }
    ensures twice { ¬ ListsOnce (3 ∷ []) (3 ∷ 3 ∷ []) }
{}

/// The record of a module without sections, and of one with a data segment.
pub fn worked_tables()
    ensures empty { (r : SegmentsRecord) → r.data_segments.now ≡ [] → r.element_segments.now ≡ [] → r.functions.now ≡ []
        → r.expressions.parts.now ≡ [] → r.expressions.operators.now ≡ [] → r.references.now ≡ [] → TellsSegments [] r }
    ensures one { (r : SegmentsRecord) → TellsSegments (Segments (record { kind = Passive; bytes = 7 ∷ [] } ∷ []) ∷ []) r → length r.data_segments.now ≡ 1 }
    ensures order { module_expressions
        (Elements (record { kind = ActiveElement (Some 2) (Operator.I32Const (pos 1) ∷ []); items = Functions [] } ∷ [])
        ∷ Segments (record { kind = Active 0 (Operator.I32Const (pos 8) ∷ []); bytes = [] } ∷ []) ∷ [])
        ≡ (Operator.I32Const (pos 1) ∷ []) ∷ (Operator.I32Const (pos 8) ∷ []) ∷ [] }
{}
