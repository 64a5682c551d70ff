//! What follows from the plan of tables and active element segments.

ghost use Rattle.std.specs.Prelude.{◌≡◌, ℕ, Bool, List};
ghost use Rattle.replay_spec.specs.Elements.{ActiveElements, DefinedTable};
ghost use Rattle.replay_spec.specs.Tables.{TablePlan, TakesPrefix, IsTablePlan, AgreesOnTables};

/// The plan of tables and active element segments leaves what the segments leave, over any values
/// of globals and any contents of imported tables, and traps where they trap.
pub fn table_plan_law()
    ensures { (lazy : Bool) (imports : ℕ) (tables : List DefinedTable) (active : List ActiveElements) (plan : TablePlan)
        → IsTablePlan lazy imports tables active plan → AgreesOnTables imports tables active plan }
{}

/// The segments in table images are one prefix of all segments.
pub fn taken_law()
    ensures { (lazy : Bool) (imports : ℕ) (tables : List DefinedTable) (active taken kept others rest : List ActiveElements)
        → TakesPrefix lazy imports tables active taken kept → TakesPrefix lazy imports tables active others rest → taken ≡ others }
{}

/// There is a plan of any tables and active element segments.
pub fn table_plan_exists_law()
    ensures { (lazy : Bool) (imports : ℕ) (tables : List DefinedTable) (active : List ActiveElements) → (plan : TablePlan) × IsTablePlan lazy imports tables active plan }
{}
