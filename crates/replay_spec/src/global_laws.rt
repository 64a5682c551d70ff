//! What follows from the plan of globals.

ghost use Rattle.std.specs.Prelude.{◌≡◌, ℕ, List};
ghost use Rattle.wasm_spec.specs.Module.{Expression};
ghost use Rattle.rule_spec.specs.Expressions.{AreGlobalsTyped};
ghost use Rattle.rule_spec.specs.Lists.{Lists};
ghost use Rattle.replay_spec.specs.Globals.{GlobalPlan, ReadEarlier, IsGlobalPlan, AgreesOnGlobals, initialisers};

/// The plan of globals gives each global the value that the module gives it, where each initialiser
/// reads only globals before its own;
/// in a module whose expressions are typed it does.
pub fn global_plan_law()
    ensures agrees { (imports : ℕ) (initialisers : List Expression) (plan : GlobalPlan) → ReadEarlier imports initialisers
        → IsGlobalPlan initialisers plan → AgreesOnGlobals imports initialisers plan }
    ensures typed { (l : Lists) → AreGlobalsTyped l l.imported_globals l.globals → ReadEarlier l.imported_globals (initialisers l) }
{}
