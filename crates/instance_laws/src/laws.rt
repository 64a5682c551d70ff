//! What a plan means for an instance. Each function is the proof of its clauses.

ghost use Rattle.std.specs.Prelude.{ℕ, List};
ghost use Rattle.std.specs.Int.{IsPowerOfTwo};
ghost use Rattle.replay_spec.specs.Phases.{Phase};
ghost use Rattle.replay_spec.specs.Values.{Value};
ghost use Rattle.plan_text.specs.declared.plan.Plan.{Plan};
ghost use Rattle.translate.specs.Options.{Options};
ghost use Rattle.translate.specs.Planned.{IsPlanned};
ghost use Rattle.instance_laws.specs.Recipes.{InstantiatesAlike};
ghost use Rattle.instance_laws.specs.Running.{LeavesPhase};

/// What a phase leaves at each position, and where it traps, is what running its segments in turn
/// gives: of bytes in memories, and of cells in tables.
pub fn phase_law()
    ensures bytes { (phase : Phase ℕ) → LeavesPhase phase }
    ensures cells { (phase : Phase Value) → LeavesPhase phase }
{}

/// Instantiating a plan is instantiating its module: over any objects, of which imports may name
/// one twice, with the same trap and the same start.
pub fn instance_law()
    ensures { (o : Options) (bytes : List ℕ) (plan : Plan) (is : IsPlanned o bytes plan) → IsPowerOfTwo o.init.page_size
        → InstantiatesAlike is.meaning plan.translation }
{}
