//! What follows from a module and the options alone.

ghost use Rattle.std.specs.Prelude.{◌≡◌, ◌^◌, ◌≤◌, ◌↔◌, ℕ, List, length, sum_by};
ghost use Rattle.wasm_spec.specs.Module.{Module};
ghost use Rattle.replay_spec.specs.Plan.{MemoryPlan};
ghost use Rattle.replay_spec.specs.Tables.{TablePlan};
ghost use Rattle.translate.specs.Contexts.{context_of};
ghost use Rattle.translate.specs.Options.{InitOptions, Options, PlansMemories, PlansTables, startup_by};
ghost use Rattle.translate.specs.Planned.{HasCause, HasMuchData};
ghost use Rattle.translate.specs.Valid.{IsValid};
ghost use Rattle.plan_text.specs.declared.error.TranslateError.{TranslateError};

use plan_text::TranslateError;
use replay_spec::{memory_plan_exists_laws, table_plan_exists_law};

/// Each module has a plan of its memories and one of its tables, and all its plans give the same
/// sizes: the same runtime data, and the same context and startup. So whether a module has much
/// data, fits or overflows depends on the module and the options alone.
pub fn sizes_law()
    ensures memories { (i : InitOptions) (m : Module) → (plan : MemoryPlan) × PlansMemories i m plan }
    ensures tables { (i : InitOptions) (m : Module) → (plan : TablePlan) × PlansTables i m plan }
    ensures runtime { (i : InitOptions) (m : Module) (p q : MemoryPlan) → PlansMemories i m p → PlansMemories i m q → p.runtime ≡ q.runtime }
    ensures context { (o : Options) (m : Module) (p q : MemoryPlan) (s t : TablePlan) → PlansMemories o.init m p → PlansMemories o.init m q
        → PlansTables o.init m s → PlansTables o.init m t → context_of o m p s ≡ context_of o m q t }
    ensures startup { (o : Options) (m : Module) (p q : MemoryPlan) (s t : TablePlan) → PlansMemories o.init m p → PlansMemories o.init m q
        → PlansTables o.init m s → PlansTables o.init m t → startup_by m p s ≡ startup_by m q t }
    // Some plan has much data exactly where each has.
    ensures much { (i : InitOptions) (m : Module)
        → HasMuchData i m ↔ ((plan : MemoryPlan) → PlansMemories i m plan → 2 ^ 32 ≤ sum_by length plan.runtime) }
{
    memory_plan_exists_laws();
    table_plan_exists_law();
}

/// Valid bytes have no cause of a refusal but that memory runs out.
pub fn causes_law()
    ensures { (o : Options) (bytes : List ℕ) (e : TranslateError) → IsValid o bytes → HasCause o bytes e → e ≡ TranslateError.OutOfMemory }
{}
