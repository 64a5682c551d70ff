//! A worked example of the definitions.

ghost use Rattle.std.specs.Prelude.{◌≡◌, [], ◌∷◌, ◌++◌, replicate, Some};
ghost use Rattle.rule_spec.specs.WorkedKept.{overlap_bytes};
ghost use Rattle.init_plan.specs.Views.{memory_plan_of};
ghost use Rattle.plan_text.specs.declared.plan.Plan.{Plan};
ghost use Rattle.translate.specs.Planned.{IsPlanned};
ghost use Rattle.translate.specs.Worked.{cow_options};

/// Every plan with `--cow` of the thirty bytes of two overlapping segments has one image: from 0 on
/// one page of 4096 bytes, with 1, 9 and 3 at 16.
pub fn worked_plan()
    ensures { (plan : Plan) → IsPlanned cow_options overlap_bytes plan → (let memories = memory_plan_of plan.translation in
        (memories.images ≡ Some (0, 0) ∷ []) × (memories.runtime ≡ (replicate 16 0 ++ 1 ∷ 9 ∷ 3 ∷ replicate 4077 0) ∷ [])) }
{}
