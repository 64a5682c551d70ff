//! A worked example.

ghost use Rattle.std.specs.Prelude.{ℕ};
ghost use Rattle.module_types.specs.TypeList.{TypeList};
ghost use Rattle.init_plan.specs.declared.translation.ModuleTranslation.{ModuleTranslation};
ghost use Rattle.paged_memory.specs.Memory.{Contents};
ghost use Rattle.plan_run.specs.declared.laid.Imports.{Imports};
ghost use Rattle.plan_run.specs.declared.laid.Laid.{Laid};
ghost use Rattle.plan_run.specs.Worked.{OverlapLaw};

/// A memory whose image holds 1, 9, 3 from 16 on holds them too, and borrows one page. Once 4 is
/// written at 17 it borrows none, and the image still has 9 there.
pub fn lent_image_is_written_over()
    ensures { (t : ModuleTranslation) (types : TypeList) (imports : Imports) (laid : Laid) (index : ℕ) (memory after : Contents) → OverlapLaw t types imports laid index memory after }
{}
