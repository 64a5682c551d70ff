//! Laws.

ghost use Rattle.plan_run.specs.declared.laid.Imports.{Imports};
ghost use Rattle.plan_run.specs.declared.laid.Laid.{Laid};
ghost use Rattle.plan_run.specs.declared.laid.Way.{Way};
ghost use Rattle.module_types.specs.TypeList.{TypeList};
ghost use Rattle.init_plan.specs.declared.translation.ModuleTranslation.{ModuleTranslation};
ghost use Rattle.plan_run.specs.Agreement.{AgreementLaw};

/// A run of a plan that agrees with a module gives what the module's initialisers give.
pub fn agreement_law()
    ensures { (t : ModuleTranslation) (types : TypeList) (w : Way) (imports : Imports) (laid : Laid) → AgreementLaw t types w imports laid }
{}
