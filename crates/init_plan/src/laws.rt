//! A translation that holds a module's lists has the phases of these lists. So a plan leaves for
//! the module what it leaves for the translation.

ghost use Rattle.std.specs.Prelude.{◌≡◌, map};
ghost use Rattle.wasm_spec.specs.Module.{Module, defined_memories};
ghost use Rattle.rule_spec.specs.Expressions.{AreGlobalsTyped};
ghost use Rattle.rule_spec.specs.Lists.{lists_of_module};
ghost use Rattle.replay_spec.specs.Plan.{MemoryPlan, AgreesOver, Agrees};
ghost use Rattle.replay_spec.specs.Images.{image_memory_of};
ghost use Rattle.replay_spec.specs.Tables.{TablePlan, AgreesOnTables};
ghost use Rattle.replay_spec.specs.Globals.{GlobalPlan, AgreesOnGlobals, initialisers};
ghost use Rattle.init_plan.specs.declared.translation.ModuleTranslation.{ModuleTranslation};
ghost use Rattle.init_plan.specs.Views.{initializers_of, defined_sizes};
ghost use Rattle.init_plan.specs.Images.{image_memories};
ghost use Rattle.init_plan.specs.Tables.{tables_of, elements_of};
ghost use Rattle.init_plan.specs.Held.{plan_of_globals, HoldsMemories, HoldsTables, HoldsGlobals};
ghost use Rattle.init_plan.specs.Agreement.{AgreesOnElements, AgreesInAll};

/// Where a translation holds a module's lists, a plan that agrees with the translation agrees with
/// the module.
pub fn held_agreement_laws()
    ensures memories { (m : Module) (t : ModuleTranslation) → HoldsMemories m t → image_memories t.module ≡ map image_memory_of (defined_memories m) }
    ensures data { (m : Module) (t : ModuleTranslation) (plan : MemoryPlan) → HoldsMemories m t
        → AgreesOver t.module.num_imported_memories (defined_sizes t.module) (initializers_of t) plan → Agrees m plan }
    ensures elements { (m : Module) (t : ModuleTranslation) (plan : TablePlan) → HoldsTables m t
        → AgreesOnTables t.module.num_imported_tables (tables_of t) (elements_of t) plan → AgreesOnElements m plan }
    ensures globals { (m : Module) (t : ModuleTranslation) → HoldsGlobals m t
        → (let l = lists_of_module m in AreGlobalsTyped l l.imported_globals l.globals)
        → AgreesOnGlobals (lists_of_module m).imported_globals (initialisers (lists_of_module m)) (plan_of_globals t) }
{}

/// Globals, memories and tables agree together, over the final values of the globals.
pub fn agreement_law()
    ensures { (m : Module) (globals : GlobalPlan) (memories : MemoryPlan) (tables : TablePlan)
        → AgreesOnGlobals (lists_of_module m).imported_globals (initialisers (lists_of_module m)) globals
        → Agrees m memories → AgreesOnElements m tables → AgreesInAll m globals memories tables }
{}
