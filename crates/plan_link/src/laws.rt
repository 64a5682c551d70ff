//! Laws of linking. Each function is the proof of its clauses.

ghost use Rattle.std.specs.Prelude.{◌≡◌, ◌↔◌, ◌<◌, ◌^◌, ℕ, List, Ok, length, map};
ghost use Rattle.wasm_index.specs.declared.index.Index.{Index};
ghost use Rattle.wasm_index.specs.declared.spaces.StaticModuleSpace.{StaticModuleSpace};
ghost use Rattle.wasm_types.specs.declared.tunables.Tunables.{Tunables};
ghost use Rattle.module_types.specs.Builder.{BuilderState};
ghost use Rattle.init_plan.specs.declared.translation.ModuleTranslation.{ModuleTranslation};
ghost use Rattle.module_environ.specs.Translated.{IsTranslated};
ghost use Rattle.plan_text.specs.declared.plan.Plan.{Plan};
ghost use Rattle.translate.specs.Options.{Options};
ghost use Rattle.translate.specs.Planned.{IsPlanned};
ghost use Rattle.import_match.specs.Definitions.{Definition};
ghost use Rattle.import_match.specs.Resolving.{resolved};
ghost use Rattle.plan_link.specs.declared.answer.ImportAnswer.TheVariants as answer;
ghost use Rattle.plan_link.specs.Answers.{import_answers};
ghost use Rattle.plan_link.specs.Linkable.{IsLinkable};

use module_types::well_named_law;
use type_registry::listed_law;

/// The types of a translated module may be registered. Under a key that has as many types, its
/// exports may be defined and its imports resolved.
pub fn translated_can_link()
    ensures { (tunables : Tunables) (module_index : Index StaticModuleSpace) (validator : ℕ) (bytes : List ℕ) (t : ModuleTranslation) (b : BuilderState)
        → IsTranslated tunables module_index validator bytes t b → IsLinkable t.module b.list }
{
    listed_law();
}

/// So may the types of a plan and the module of its translation. It has fewer types than half of
/// those that a registry may hold.
pub fn planned_can_link()
    ensures linkable { (o : Options) (bytes : List ℕ) (plan : Plan) → IsPlanned o bytes plan → IsLinkable plan.translation.module plan.types }
    ensures types { (o : Options) (bytes : List ℕ) (plan : Plan) → IsPlanned o bytes plan → length plan.types.types < 2 ^ 31 }
    ensures exports { (o : Options) (bytes : List ℕ) (plan : Plan) → IsPlanned o bytes plan
        → length plan.translation.module.exports.entries < 2 ^ 30 }
{
    listed_law();
    well_named_law();
}

/// All imports are given exactly where a linker resolves them, to the same numbers.
pub fn given_law()
    ensures { (ds wants : List Definition) (numbers : List ℕ) → (import_answers ds wants ≡ map answer.Given numbers) ↔ (resolved ds wants ≡ Ok numbers) }
{}
