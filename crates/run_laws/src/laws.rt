//! Laws. Each function is the proof of its clauses.

ghost use Rattle.std.specs.Prelude.{◌≡◌, ℕ, Bool, List, map};
ghost use Rattle.std.specs.Int.{IsPowerOfTwo};
ghost use Rattle.wasm_spec.specs.Module.{Module};
ghost use Rattle.rule_spec.specs.Rules.{Keeps};
ghost use Rattle.wasm_index.specs.declared.index.Index.{Index};
ghost use Rattle.wasm_index.specs.declared.spaces.StaticModuleSpace.{StaticModuleSpace};
ghost use Rattle.wasm_types.specs.declared.tunables.Tunables.{Tunables};
ghost use Rattle.module_types.specs.Builder.{BuilderState};
ghost use Rattle.module_types.specs.TypeList.{TypeList};
ghost use Rattle.module_types.specs.Views.{interned_of};
ghost use Rattle.replay_spec.specs.Images.{ImageOptions};
ghost use Rattle.init_plan.specs.declared.translation.ModuleTranslation.{ModuleTranslation};
ghost use Rattle.module_environ.specs.Translated.{IsTranslated};
ghost use Rattle.interned_types.specs.Types.{declared, interned_list, type_index};
ghost use Rattle.plan_text.specs.declared.plan.Plan.{Plan};
ghost use Rattle.translate.specs.Options.{Options};
ghost use Rattle.translate.specs.Planned.{IsPlanned};
ghost use Rattle.plan_run.specs.declared.laid.Imports.{Imports};
ghost use Rattle.plan_run.specs.declared.laid.Laid.{Laid};
ghost use Rattle.plan_run.specs.declared.laid.Way.{Way};
ghost use Rattle.plan_run.specs.Agreement.{HasFieldsOf, IsOfModule};
ghost use Rattle.plan_run.specs.Finished.{Finished};
ghost use Rattle.plan_run.specs.Laid.{GlobalsAreLaid, MemoriesAreLaid, TablesAreLaid};
ghost use Rattle.run_laws.specs.Alike.{BeginAlike};
ghost use Rattle.translate.specs.Costs.{CostsAtMost};
ghost use Rattle.run_laws.specs.Planned.{MemoriesArePlanned, TablesArePlanned, GainsStartup, AreImportsOf};

use init_plan::held_agreement_laws;
use plan_run::agreement_law;

/// What is planned can be run: what `translate` returns, once both finalize calls have succeeded on
/// it, and the translation of each plan that `translate_module` returns.
pub fn translated_is_finished()
    ensures translated { (tunables : Tunables) (index : Index StaticModuleSpace) (validator : ℕ) (bytes : List ℕ) (types : BuilderState)
        (options : ImageOptions) (lazy : Bool) (old mid new : ModuleTranslation) → IsTranslated tunables index validator bytes old types
        → IsPowerOfTwo options.page → MemoriesArePlanned options old mid → TablesArePlanned lazy mid new → Finished new }
    ensures planned { (o : Options) (bytes : List ℕ) (plan : Plan) → IsPowerOfTwo o.init.page_size → IsPlanned o bytes plan → Finished plan.translation }
{
    // The proof depends on this call, which does nothing when it is run.
    held_agreement_laws();
}

/// Struct types have as many fields as in the module, where the types of a translation are the
/// indices of the declared ones, and the list is the interned list of the module. So they have in
/// what `translate` returns, with the list that `finish` gives once both finalize calls have
/// succeeded on it, and in each plan that `translate_module` returns.
pub fn fields_law()
    ensures listed { (m : Module) (t : ModuleTranslation) (types : TypeList) (startup : Bool) → Keeps m → t.module.types ≡ map type_index (declared m)
        → map interned_of types.types ≡ (interned_list m startup).types → HasFieldsOf m t types }
    ensures translated { (tunables : Tunables) (index : Index StaticModuleSpace) (validator : ℕ) (bytes : List ℕ) (types mid_types new_types : BuilderState)
        (options : ImageOptions) (lazy : Bool) (old mid new : ModuleTranslation) (list : TypeList) (told : IsTranslated tunables index validator bytes old types)
        → MemoriesArePlanned options old mid → GainsStartup old types mid_types → TablesArePlanned lazy mid new → GainsStartup mid mid_types new_types
        → list ≡ new_types.list → HasFieldsOf told.meaning new list }
    ensures planned { (o : Options) (bytes : List ℕ) (plan : Plan) (is : IsPlanned o bytes plan) → HasFieldsOf is.meaning plan.translation plan.types }
{}

/// A plan that `translate_module` returns gives, when it is run, what the initialisers of the
/// module give that the bytes spell.
pub fn laid_law()
    ensures { (o : Options) (bytes : List ℕ) (plan : Plan) (is : IsPlanned o bytes plan) (w : Way) (imports : Imports) (laid : Laid)
        → AreImportsOf plan.translation imports → GlobalsAreLaid plan.translation plan.types imports laid
        → MemoriesAreLaid plan.translation plan.types w imports laid → TablesAreLaid plan.translation plan.types imports laid
        → IsOfModule is.meaning plan.translation imports laid }
{
    // The proof depends on this call, which does nothing when it is run.
    agreement_law();
}

/// Options never matter to what a plan gives. Two plans of the same bytes, whatever each was
/// planned with, begin alike over any imports. Each may be read by its map or by its list.
pub fn options_law()
    ensures { (o p : Options) (bytes : List ℕ) (one other : Plan) → IsPlanned o bytes one → IsPlanned p bytes other → BeginAlike one other }
{}

/// What a plan can cost, by the bytes of the module and the options alone: each entry has a byte of
/// the module; a byte has at most two interned types; images and segments have at most twice the
/// module's bytes, and for each defined memory `max_image` and two pages; an image of a table has
/// at most 1,048,576 cells.
pub fn costs_law()
    ensures { (o : Options) (bytes : List ℕ) (plan : Plan) → IsPlanned o bytes plan → CostsAtMost o.init bytes plan }
{}
