//! The bytes and the options determine what is answered. Each function is the proof of its clauses.

ghost use Rattle.std.specs.Prelude.{◌≡◌, ◌≢◌, ◌⊎◌, ◌<◌, ◌≤◌, ◌^◌, ℕ, List, Option, Some, length, map, string_bytes};
ghost use Rattle.plan_text.specs.declared.plan.Plan.{Plan};
ghost use Rattle.plan_text.specs.declared.error.TranslateError.{TranslateError};
ghost use Rattle.plan_tables.specs.declared.record.PlanRecord.{PlanRecord};
ghost use Rattle.plan_tables.specs.Plan.{Tells};
ghost use Rattle.plan_text.specs.PlanText.{text_of_plan};
ghost use Rattle.translate.specs.Options.{Options};
ghost use Rattle.translate.specs.Planned.{HasCause, IsPlanned};
ghost use Rattle.translate.specs.Runs.{Commands, IsRefused, IsSuccess};
ghost use Rattle.plan_laws.specs.Causes.{MayBothStand};
ghost use Rattle.plan_laws.specs.Records.{TellAlike};
ghost use Rattle.plan_laws.specs.Runs.{GainAlike};
ghost use Rattle.plan_laws.specs.Same.{SamePlan};

use crate::kept::keeps;
use command_words::read_words;
use plan_text::{Plan, TranslateError};
use translate::{causes_law, sizes_law};

/// The plan is determined. Two plans of the same bytes, planned with the same options, have one
/// text, and hold the same. Their tables are equal, but for which runtime data the plan made.
pub fn determined_law(p: &Plan, q: &Plan)
    ensures text { (o : Options) (bytes : List ℕ) → IsPlanned o bytes p.now → IsPlanned o bytes q.now → text_of_plan p.now ≡ text_of_plan q.now }
    ensures same { (o : Options) (bytes : List ℕ) → IsPlanned o bytes p.now → IsPlanned o bytes q.now → SamePlan p.now q.now }
    ensures tables { (o : Options) (bytes : List ℕ) (r s : PlanRecord) → IsPlanned o bytes p.now → IsPlanned o bytes q.now
        → Tells p.now r → Tells q.now s → TellAlike q.now r s }
{
    sizes_law();
    keeps(p);
    keeps(q);
}

/// Two runs over the same words that came to the same bytes, and succeeded, wrote the same text:
/// that of their plans, or the summary of a module that was made. The clause speaks of what `run`
/// promises of a report with status 0.
pub fn runs_law(words: &[String], p: &Plan, q: &Plan)
    ensures { (bytes : List ℕ) (left rest before after old new : Option (List ℕ)) (refusal other : Option TranslateError)
        → Commands (map string_bytes words.now) (IsSuccess bytes left (Some p.now) refusal before after)
        → Commands (map string_bytes words.now) (IsSuccess bytes rest (Some q.now) other old new) → GainAlike before after old new }
{
    read_words(words);
    determined_law(p, q);
}

/// Bytes that are not too long are refused for one cause, where memory does not run out: two that
/// stand are equal, but for the pairs that `MayBothStand` names. Bytes that have a plan have no
/// cause.
pub fn refusals_law()
    ensures one { (o : Options) (bytes : List ℕ) (e f : TranslateError) → length bytes < 2 ^ 30 → HasCause o bytes e → HasCause o bytes f
        → e ≢ TranslateError.OutOfMemory → f ≢ TranslateError.OutOfMemory → (e ≡ f) ⊎ MayBothStand e f }
    ensures refused { (o : Options) (bytes : List ℕ) (e f : TranslateError) → length bytes ≤ 2 ^ 30 → IsRefused o bytes e → IsRefused o bytes f
        → (e ≡ f) ⊎ MayBothStand e f }
    ensures none { (o : Options) (bytes : List ℕ) (plan : Plan) (e : TranslateError) → IsPlanned o bytes plan → HasCause o bytes e
        → e ≡ TranslateError.OutOfMemory }
{
    causes_law();
}
