//! How long the text of a plan is at most, by the bytes of its module.

ghost use Rattle.std.specs.Prelude.{ℕ, List};
ghost use Rattle.translate.specs.Options.{Options};
ghost use Rattle.translate.specs.Planned.{IsPlanned};
ghost use Rattle.plan_laws.specs.TextBounds.{TextIsLinear};

use crate::kept::keeps;
use crate::text_costs::text_law;
use plan_text::Plan;

/// The text of a plan is linear in the bytes of its module, except for the cells of table images.
/// For each byte of the module, a plan has at most 7 lines, 6 parts of lines and one byte of a
/// name. It has 28 lines more. The text has at most 128 bytes for each of so many lines, and 11 for
/// each cell.
pub fn text_bound_law(plan: &Plan<'_>)
    ensures { (o : Options) (bytes : List ℕ) → IsPlanned o bytes plan.now → TextIsLinear bytes plan.now }
{
    keeps(plan);
    text_law(plan);
}
