//! Worked examples of the definitions: each clause computes.

ghost use Rattle.std.specs.Prelude.{◌≡◌, ◌≤◌, ◌+◌, ◌*◌, [], ◌∷◌, Some, None, length, pos, codes};
ghost use Rattle.wasm_index.specs.Index.{index_of};
ghost use Rattle.wasm_types.specs.declared.entity.EntityIndex.TheVariants as entity;
ghost use Rattle.rule_spec.specs.WorkedKept.{overlap_bytes};
ghost use Rattle.plan_text.specs.PlanText.{text_of_plan};
ghost use Rattle.translate.specs.Options.{Options};
ghost use Rattle.translate.specs.Planned.{IsPlanned};
ghost use Rattle.plan_laws.specs.TextBounds.{most_lines, most_parts, most_name_bytes};
ghost use Rattle.plan_laws.specs.TextCosts.{
  parts_of,
  value_operators,
  place_operators,
  layout_fields,
  name_bytes,
  import_bytes,
  module_name_bytes,
  lines_of,
  cells_in,
};

use crate::text_bounds::text_bound_law;
use gc_layout::{GcArrayLayout, GcLayout};
use init_plan::MemorySegmentOffset;
use plan_text::Plan;
use wasm_convert::ConstOp;
use wasm_module::{Initializer, TableInitialValue};
use wasm_types::{WasmCompositeInnerType, WasmValType};

/// What the lines of a type, an import and an expression list.
pub fn worked_text_costs()
    ensures function { parts_of (WasmCompositeInnerType.Func (record { params = WasmValType.I32 ∷ WasmValType.I64 ∷ []; results = WasmValType.F64 ∷ [] })) ≡ 3 }
    ensures no_fields { parts_of (WasmCompositeInnerType.Struct []) ≡ 0 }
    ensures import { import_bytes (codes "env" ∷ codes "memory" ∷ []) (Initializer.Import (record { 0 = 0 }) (record { 0 = 1 }) (entity.Memory (index_of 0))) ≡ 9 }
    ensures same_name { import_bytes (codes "env" ∷ []) (Initializer.Import (record { 0 = 0 }) (record { 0 = 0 }) (entity.Memory (index_of 0))) ≡ 6 }
    ensures no_name { module_name_bytes (codes "env" ∷ []) None ≡ 0 }
    ensures two_operators { place_operators (MemorySegmentOffset.Expr (ConstOp.GlobalGet (index_of 0) ∷ ConstOp.I32Const (pos 8) ∷ [])) ≡ 2 }
    ensures known_place { place_operators (MemorySegmentOffset.Static 1048576) ≡ 0 }
    ensures null_table { value_operators TableInitialValue.Null ≡ 0 }
{}

/// The bounds of an empty module, which is a header of eight bytes, and of the thirty bytes of two
/// overlapping segments.
pub fn worked_text_bounds(plan: &Plan<'_>)
    ensures header_lines { most_lines 8 ≡ 84 }
    ensures header_parts { most_parts 8 ≡ 48 }
    ensures header_names { most_name_bytes 8 ≡ 8 }
    ensures lines { (o : Options) → IsPlanned o overlap_bytes plan.now → lines_of plan.now ≤ 238 }
    ensures text { (o : Options) → IsPlanned o overlap_bytes plan.now → length (text_of_plan plan.now) ≤ 30464 + 11 * cells_in plan.now }
{
    text_bound_law(plan);
}
