//! Worked examples of the definitions: each clause computes.

ghost use Rattle.std.specs.Prelude.{◌≡◌, [], ◌∷◌, Some, None, true, false, pos, negsuc, codes};
ghost use Rattle.wasm_index.specs.Index.{index_of};
ghost use Rattle.wasm_types.specs.declared.entity.EntityIndex.TheVariants as entity;
ghost use Rattle.plan_lines.specs.Expressions.{operator_text, expression_text};
ghost use Rattle.plan_lines.specs.Numbers.{counts_line};
ghost use Rattle.plan_lines.specs.Quoted.{quoted_text};
ghost use Rattle.plan_lines.specs.NameLines.{entity_text, function_name_line};
ghost use Rattle.plan_lines.specs.GlobalLines.{global_line};
ghost use Rattle.plan_lines.specs.TableLines.{table_image_lines};
ghost use Rattle.plan_lines.specs.MemoryLines.{alignment_lines, image_lines, passive_lines, runtime_line};

use wasm_convert::{ConstOp, GlobalConstValue};
use wasm_types::{EngineOrModuleTypeIndex, WasmHeapType};

/// Integers are signed, floats and vectors are their bits, and operators are joined by a semicolon
/// and a space.
pub fn worked_expressions()
    ensures minus_one { operator_text (ConstOp.I32Const (negsuc 0)) ≡ codes "i32.const -1" }
    ensures wide { operator_text (ConstOp.I64Const (pos 20)) ≡ codes "i64.const 20" }
    ensures leading_zeros { operator_text (ConstOp.F32Const 0xabc) ≡ codes "f32.const 0x00000abc" }
    ensures one_and_a_half { operator_text (ConstOp.F64Const 0x3ff8_0000_0000_0000) ≡ codes "f64.const 0x3ff8000000000000" }
    ensures vector { operator_text (ConstOp.V128Const 0x0102_0304_0506_0708_090a_0b0c_0d0e_0f10)
        ≡ codes "v128.const 0x0102030405060708090a0b0c0d0e0f10" }
    ensures null_of_module_type { operator_text (ConstOp.RefNull (WasmHeapType.ConcreteFunc (EngineOrModuleTypeIndex.Module (index_of 7))))
        ≡ codes "ref.null func (module 7)" }
    ensures fixed_array { operator_text (ConstOp.ArrayNewFixed (index_of 3) 2) ≡ codes "array.new_fixed 3 2" }
    ensures two { expression_text (ConstOp.I32Const (pos 1) ∷ ConstOp.I64Const (negsuc 1) ∷ [])
        ≡ codes "i32.const 1; i64.const -2" }
{}

/// Names are between quotes. A zero byte, a quote, a backslash and a byte past ASCII are a
/// backslash and two digits.
pub fn worked_names()
    ensures plain { quoted_text (codes "memory") ≡ codes "\"memory\"" }
    ensures escaped { quoted_text (0 ∷ 0x22 ∷ 0x61 ∷ 0x5C ∷ 0xE9 ∷ []) ≡ codes "\"\\00\\22a\\5c\\e9\"" }
    ensures exported { entity_text (entity.Memory (index_of 0)) ≡ codes "memory 0" }
    ensures function { function_name_line (index_of 1) (codes "add") ≡ codes "func-name 1 \"add\"\n" }
{}

/// Lines of globals, tables and memories.
pub fn worked_lines()
    ensures one_imported { counts_line (codes "memories") 1 3 ≡ codes "memories 1 2\n" }
    ensures global { global_line (index_of 0) (GlobalConstValue.I32 (pos 1048576)) ≡ codes "global 0 i32.const 1048576\n" }
    ensures null_cell { table_image_lines (index_of 0) (index_of 4294967295 ∷ index_of 1 ∷ []) ≡ codes "table-image 0 2 null 1\n" }
    ensures no_cells { table_image_lines (index_of 0) [] ≡ [] }
    ensures aligned { alignment_lines (Some 4096) ≡ codes "data-align 4096\n" }
    ensures image { image_lines (index_of 0) (Some (1048576, index_of 2)) ≡ codes "image 0 1048576 2\n" }
    ensures no_image { image_lines (index_of 1) None ≡ [] }
    ensures passive { passive_lines (index_of 2) (Some (index_of 3)) ≡ codes "passive-data 2 3\n" }
    ensures not_passive { passive_lines (index_of 2) None ≡ [] }
    ensures second_range { runtime_line (index_of 1) (record { start = 3; end = 4 }) ≡ codes "runtime 1 3 4\n" }
{}
