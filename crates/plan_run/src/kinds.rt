//! What operators do with nodes.

ghost use Rattle.std.specs.Prelude.{◌≡◌, List};
ghost use Rattle.wasm_index.specs.Index.{number_of};
ghost use Rattle.wasm_convert.specs.Operators.{operator_of};
ghost use Rattle.replay_spec.specs.Values as plain;
ghost use Rattle.replay_spec.specs.Values.{action};
ghost use Rattle.plan_run.specs.Fields.{field_count_in};
ghost use Rattle.plan_run.specs.Kinds.{kind_of as the_kind, undoes as the_undoing};

use init_plan::ModuleTranslation;
use module_types::ModuleTypes;
use wasm_convert::ConstOp;
use wasm_index::TypeIndex;
use wasm_types::{EngineOrModuleTypeIndex, WasmCompositeInnerType};

/// What an operator does with nodes.
#[derive(Clone, Copy)]
pub(crate) enum Kind {
    /// It needs none.
    Simple,
    /// It makes an object.
    Object,
    /// It converts a reference.
    Conversion,
}

/// What an operator does with nodes.
pub(crate) fn kind_of(op: ConstOp) -> Kind
    ensures { result ≡ the_kind (operator_of op) }
{
    match op {
        ConstOp::StructNew { .. }
        | ConstOp::StructNewDefault { .. }
        | ConstOp::ArrayNew { .. }
        | ConstOp::ArrayNewDefault { .. }
        | ConstOp::ArrayNewFixed { .. } => Kind::Object,
        ConstOp::ExternConvertAny | ConstOp::AnyConvertExtern => Kind::Conversion,
        _ => Kind::Simple,
    }
}

/// Whether a conversion undoes another operator.
pub(crate) fn undoes(op: ConstOp, other: ConstOp) -> bool
    ensures { result ≡ the_undoing (operator_of op) (operator_of other) }
{
    match (op, other) {
        (ConstOp::ExternConvertAny, ConstOp::AnyConvertExtern) => true,
        (ConstOp::AnyConvertExtern, ConstOp::ExternConvertAny) => true,
        _ => false,
    }
}

/// How many fields the struct type of an index has, and 0 where there is none.
fn field_count(translation: &ModuleTranslation<'_>, types: &ModuleTypes, index: TypeIndex) -> usize
    ensures { result ≡ field_count_in translation.now types.now (number_of index) }
{
    let Some(EngineOrModuleTypeIndex::Module(interned)) = translation.module.types.get(index) else {
        return 0;
    };
    let Some(ty) = types.get(*interned) else {
        return 0;
    };
    match &ty.composite_type.inner {
        WasmCompositeInnerType::Struct(fields) => fields.fields.len(),
        _ => 0,
    }
}

/// How many values an operator takes from the stack.
pub(crate) fn taken(translation: &ModuleTranslation<'_>, types: &ModuleTypes, op: ConstOp) -> usize
    ensures { (globals : List plain.Value) → result ≡ (action globals (field_count_in translation.now types.now) (operator_of op)).takes }
{
    match op {
        ConstOp::StructNew { struct_type_index } => {
            field_count(translation, types, struct_type_index)
        }
        _ => op.takes(),
    }
}
