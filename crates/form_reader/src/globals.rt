//! Globals (core specification, 5.5, global section).

ghost use Rattle.std.specs.Prelude.{[], refl};
ghost use Rattle.wasm_spec.specs.Module as plain;
ghost use Rattle.wasm_spec.specs.declared.entities.GlobalType as declared;
ghost use Rattle.form_reader.specs.Views.{global_of};
ghost use Rattle.form_reader.specs.SectionRows.{global_entry};
ghost use Rattle.form_reader.specs.Input.{type_of_global_at};

use crate::cursor::Cursor;
use crate::error::ReadError;
use crate::input::InputEntries;
use crate::input_vectors::{InputEntry, InputVector};
use crate::{ConstExpr, GlobalDef, Payload};
use std::alloc::Global;
use wasm_spec::{GlobalType, ValType};

/// The types of the globals in the global section; their expressions are passed over.
pub struct DefinedGlobal;

impl<'d> InputEntry<'d> for DefinedGlobal {
    type Value = GlobalType;

    ghost Data = { declared.GlobalType };

    ghost form = { type_of_global_at };

    ghost view = { λ x. x };

    ghost of_section = { λ payload. [] };

    ghost no_customs = { λ name bytes. refl };

    /// A list of globals holds no list of their types.
    fn in_payload<'f>(_payload: &'f Payload<'d>) -> &'f [GlobalType] {
        &[]
    }

    #[tactic(auto, using(crate::proofs::Listed::none_there))]
    fn in_input(_entries: InputEntries<'d>) -> InputVector<'d> {
        InputVector::none()
    }

    #[inline]
    fn none(_alloc: Global) -> GlobalType {
        GlobalType {
            content_type: ValType::I32,
            mutable: false,
        }
    }

    #[tactic(auto, unfolding(crate::specs::Reading::rest_at, crate::specs::SectionRows::global_entry))]
    fn read_into(
        ty: &mut GlobalType,
        alloc: Global,
        cursor: &mut Cursor<'d>,
    ) -> Result<(), ReadError> {
        *ty = cursor.global_type()?;
        cursor.pass_expression(&mut Vec::new(alloc))
    }

    #[tactic(auto, unfolding(crate::specs::Reading::rest_at))]
    fn pass(ty: &mut GlobalType, alloc: Global, cursor: &mut Cursor<'d>) -> Result<(), ReadError> {
        Self::read_into(ty, alloc, cursor)
    }
}

impl<'d> InputEntry<'d> for GlobalDef {
    type Value = GlobalDef;

    ghost Data = { plain.GlobalDef };

    ghost form = { global_entry.read };

    ghost view = { global_of };

    ghost of_section = { plain.globals_of_section };

    ghost no_customs = { λ name bytes. refl };

    fn in_payload<'f>(payload: &'f Payload<'d>) -> &'f [GlobalDef] {
        match payload {
            Payload::Globals(globals) => globals.as_slice(),
            _ => &[],
        }
    }

    #[tactic(auto, using(crate::proofs::Listed::none_there))]
    fn in_input(entries: InputEntries<'d>) -> InputVector<'d> {
        match entries {
            InputEntries::Globals(globals) => globals,
            _ => InputVector::none(),
        }
    }

    fn none(alloc: Global) -> GlobalDef {
        GlobalDef {
            ty: DefinedGlobal::none(alloc),
            init: ConstExpr {
                ops: Vec::new(alloc),
            },
        }
    }

    /// A global type, and the expression of its first value.
    #[tactic(auto, unfolding(crate::specs::SectionRows::global_entry))]
    fn read_into(
        global: &mut GlobalDef,
        _alloc: Global,
        cursor: &mut Cursor<'d>,
    ) -> Result<(), ReadError> {
        global.ty = cursor.global_type()?;
        cursor.expression_into(&mut global.init.ops)
    }

    #[tactic(auto, unfolding(crate::specs::Reading::rest_at, crate::specs::SectionRows::global_entry))]
    fn pass(
        global: &mut GlobalDef,
        _alloc: Global,
        cursor: &mut Cursor<'d>,
    ) -> Result<(), ReadError> {
        cursor.pass_global_type()?;
        cursor.pass_expression(&mut global.init.ops)
    }
}
