//! Interned types as tables.

ghost use Rattle.std.specs.Prelude.{◌≡◌, ◌++◌, length, map, IfOk, OnOk};
ghost use Rattle.wasm_index.specs.Index.{number_of};
ghost use Rattle.module_types.specs.TypeList.{called_from};
ghost use Rattle.plan_tables.specs.Interned.{storage_row, field_row, parameter_row, fields_of, inner_kind, result_count, function_of, type_row, trampoline_row, TellsInterned};

use crate::numbers::bit;
use crate::record::InternedRecord;
use crate::rows::{FieldRow, Span, TrampolineRow, TypeRow};
use crate::values::{index_list, index_number, plain_row, value_row};
use entity_map::{EntityRef, OutOfMemory};
use module_types::ModuleTypes;
use std::alloc::Global;
use wasm_types::{
    EngineOrModuleTypeIndex, WasmCompositeInnerType, WasmFieldType, WasmStorageType, WasmSubType,
    WasmValType,
};

fn field_row(field: &WasmFieldType) -> FieldRow
    ensures { result ≡ field_row field.now }
{
    let value = match &field.element_type {
        WasmStorageType::I8 => plain_row(6),
        WasmStorageType::I16 => plain_row(7),
        WasmStorageType::Val(ty) => value_row(*ty),
    };
    FieldRow {
        value,
        writable: u32::from(bit(field.mutable)),
    }
}

fn push_fields(rows: &mut Vec<FieldRow>, fields: &[WasmFieldType]) -> Result<(), OutOfMemory>
    ensures { OnOk result (rows.new.items ≡ rows.old.items ++ map field_row fields.now) }
{
    for field in fields {
        rows.push(field_row(field))?;
    }
    Ok(())
}

fn push_values(rows: &mut Vec<FieldRow>, types: &[WasmValType]) -> Result<(), OutOfMemory>
    ensures { OnOk result (rows.new.items ≡ rows.old.items ++ map parameter_row types.now) }
{
    for ty in types {
        rows.push(FieldRow {
            value: value_row(*ty),
            writable: 0,
        })?;
    }
    Ok(())
}

// Appends the fields of a type, or its parameters and then its results.
fn push_parts(rows: &mut Vec<FieldRow>, inner: &WasmCompositeInnerType) -> Result<(), OutOfMemory>
    ensures { OnOk result (rows.new.items ≡ rows.old.items ++ fields_of inner.now) }
{
    match inner {
        WasmCompositeInnerType::Array(array) => push_fields(rows, &[array.0]),
        WasmCompositeInnerType::Func(func) => {
            push_values(rows, func.params())?;
            push_values(rows, func.results())
        }
        WasmCompositeInnerType::Struct(ty) => push_fields(rows, &ty.fields),
        WasmCompositeInnerType::Cont(_) => Ok(()),
        WasmCompositeInnerType::Exn(ty) => push_fields(rows, &ty.fields),
    }
}

fn inner_kind(inner: &WasmCompositeInnerType) -> u8
    ensures { result ≡ inner_kind inner.now }
{
    match inner {
        WasmCompositeInnerType::Array(_) => 0,
        WasmCompositeInnerType::Func(_) => 1,
        WasmCompositeInnerType::Struct(_) => 2,
        WasmCompositeInnerType::Cont(_) => 3,
        WasmCompositeInnerType::Exn(_) => 4,
    }
}

fn result_count(inner: &WasmCompositeInnerType) -> usize
    ensures { result ≡ result_count inner.now }
{
    match inner {
        WasmCompositeInnerType::Func(func) => func.results().len(),
        _ => 0,
    }
}

fn function_of(inner: &WasmCompositeInnerType) -> Option<EngineOrModuleTypeIndex>
    ensures { result ≡ function_of inner.now }
{
    match inner {
        WasmCompositeInnerType::Cont(cont) => Some(cont.index()),
        WasmCompositeInnerType::Exn(exn) => Some(exn.func_ty),
        _ => None,
    }
}

// A type whose fields are a part of the others.
fn type_row(ty: &WasmSubType, fields: Span) -> TypeRow
    ensures { result ≡ type_row ty.now fields }
{
    let inner = &ty.composite_type.inner;
    let function = function_of(inner);
    TypeRow {
        kind: inner_kind(inner),
        is_final: bit(ty.is_final),
        shared: bit(ty.composite_type.shared),
        supertype_list: index_list(&ty.supertype),
        function_list: index_list(&function),
        supertype: index_number(&ty.supertype),
        function: index_number(&function),
        fields,
        results: result_count(inner),
    }
}

/// The interned types, their fields end to end.
pub(crate) fn interned_record<'d>(
    alloc: Global,
    types: &ModuleTypes,
) -> Result<InternedRecord<'d>, OutOfMemory>
    ensures { IfOk result (TellsInterned types.now) }
{
    let mut rows = Vec::new(alloc);
    let mut fields = Vec::new(alloc);
    for (_, ty) in types.wasm_types() {
        let begin = fields.len();
        push_parts(&mut fields, &ty.composite_type.inner)?;
        let len = fields.len() - begin;
        rows.push(type_row(ty, Span { begin, len }))?;
    }
    let trampolines = trampolines_of(alloc, types)?;
    Ok(InternedRecord {
        types: rows.leak(),
        fields: fields.leak(),
        trampolines: trampolines.leak(),
    })
}

fn trampolines_of(alloc: Global, types: &ModuleTypes) -> Result<Vec<TrampolineRow>, OutOfMemory>
    ensures { IfOk result (λ rows. rows.items ≡ map trampoline_row (called_from 0 types.now.trampolines)) }
{
    let mut rows = Vec::new(alloc);
    for (ty, trampoline) in types.trampoline_types() {
        rows.push(TrampolineRow {
            ty: ty.as_u32(),
            trampoline: trampoline.as_u32(),
        })?;
    }
    Ok(rows)
}
