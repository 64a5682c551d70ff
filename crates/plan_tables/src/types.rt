//! Types and functions as tables.

ghost use Rattle.std.specs.Prelude.{◌≡◌, map, IfOk};
ghost use Rattle.wasm_index.specs.Index.{number_of};
ghost use Rattle.plan_lines.specs.TypeLines.{listed_number};
ghost use Rattle.plan_tables.specs.Types.{index_range, TellsTypes};

use crate::numbers::listed_number;
use crate::record::TypesRecord;
use crate::rows::NumberRange;
use entity_map::{EntityRef, OutOfMemory};
use init_plan::ModuleTranslation;
use module_types::ModuleTypes;
use std::alloc::Global;
use wasm_index::ModuleInternedTypeIndex;
use wasm_module::FunctionType;
use wasm_types::EngineOrModuleTypeIndex;

/// The tables of types and functions.
pub(crate) fn types_record<'d>(
    alloc: Global,
    translation: &ModuleTranslation<'_>,
    types: &ModuleTypes,
) -> Result<TypesRecord<'d>, OutOfMemory>
    ensures { IfOk result (TellsTypes translation.now types.now) }
{
    let module = &translation.module;
    let declared = declared_of(alloc, module.types.as_slice())?;
    let groups = groups_of(alloc, types)?;
    let functions = functions_of(alloc, module.functions.as_slice())?;
    let escapes = escapes_of(alloc, module.functions.as_slice())?;
    let signatures = signatures_of(alloc, &translation.exported_signatures)?;
    Ok(TypesRecord {
        declared: declared.leak(),
        groups: groups.leak(),
        functions: functions.leak(),
        escapes: escapes.leak(),
        signatures: signatures.leak(),
    })
}

fn declared_of(alloc: Global, types: &[EngineOrModuleTypeIndex]) -> Result<Vec<u32>, OutOfMemory>
    ensures { IfOk result (λ numbers. numbers.items ≡ map listed_number types.now) }
{
    let mut numbers = Vec::with_capacity(alloc, types.len())?;
    for index in types {
        numbers.push(listed_number(*index))?;
    }
    Ok(numbers)
}

fn groups_of(alloc: Global, types: &ModuleTypes) -> Result<Vec<NumberRange>, OutOfMemory>
    ensures { IfOk result (λ groups. groups.items ≡ map index_range types.now.groups) }
{
    let mut groups = Vec::new(alloc);
    for (_, range) in types.rec_groups() {
        groups.push(NumberRange {
            begin: range.start.as_u32(),
            end: range.end.as_u32(),
        })?;
    }
    Ok(groups)
}

fn functions_of(alloc: Global, functions: &[FunctionType]) -> Result<Vec<u32>, OutOfMemory>
    ensures { IfOk result (λ numbers. numbers.items ≡ map (λ f. listed_number f.signature) functions.now) }
{
    let mut numbers = Vec::with_capacity(alloc, functions.len())?;
    for function in functions {
        numbers.push(listed_number(function.signature))?;
    }
    Ok(numbers)
}

fn escapes_of(alloc: Global, functions: &[FunctionType]) -> Result<Vec<u32>, OutOfMemory>
    ensures { IfOk result (λ numbers. numbers.items ≡ map (λ f. number_of f.func_ref) functions.now) }
{
    let mut numbers = Vec::with_capacity(alloc, functions.len())?;
    for function in functions {
        numbers.push(function.func_ref.as_u32())?;
    }
    Ok(numbers)
}

fn signatures_of(
    alloc: Global,
    signatures: &[ModuleInternedTypeIndex],
) -> Result<Vec<u32>, OutOfMemory>
    ensures { IfOk result (λ numbers. numbers.items ≡ map number_of signatures.now) }
{
    let mut numbers = Vec::with_capacity(alloc, signatures.len())?;
    for signature in signatures {
        numbers.push(signature.as_u32())?;
    }
    Ok(numbers)
}
