//! The groups of a form are copied and numbered.

ghost use Rattle.std.specs.Prelude.{◌≡◌, map, IfOk, OnOk};
ghost use Rattle.wasm_spec.specs.Module.{groups};
ghost use Rattle.form_reader.specs.Views.{composite_of, sub_type_of, group_of, module_of};
ghost use Rattle.form_reader.specs.Input.{HasGroups, AddsGroups};
ghost use Rattle.form_types.specs.Taken.{IsNumberingOf};

use crate::numbering::Numbering;
use form_reader::{CompositeInnerType, Form, FuncType, GroupSink, InputEntry, RecGroup, SubType};
use std::alloc::{AllocError, Global};

fn copied_composite(
    alloc: Global,
    composite: &CompositeInnerType,
) -> Result<CompositeInnerType, AllocError>
    ensures { IfOk result (λ c. composite_of c ≡ composite_of composite.now) }
{
    match composite {
        CompositeInnerType::Func(function) => Ok(CompositeInnerType::Func(FuncType {
            params: Vec::from_slice(alloc, &function.params)?,
            results: Vec::from_slice(alloc, &function.results)?,
        })),
        CompositeInnerType::Array(field) => Ok(CompositeInnerType::Array(*field)),
        CompositeInnerType::Struct(fields) => {
            Ok(CompositeInnerType::Struct(Vec::from_slice(alloc, fields)?))
        }
        CompositeInnerType::Cont(index) => Ok(CompositeInnerType::Cont(*index)),
    }
}

fn copied_group(alloc: Global, group: &RecGroup) -> Result<RecGroup, AllocError>
    ensures { IfOk result (λ g. group_of g ≡ group_of group.now) }
{
    let mut types = Vec::with_capacity(alloc, group.types.len())?;
    for ty in &group.types {
        types.push(SubType {
            is_final: ty.is_final,
            supertype: ty.supertype,
            composite: copied_composite(alloc, &ty.composite)?,
        })?;
    }
    Ok(RecGroup { types })
}

/// Passes copies of some groups to the numbering.
fn push_copies(
    alloc: Global,
    groups: &[RecGroup],
    numbering: &mut Numbering,
) -> Result<(), AllocError>
    requires { HasGroups IsNumberingOf numbering.old }
    ensures { OnOk result (AddsGroups IsNumberingOf numbering.old numbering.new (map group_of groups.now)) }
{
    for group in groups {
        numbering.push_group(alloc, copied_group(alloc, group)?)?;
    }
    Ok(())
}

/// The numbering of the groups of a form.
pub fn numbering_of_form(alloc: Global, form: &Form<'_>) -> Result<Numbering, AllocError>
    ensures { IfOk result (λ n. IsNumberingOf n (groups (module_of form.now))) }
{
    let mut numbering = Numbering::new(alloc, form.wasm);
    for payload in &form.payloads {
        push_copies(alloc, RecGroup::in_payload(payload), &mut numbering)?;
    }
    Ok(numbering)
}
