//! The metadata of the functions that a module defines.

ghost use Rattle.std.specs.Prelude.{◌≡◌, ℕ, ◌<◌, ◌++◌, length, map, All, IfOk, OnOk};
ghost use Rattle.wasm_spec.specs.TypeData.{ValueType, value_edges, map_value, value_of};
ghost use Rattle.rule_spec.specs.Lists.{lists_of_module};
ghost use Rattle.form_reader.specs.Views.{composite_of, group_of};
ghost use Rattle.wasm_types.specs.ValueViews.{Name, value_of as view_value};
ghost use Rattle.wasm_convert.specs.Known.{Known};
ghost use Rattle.interned_types.specs.Environment.{LooksUpTypes};
ghost use Rattle.module_sections.specs.Filling.{module_in, IsGathered};
ghost use Rattle.module_environ.specs.Metadata.{params_of, KnowsParams, params_to, params_at, params_of_types, view_function, functions_asked};
ghost use Rattle.interned_types.specs.Types.{look_up_in};

use entity_map::OutOfMemory;
use form_reader::{CompositeInnerType, FunctionBody, RecGroup};
use form_rules::{Lists, entries_of, walk_of};
use init_plan::FunctionMetadata;
use std::alloc::Global;
use std::rc::Rc;
use wasm_convert::TypeConvert;
use wasm_spec::ValType;
use wasm_types::{EngineOrModuleTypeIndex, WasmHeapType, WasmRefType, WasmValType};

/// The parameters and the locals of each defined function, in order, where the caller requires
/// them.
pub(crate) fn function_metadata(
    alloc: Global,
    env: &dyn TypeConvert,
    lists: &Lists<'_, '_>,
    asked: bool,
) -> Result<Vec<FunctionMetadata>, OutOfMemory>
    requires gathered { IsGathered lists.now }
    requires looks { LooksUpTypes (module_in lists.now) (knows env.now) (look_up env.now) }
    ensures { IfOk result (λ all. map view_function all.items
        ≡ functions_asked (look_up_in (module_in lists.now)) (lists_of_module (module_in lists.now)) asked) }
{
    let mut all = Vec::new(alloc);
    if !asked {
        return Ok(all);
    }
    let by_type = params_by_type(alloc, env, lists)?;
    for body in entries_of::<FunctionBody<'_>>(lists.source) {
        let function = lists.imported_functions + all.len();
        all.push(FunctionMetadata {
            params: function_params(alloc, lists, &by_type, function)?,
            locals: convert_locals(alloc, env, &body.locals)?,
        })?;
    }
    Ok(all)
}

/// The parameters of each declared type, which its functions share: a copy for each function could
/// need memory quadratic in the input.
fn params_by_type(
    alloc: Global,
    env: &dyn TypeConvert,
    lists: &Lists<'_, '_>,
) -> Result<Vec<Rc<Vec<WasmValType>>>, OutOfMemory>
    requires gathered { IsGathered lists.now }
    requires looks { LooksUpTypes (module_in lists.now) (knows env.now) (look_up env.now) }
    ensures { IfOk result (λ all. map (λ params. map view_value params.value.items) all.items
        ≡ params_of_types (look_up_in (module_in lists.now)) (lists_of_module (module_in lists.now))) }
{
    let mut all = Vec::new(alloc);
    let mut groups = walk_of::<RecGroup>(alloc, lists.source);
    while groups.advance()? {
        add_params(alloc, env, &mut all, groups.entry())?;
    }
    Ok(all)
}

/// Adds the parameters of each member of a group.
fn add_params(
    alloc: Global,
    env: &dyn TypeConvert,
    all: &mut Vec<Rc<Vec<WasmValType>>>,
    group: &RecGroup,
) -> Result<(), OutOfMemory>
    requires { All (KnowsParams (knows env.now)) (group_of group.now) }
    ensures { OnOk result (map (λ params. map view_value params.value.items) all.new.items
        ≡ map (λ params. map view_value params.value.items) all.old.items ++ map (params_to (look_up env.now)) (group_of group.now)) }
{
    for ty in &group.types {
        let params = convert_types(alloc, env, kind_params(&ty.composite))?;
        all.push(shared(alloc, params)?)?;
    }
    Ok(())
}

/// The list, which may have several owners now.
fn shared(alloc: Global, params: Vec<WasmValType>) -> Result<Rc<Vec<WasmValType>>, OutOfMemory>
    ensures { IfOk result (λ list. list.value ≡ params) }
{
    match Rc::new(alloc, params) {
        Ok(list) => Ok(list),
        Err(_) => Err(OutOfMemory),
    }
}

/// The parameters of a function of the index space, which are those of its type.
fn function_params(
    alloc: Global,
    lists: &Lists<'_, '_>,
    by_type: &[Rc<Vec<WasmValType>>],
    function: usize,
) -> Result<Rc<Vec<WasmValType>>, OutOfMemory>
    requires gathered { IsGathered lists.now }
    requires there { function < length lists.now.spaces.functions.items }
    requires by_type { map (λ params. map view_value params.value.items) by_type.now
        ≡ params_of_types (look_up_in (module_in lists.now)) (lists_of_module (module_in lists.now)) }
    ensures { IfOk result (λ params. map view_value params.value.items
        ≡ map (map_value (look_up_in (module_in lists.now))) (params_at (lists_of_module (module_in lists.now)) function)) }
{
    match by_type.get(lists.spaces.functions[function] as usize) {
        Some(params) => Ok(params.clone()?),
        None => shared(alloc, Vec::new(alloc)),
    }
}

/// The parameters of a function type; no other type has any.
fn kind_params(kind: &CompositeInnerType) -> &[ValType]
    ensures { map value_of result.now ≡ params_of (composite_of kind.now) }
{
    match kind {
        CompositeInnerType::Func(ty) => ty.params.as_slice(),
        _ => &[],
    }
}

fn convert_types(
    alloc: Global,
    env: &dyn TypeConvert,
    types: &[ValType],
) -> Result<Vec<WasmValType>, OutOfMemory>
    requires { All (λ ty. Known (knows env.now) (value_edges (λ i. i) (value_of ty))) types.now }
    ensures { IfOk result (λ converted. map view_value converted.items ≡ map (map_value (look_up env.now)) (map value_of types.now)) }
{
    // The borrow checker wants the types on the way to an index by name.
    let _named: Option<(WasmRefType, WasmHeapType, EngineOrModuleTypeIndex)> = None;
    let mut converted = Vec::with_capacity(alloc, types.len())?;
    for ty in types {
        converted.push(env.convert_valtype(*ty))?;
    }
    Ok(converted)
}

/// Runs of locals of one type.
fn convert_locals(
    alloc: Global,
    env: &dyn TypeConvert,
    locals: &[(u32, ValType)],
) -> Result<Vec<(u32, WasmValType)>, OutOfMemory>
    requires { All (λ run. Known (knows env.now) (value_edges (λ i. i) (value_of run.1))) locals.now }
    ensures { IfOk result (λ converted. map {B = ℕ × ValueType Name} (λ run. (run.0, view_value run.1)) converted.items
        ≡ map (λ run. (run.0, map_value (look_up env.now) (value_of run.1))) locals.now) }
{
    // The borrow checker wants the types on the way to an index by name.
    let _named: Option<(WasmRefType, WasmHeapType, EngineOrModuleTypeIndex)> = None;
    let mut converted = Vec::with_capacity(alloc, locals.len())?;
    for (count, ty) in locals {
        converted.push((*count, env.convert_valtype(*ty)))?;
    }
    Ok(converted)
}
