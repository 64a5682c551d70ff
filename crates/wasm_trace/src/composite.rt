//! The edges of composite types, subtypes and recursion groups.

ghost use Rattle.std.specs.Prelude.{◌≡◌};
ghost use Rattle.std.specs.Option.{option_map, option_to_list};
ghost use Rattle.wasm_spec.specs.TypeData.{Shared, SubType, Group, map_composite, composite_edges};
ghost use Rattle.type_spec.specs.Shapes.{erased};
ghost use Rattle.type_spec.specs.TypeShapes.{shared_shape, sub_type_shape, group_shape};
ghost use Rattle.type_spec.specs.Names.{Named, by_name, named, index_of};
ghost use Rattle.wasm_types.specs.TypeViews.{composite_of, shared_of, sub_type_of, group_of};
ghost use Rattle.wasm_types.specs.ViewsTell.{tells, shared_back, sub_type_back, group_back};
ghost use Rattle.wasm_trace.specs.Runs.{Run, MayRun, RunMut, MayRunMut};

use crate::lists::{trace_all, trace_all_mut};
use crate::trace::TypeTrace;
use wasm_types::{
    EngineOrModuleTypeIndex, WasmCompositeInnerType, WasmCompositeType, WasmRecGroup, WasmSubType,
};

impl TypeTrace for WasmCompositeType {
    ghost Data = { λ R. Shared (Named R) R };

    ghost shape = { by_name shared_shape };

    ghost view = { shared_of };

    fn trace<F, E>(&self, func: &mut F) -> Result<(), E>
    where
        F: FnMut(EngineOrModuleTypeIndex) -> Result<(), E>,
    {
        trace_inner(&self.inner, func)
    }

    fn trace_mut<F, E>(&mut self, func: &mut F) -> Result<(), E>
    where
        F: FnMut(&mut EngineOrModuleTypeIndex) -> Result<(), E>,
    {
        trace_inner_mut(&mut self.inner, func)
    }

    ghost injective = { tells shared_back };
}

// Visits each edge of a composite type without its share flag.
fn trace_inner<F, E>(inner: &WasmCompositeInnerType, func: &mut F) -> Result<(), E>
where
    F: FnMut(EngineOrModuleTypeIndex) -> Result<(), E>,
    requires { MayRun F.FnMut func.old (composite_edges index_of (composite_of inner.now)) }
    ensures { Run F.FnMut func.old (composite_edges index_of (composite_of inner.now)) result func.new }
{
    match inner {
        WasmCompositeInnerType::Array(ty) => ty.trace(func),
        WasmCompositeInnerType::Func(ty) => ty.trace(func),
        WasmCompositeInnerType::Struct(ty) => ty.trace(func),
        WasmCompositeInnerType::Cont(ty) => ty.trace(func),
        WasmCompositeInnerType::Exn(ty) => ty.trace(func),
    }
}

// Visits each edge of a composite type without its share flag, for writing.
fn trace_inner_mut<F, E>(inner: &mut WasmCompositeInnerType, func: &mut F) -> Result<(), E>
where
    F: FnMut(&mut EngineOrModuleTypeIndex) -> Result<(), E>,
    requires { MayRunMut F.FnMut func.old (composite_edges index_of (composite_of inner.old)) }
    ensures kept { map_composite (named erased) erased (composite_of inner.new) ≡ map_composite (named erased) erased (composite_of inner.old) }
    ensures run { RunMut F.FnMut func.old (composite_edges index_of (composite_of inner.old)) result func.new (composite_edges index_of (composite_of inner.new)) }
{
    match inner {
        WasmCompositeInnerType::Array(ty) => ty.trace_mut(func),
        WasmCompositeInnerType::Func(ty) => ty.trace_mut(func),
        WasmCompositeInnerType::Struct(ty) => ty.trace_mut(func),
        WasmCompositeInnerType::Cont(ty) => ty.trace_mut(func),
        WasmCompositeInnerType::Exn(ty) => ty.trace_mut(func),
    }
}

// Visits an index, if there is one.
#[tactic(auto, using(crate::proofs::Runs::may_visit))]
fn trace_option<F, E>(index: Option<EngineOrModuleTypeIndex>, func: &mut F) -> Result<(), E>
where
    F: FnMut(EngineOrModuleTypeIndex) -> Result<(), E>,
    requires { MayRun F.FnMut func.old (option_to_list index) }
    ensures { Run F.FnMut func.old (option_to_list index) result func.new }
{
    match index {
        Some(index) => func(index),
        None => Ok(()),
    }
}

// Visits an index, if there is one, for writing.
#[tactic(auto, using(crate::proofs::Runs::one_visit, crate::proofs::Runs::may_visit_mut))]
fn trace_option_mut<F, E>(
    index: &mut Option<EngineOrModuleTypeIndex>,
    func: &mut F,
) -> Result<(), E>
where
    F: FnMut(&mut EngineOrModuleTypeIndex) -> Result<(), E>,
    requires { MayRunMut F.FnMut func.old (option_to_list index.old) }
    ensures kept { option_map erased index.new ≡ option_map erased index.old }
    ensures run { RunMut F.FnMut func.old (option_to_list index.old) result func.new (option_to_list index.new) }
{
    match index {
        Some(index) => func(index),
        None => Ok(()),
    }
}

impl TypeTrace for WasmSubType {
    ghost Data = { λ R. SubType (Named R) R };

    ghost shape = { by_name sub_type_shape };

    ghost view = { sub_type_of };

    #[tactic(auto, using(crate::proofs::Joined::may_run_first, crate::proofs::Joined::may_run_then, crate::proofs::Joined::run_then, crate::proofs::Joined::run_stop))]
    fn trace<F, E>(&self, func: &mut F) -> Result<(), E>
    where
        F: FnMut(EngineOrModuleTypeIndex) -> Result<(), E>,
    {
        trace_option(self.supertype, func)?;
        self.composite_type.trace(func)
    }

    #[tactic(auto, using(crate::proofs::Joined::may_run_first_mut, crate::proofs::Joined::may_run_then_mut, crate::proofs::Joined::run_then_mut, crate::proofs::Joined::run_stop_mut))]
    fn trace_mut<F, E>(&mut self, func: &mut F) -> Result<(), E>
    where
        F: FnMut(&mut EngineOrModuleTypeIndex) -> Result<(), E>,
    {
        trace_option_mut(&mut self.supertype, func)?;
        self.composite_type.trace_mut(func)
    }

    ghost injective = { tells sub_type_back };
}

impl TypeTrace for WasmRecGroup {
    ghost Data = { λ R. Group (Named R) R };

    ghost shape = { by_name group_shape };

    ghost view = { group_of };

    fn trace<F, E>(&self, func: &mut F) -> Result<(), E>
    where
        F: FnMut(EngineOrModuleTypeIndex) -> Result<(), E>,
    {
        trace_all(self.types.as_slice(), func)
    }

    fn trace_mut<F, E>(&mut self, func: &mut F) -> Result<(), E>
    where
        F: FnMut(&mut EngineOrModuleTypeIndex) -> Result<(), E>,
    {
        trace_all_mut(self.types.as_mut_slice(), func)
    }

    ghost injective = { tells group_back };
}
