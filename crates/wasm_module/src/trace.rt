//! The edges of functions, startups and modules.

ghost use Rattle.std.specs.Prelude.{◌≡◌, map};
ghost use Rattle.std.specs.List.{flat_map};
ghost use Rattle.type_spec.specs.Names.{Named, by_name, frame};
ghost use Rattle.wasm_types.specs.ViewsTell.{tells};
ghost use Rattle.wasm_trace.specs.Runs.{Run, MayRun, RunMut, MayRunMut};
ghost use Rattle.wasm_module.specs.ModuleData.{FunctionData, StartupData, ModuleData, function_of, startup_of, module_data_of};
ghost use Rattle.wasm_module.specs.ModuleShapes.{function_shape, startup_shape, module_shape, function_back, startup_back, module_back};

use crate::function::FunctionType;
use crate::module::Module;
use crate::startup::ModuleStartup;
use entity_map::{EntityRef, PrimaryMap};
use wasm_trace::{TypeTrace, trace_all, trace_all_mut};
use wasm_types::EngineOrModuleTypeIndex;

impl TypeTrace for FunctionType {
    ghost Data = { λ R. FunctionData R };

    ghost shape = { by_name function_shape };

    ghost view = { function_of };

    fn trace<F, E>(&self, func: &mut F) -> Result<(), E>
    where
        F: FnMut(EngineOrModuleTypeIndex) -> Result<(), E>,
    {
        self.signature.trace(func)
    }

    fn trace_mut<F, E>(&mut self, func: &mut F) -> Result<(), E>
    where
        F: FnMut(&mut EngineOrModuleTypeIndex) -> Result<(), E>,
    {
        self.signature.trace_mut(func)
    }

    ghost injective = { tells function_back };
}

impl TypeTrace for ModuleStartup {
    ghost Data = { λ R. StartupData R };

    ghost shape = { by_name startup_shape };

    ghost view = { startup_of };

    fn trace<F, E>(&self, func: &mut F) -> Result<(), E>
    where
        F: FnMut(EngineOrModuleTypeIndex) -> Result<(), E>,
    {
        match self {
            ModuleStartup::None => Ok(()),
            ModuleStartup::Always(ty) => ty.trace(func),
            ModuleStartup::IfMemoriesNeedInit(ty) => ty.trace(func),
        }
    }

    fn trace_mut<F, E>(&mut self, func: &mut F) -> Result<(), E>
    where
        F: FnMut(&mut EngineOrModuleTypeIndex) -> Result<(), E>,
    {
        match self {
            ModuleStartup::None => Ok(()),
            ModuleStartup::Always(ty) => ty.trace_mut(func),
            ModuleStartup::IfMemoriesNeedInit(ty) => ty.trace_mut(func),
        }
    }

    ghost injective = { tells startup_back };
}

// Visits each edge of the values of a list.
fn trace_list<K: EntityRef, V: TypeTrace, F, E>(
    list: &PrimaryMap<K, V>,
    func: &mut F,
) -> Result<(), E>
where
    F: FnMut(EngineOrModuleTypeIndex) -> Result<(), E>,
    requires { MayRun F.FnMut func.old (flat_map V.shape.edges (map V.view list.now)) }
    ensures { Run F.FnMut func.old (flat_map V.shape.edges (map V.view list.now)) result func.new }
{
    trace_all(list.as_slice(), func)
}

// Visits each edge of the values of a list, for writing.
fn trace_list_mut<K: EntityRef, V: TypeTrace, F, E>(
    list: &mut PrimaryMap<K, V>,
    func: &mut F,
) -> Result<(), E>
where
    F: FnMut(&mut EngineOrModuleTypeIndex) -> Result<(), E>,
    requires { MayRunMut F.FnMut func.old (flat_map V.shape.edges (map V.view list.old)) }
    ensures kept { map (frame V.shape) (map V.view list.new) ≡ map (frame V.shape) (map V.view list.old) }
    ensures run { RunMut F.FnMut func.old (flat_map V.shape.edges (map V.view list.old)) result func.new (flat_map V.shape.edges (map V.view list.new)) }
{
    trace_all_mut(list.as_mut_slice(), func)
}

/// The types of passive elements are not edges.
impl TypeTrace for Module {
    ghost Data = { λ R. ModuleData (Named R) R };

    ghost shape = { by_name module_shape };

    ghost view = { module_data_of };

    #[tactic(auto, using(wasm_trace::proofs::Joined::may_run_first, wasm_trace::proofs::Joined::may_run_then, wasm_trace::proofs::Joined::run_then, wasm_trace::proofs::Joined::run_stop))]
    fn trace<F, E>(&self, func: &mut F) -> Result<(), E>
    where
        F: FnMut(EngineOrModuleTypeIndex) -> Result<(), E>,
    {
        trace_list(&self.types, func)?;
        trace_list(&self.functions, func)?;
        trace_list(&self.tables, func)?;
        trace_list(&self.globals, func)?;
        trace_list(&self.tags, func)?;
        self.startup.trace(func)
    }

    #[tactic(auto, using(wasm_trace::proofs::Joined::may_run_first_mut, wasm_trace::proofs::Joined::may_run_then_mut, wasm_trace::proofs::Joined::run_then_mut, wasm_trace::proofs::Joined::run_stop_mut))]
    fn trace_mut<F, E>(&mut self, func: &mut F) -> Result<(), E>
    where
        F: FnMut(&mut EngineOrModuleTypeIndex) -> Result<(), E>,
    {
        trace_list_mut(&mut self.types, func)?;
        trace_list_mut(&mut self.functions, func)?;
        trace_list_mut(&mut self.tables, func)?;
        trace_list_mut(&mut self.globals, func)?;
        trace_list_mut(&mut self.tags, func)?;
        self.startup.trace_mut(func)
    }

    ghost injective = { tells module_back };
}
