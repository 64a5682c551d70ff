//! The edges of a function type.

ghost use Rattle.wasm_spec.specs.TypeData.{Function};
ghost use Rattle.type_spec.specs.TypeShapes.{function_shape};
ghost use Rattle.type_spec.specs.Names.{Named, by_name};
ghost use Rattle.wasm_types.specs.TypeViews.{function_of};
ghost use Rattle.wasm_types.specs.ViewsTell.{tells, function_back};

use crate::lists::{trace_all, trace_all_mut};
use crate::trace::TypeTrace;
use wasm_types::{EngineOrModuleTypeIndex, WasmFuncType};

impl TypeTrace for WasmFuncType {
    ghost Data = { λ R. Function (Named R) };

    ghost shape = { by_name function_shape };

    ghost view = { function_of };

    #[tactic(auto, using(crate::proofs::Joined::may_run_first, crate::proofs::Joined::may_run_then, crate::proofs::Joined::run_then, crate::proofs::Joined::run_stop))]
    fn trace<F, E>(&self, func: &mut F) -> Result<(), E>
    where
        F: FnMut(EngineOrModuleTypeIndex) -> Result<(), E>,
    {
        trace_all(self.params(), func)?;
        trace_all(self.results(), func)
    }

    fn trace_mut<F, E>(&mut self, func: &mut F) -> Result<(), E>
    where
        F: FnMut(&mut EngineOrModuleTypeIndex) -> Result<(), E>,
    {
        let (mut types, params_count) = self.take_types();
        let result = trace_all_mut(types.as_mut_slice(), func);
        *self = WasmFuncType::from_types(types, params_count);
        result
    }

    ghost injective = { tells function_back };
}
