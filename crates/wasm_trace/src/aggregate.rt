//! The edges of struct and exception types.

ghost use Rattle.std.specs.Prelude.{List};
ghost use Rattle.wasm_spec.specs.TypeData.{Field, Exception};
ghost use Rattle.type_spec.specs.TypeShapes.{fields_shape, exception_shape};
ghost use Rattle.type_spec.specs.Names.{Named, by_name};
ghost use Rattle.wasm_types.specs.TypeViews.{struct_of, exception_of};
ghost use Rattle.wasm_types.specs.ViewsTell.{tells, struct_back, exception_back};

use crate::lists::{trace_all, trace_all_mut};
use crate::trace::TypeTrace;
use wasm_types::{EngineOrModuleTypeIndex, WasmExnType, WasmStructType};

impl TypeTrace for WasmStructType {
    ghost Data = { λ R. List (Field (Named R)) };

    ghost shape = { by_name fields_shape };

    ghost view = { struct_of };

    fn trace<F, E>(&self, func: &mut F) -> Result<(), E>
    where
        F: FnMut(EngineOrModuleTypeIndex) -> Result<(), E>,
    {
        trace_all(self.fields.as_slice(), func)
    }

    fn trace_mut<F, E>(&mut self, func: &mut F) -> Result<(), E>
    where
        F: FnMut(&mut EngineOrModuleTypeIndex) -> Result<(), E>,
    {
        trace_all_mut(self.fields.as_mut_slice(), func)
    }

    ghost injective = { tells struct_back };
}

impl TypeTrace for WasmExnType {
    ghost Data = { λ R. Exception (Named R) R };

    ghost shape = { by_name exception_shape };

    ghost view = { exception_of };

    #[tactic(auto, using(crate::proofs::Runs::may_visit_first, crate::proofs::Runs::may_go_on))]
    fn trace<F, E>(&self, func: &mut F) -> Result<(), E>
    where
        F: FnMut(EngineOrModuleTypeIndex) -> Result<(), E>,
    {
        func(self.func_ty)?;
        trace_all(self.fields.as_slice(), func)
    }

    #[tactic(auto, using(crate::proofs::Runs::may_visit_first_mut, crate::proofs::Runs::may_go_on_mut))]
    fn trace_mut<F, E>(&mut self, func: &mut F) -> Result<(), E>
    where
        F: FnMut(&mut EngineOrModuleTypeIndex) -> Result<(), E>,
    {
        func(&mut self.func_ty)?;
        trace_all_mut(self.fields.as_mut_slice(), func)
    }

    ghost injective = { tells exception_back };
}
