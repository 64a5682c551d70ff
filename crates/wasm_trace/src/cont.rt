//! The edge of a continuation type.

ghost use Rattle.type_spec.specs.Names.{reference_alone};
ghost use Rattle.wasm_types.specs.Indices.{cont_index};
ghost use Rattle.wasm_types.specs.ViewsTell.{tells, cont_back};

use crate::trace::TypeTrace;
use wasm_types::{EngineOrModuleTypeIndex, WasmContType};

impl TypeTrace for WasmContType {
    ghost Data = { λ R. R };

    ghost shape = { reference_alone };

    ghost view = { cont_index };

    #[tactic(auto, using(crate::proofs::Runs::may_visit))]
    fn trace<F, E>(&self, func: &mut F) -> Result<(), E>
    where
        F: FnMut(EngineOrModuleTypeIndex) -> Result<(), E>,
    {
        func(self.index())
    }

    #[tactic(auto, using(crate::proofs::Runs::one_visit, crate::proofs::Runs::may_visit_mut))]
    fn trace_mut<F, E>(&mut self, func: &mut F) -> Result<(), E>
    where
        F: FnMut(&mut EngineOrModuleTypeIndex) -> Result<(), E>,
    {
        func(self.index_mut())
    }

    ghost injective = { tells cont_back };
}
