//! The one edge of a type index.

ghost use Rattle.type_spec.specs.Names.{reference_alone};

use crate::trace::TypeTrace;
use wasm_types::EngineOrModuleTypeIndex;

impl TypeTrace for EngineOrModuleTypeIndex {
    ghost Data = { λ R. R };

    ghost shape = { reference_alone };

    ghost view = { λ i. i };

    #[tactic(auto, using(crate::proofs::Runs::may_visit))]
    fn trace<F, E>(&self, func: &mut F) -> Result<(), E>
    where
        F: FnMut(EngineOrModuleTypeIndex) -> Result<(), E>,
    {
        func(*self)
    }

    #[tactic(auto, using(crate::proofs::Runs::one_visit, crate::proofs::Runs::may_visit_mut))]
    fn trace_mut<F, E>(&mut self, func: &mut F) -> Result<(), E>
    where
        F: FnMut(&mut EngineOrModuleTypeIndex) -> Result<(), E>,
    {
        func(self)
    }

    ghost injective = { λ x y same. same };
}
