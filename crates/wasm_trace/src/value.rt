//! The edges of heap, reference and value types.

ghost use Rattle.wasm_spec.specs.TypeData.{Heap, Reference, ValueType};
ghost use Rattle.type_spec.specs.TypeShapes.{heap_shape, reference_shape, value_shape};
ghost use Rattle.type_spec.specs.Names.{Named, by_name};
ghost use Rattle.wasm_types.specs.ValueViews.{heap_of, reference_of, value_of};
ghost use Rattle.wasm_types.specs.ViewsTell.{tells, heap_back, reference_back, value_back};

use crate::trace::TypeTrace;
use wasm_types::{EngineOrModuleTypeIndex, WasmHeapType, WasmRefType, WasmValType};

impl TypeTrace for WasmHeapType {
    ghost Data = { λ R. Heap (Named R) };

    ghost shape = { by_name heap_shape };

    ghost view = { heap_of };

    #[tactic(auto, using(crate::proofs::Runs::may_visit))]
    fn trace<F, E>(&self, func: &mut F) -> Result<(), E>
    where
        F: FnMut(EngineOrModuleTypeIndex) -> Result<(), E>,
    {
        match self {
            WasmHeapType::ConcreteFunc(index) => func(*index),
            WasmHeapType::ConcreteExn(index) => func(*index),
            WasmHeapType::ConcreteCont(index) => func(*index),
            WasmHeapType::ConcreteArray(index) => func(*index),
            WasmHeapType::ConcreteStruct(index) => func(*index),
            _ => Ok(()),
        }
    }

    #[tactic(auto, using(crate::proofs::Runs::one_visit, crate::proofs::Runs::may_visit_mut))]
    fn trace_mut<F, E>(&mut self, func: &mut F) -> Result<(), E>
    where
        F: FnMut(&mut EngineOrModuleTypeIndex) -> Result<(), E>,
    {
        match self {
            WasmHeapType::ConcreteFunc(index) => func(index),
            WasmHeapType::ConcreteExn(index) => func(index),
            WasmHeapType::ConcreteCont(index) => func(index),
            WasmHeapType::ConcreteArray(index) => func(index),
            WasmHeapType::ConcreteStruct(index) => func(index),
            _ => Ok(()),
        }
    }

    ghost injective = { tells heap_back };
}

impl TypeTrace for WasmRefType {
    ghost Data = { λ R. Reference (Named R) };

    ghost shape = { by_name reference_shape };

    ghost view = { reference_of };

    fn trace<F, E>(&self, func: &mut F) -> Result<(), E>
    where
        F: FnMut(EngineOrModuleTypeIndex) -> Result<(), E>,
    {
        self.heap_type.trace(func)
    }

    fn trace_mut<F, E>(&mut self, func: &mut F) -> Result<(), E>
    where
        F: FnMut(&mut EngineOrModuleTypeIndex) -> Result<(), E>,
    {
        self.heap_type.trace_mut(func)
    }

    ghost injective = { tells reference_back };
}

impl TypeTrace for WasmValType {
    ghost Data = { λ R. ValueType (Named R) };

    ghost shape = { by_name value_shape };

    ghost view = { value_of };

    fn trace<F, E>(&self, func: &mut F) -> Result<(), E>
    where
        F: FnMut(EngineOrModuleTypeIndex) -> Result<(), E>,
    {
        match self {
            WasmValType::Ref(ty) => ty.trace(func),
            _ => Ok(()),
        }
    }

    fn trace_mut<F, E>(&mut self, func: &mut F) -> Result<(), E>
    where
        F: FnMut(&mut EngineOrModuleTypeIndex) -> Result<(), E>,
    {
        match self {
            WasmValType::Ref(ty) => ty.trace_mut(func),
            _ => Ok(()),
        }
    }

    ghost injective = { tells value_back };
}
