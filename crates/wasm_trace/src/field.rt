//! The edges of storage, field and array types.

ghost use Rattle.wasm_spec.specs.TypeData.{Storage, Field};
ghost use Rattle.type_spec.specs.TypeShapes.{storage_shape, field_shape};
ghost use Rattle.type_spec.specs.Names.{Named, by_name};
ghost use Rattle.wasm_types.specs.ValueViews.{storage_of, field_of};
ghost use Rattle.wasm_types.specs.TypeViews.{array_of};
ghost use Rattle.wasm_types.specs.ViewsTell.{tells, storage_back, field_back, array_back};

use crate::trace::TypeTrace;
use wasm_types::{EngineOrModuleTypeIndex, WasmArrayType, WasmFieldType, WasmStorageType};

impl TypeTrace for WasmStorageType {
    ghost Data = { λ R. Storage (Named R) };

    ghost shape = { by_name storage_shape };

    ghost view = { storage_of };

    fn trace<F, E>(&self, func: &mut F) -> Result<(), E>
    where
        F: FnMut(EngineOrModuleTypeIndex) -> Result<(), E>,
    {
        match self {
            WasmStorageType::Val(ty) => ty.trace(func),
            _ => Ok(()),
        }
    }

    fn trace_mut<F, E>(&mut self, func: &mut F) -> Result<(), E>
    where
        F: FnMut(&mut EngineOrModuleTypeIndex) -> Result<(), E>,
    {
        match self {
            WasmStorageType::Val(ty) => ty.trace_mut(func),
            _ => Ok(()),
        }
    }

    ghost injective = { tells storage_back };
}

impl TypeTrace for WasmFieldType {
    ghost Data = { λ R. Field (Named R) };

    ghost shape = { by_name field_shape };

    ghost view = { field_of };

    fn trace<F, E>(&self, func: &mut F) -> Result<(), E>
    where
        F: FnMut(EngineOrModuleTypeIndex) -> Result<(), E>,
    {
        self.element_type.trace(func)
    }

    fn trace_mut<F, E>(&mut self, func: &mut F) -> Result<(), E>
    where
        F: FnMut(&mut EngineOrModuleTypeIndex) -> Result<(), E>,
    {
        self.element_type.trace_mut(func)
    }

    ghost injective = { tells field_back };
}

impl TypeTrace for WasmArrayType {
    ghost Data = { λ R. Field (Named R) };

    ghost shape = { by_name field_shape };

    ghost view = { array_of };

    fn trace<F, E>(&self, func: &mut F) -> Result<(), E>
    where
        F: FnMut(EngineOrModuleTypeIndex) -> Result<(), E>,
    {
        self.0.trace(func)
    }

    fn trace_mut<F, E>(&mut self, func: &mut F) -> Result<(), E>
    where
        F: FnMut(&mut EngineOrModuleTypeIndex) -> Result<(), E>,
    {
        self.0.trace_mut(func)
    }

    ghost injective = { tells array_back };
}
