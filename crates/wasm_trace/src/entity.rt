//! The edges of globals, tables, tags and the types of entities.

ghost use Rattle.type_spec.specs.Names.{Named, by_name};
ghost use Rattle.wasm_types.specs.EntityData.{GlobalData, TableData, TagData, EntityData};
ghost use Rattle.wasm_types.specs.EntityShapes.{global_shape, table_shape, tag_shape, entity_shape};
ghost use Rattle.wasm_types.specs.EntityViews.{global_of, table_of, tag_of, entity_of, global_back, table_back, tag_back, entity_back};
ghost use Rattle.wasm_types.specs.ViewsTell.{tells};

use crate::trace::TypeTrace;
use wasm_types::{EngineOrModuleTypeIndex, EntityType, Global, Table, Tag};

impl TypeTrace for Global {
    ghost Data = { λ R. GlobalData (Named R) };

    ghost shape = { by_name global_shape };

    ghost view = { global_of };

    fn trace<F, E>(&self, func: &mut F) -> Result<(), E>
    where
        F: FnMut(EngineOrModuleTypeIndex) -> Result<(), E>,
    {
        self.wasm_ty.trace(func)
    }

    fn trace_mut<F, E>(&mut self, func: &mut F) -> Result<(), E>
    where
        F: FnMut(&mut EngineOrModuleTypeIndex) -> Result<(), E>,
    {
        self.wasm_ty.trace_mut(func)
    }

    ghost injective = { tells global_back };
}

impl TypeTrace for Table {
    ghost Data = { λ R. TableData (Named R) };

    ghost shape = { by_name table_shape };

    ghost view = { table_of };

    fn trace<F, E>(&self, func: &mut F) -> Result<(), E>
    where
        F: FnMut(EngineOrModuleTypeIndex) -> Result<(), E>,
    {
        self.ref_type.trace(func)
    }

    fn trace_mut<F, E>(&mut self, func: &mut F) -> Result<(), E>
    where
        F: FnMut(&mut EngineOrModuleTypeIndex) -> Result<(), E>,
    {
        self.ref_type.trace_mut(func)
    }

    ghost injective = { tells table_back };
}

impl TypeTrace for Tag {
    ghost Data = { λ R. TagData R };

    ghost shape = { by_name tag_shape };

    ghost view = { tag_of };

    #[tactic(auto, using(crate::proofs::Runs::may_visit_first, crate::proofs::Runs::may_go_on))]
    fn trace<F, E>(&self, func: &mut F) -> Result<(), E>
    where
        F: FnMut(EngineOrModuleTypeIndex) -> Result<(), E>,
    {
        func(self.signature)?;
        func(self.exception)
    }

    #[tactic(auto, using(crate::proofs::Runs::may_visit_first_mut, crate::proofs::Runs::may_go_on_mut))]
    fn trace_mut<F, E>(&mut self, func: &mut F) -> Result<(), E>
    where
        F: FnMut(&mut EngineOrModuleTypeIndex) -> Result<(), E>,
    {
        func(&mut self.signature)?;
        func(&mut self.exception)
    }

    ghost injective = { tells tag_back };
}

impl TypeTrace for EntityType {
    ghost Data = { λ R. EntityData (Named R) R };

    ghost shape = { by_name entity_shape };

    ghost view = { entity_of };

    #[tactic(auto, using(crate::proofs::Runs::may_visit))]
    fn trace<F, E>(&self, func: &mut F) -> Result<(), E>
    where
        F: FnMut(EngineOrModuleTypeIndex) -> Result<(), E>,
    {
        match self {
            EntityType::Global(ty) => ty.trace(func),
            EntityType::Memory(_) => Ok(()),
            EntityType::Tag(ty) => ty.trace(func),
            EntityType::Table(ty) => ty.trace(func),
            EntityType::Function(index) => func(*index),
        }
    }

    #[tactic(auto, using(crate::proofs::Runs::one_visit, crate::proofs::Runs::may_visit_mut))]
    fn trace_mut<F, E>(&mut self, func: &mut F) -> Result<(), E>
    where
        F: FnMut(&mut EngineOrModuleTypeIndex) -> Result<(), E>,
    {
        match self {
            EntityType::Global(ty) => ty.trace_mut(func),
            EntityType::Memory(_) => Ok(()),
            EntityType::Tag(ty) => ty.trace_mut(func),
            EntityType::Table(ty) => ty.trace_mut(func),
            EntityType::Function(index) => func(index),
        }
    }

    ghost injective = { tells entity_back };
}
