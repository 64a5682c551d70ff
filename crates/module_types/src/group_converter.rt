//! Groups that name types by ids, as groups of interned types.

ghost use Rattle.std.specs.Prelude.{◌≡◌, map};
ghost use Rattle.wasm_spec.specs.TypeData.{Concrete};
ghost use Rattle.type_spec.specs.Interned.{kind_of_type};
ghost use Rattle.form_reader.specs.Views as form;
ghost use Rattle.wasm_index.specs.Index.{number_of, index_of};
ghost use Rattle.wasm_types.specs.ValueViews.{heap_of};
ghost use Rattle.module_types.specs.Views.{index_at, span_of};
ghost use Rattle.module_types.specs.IndicesByKey.{noted_at};
ghost use Rattle.module_types.specs.Conversion.{HasIndex, KnowsId, index_by_id, look_by_id};

use crate::indices_by_key::IndicesByKey;
use crate::list::ModuleTypes;
use entity_map::EntityRef;
use form_reader::CompositeInnerType;
use form_types::Types;
use wasm_convert::TypeConvert;
use wasm_index::{ModuleInternedRecGroupSpace, ModuleInternedTypeIndex};
use wasm_spec::{CoreTypeId, UnpackedIndex};
use wasm_types::{EngineOrModuleTypeIndex, WasmHeapType};

/// A reference to the type at an index, which is of the kind of a composite type.
pub(crate) fn reference_to(
    composite: &CompositeInnerType,
    index: ModuleInternedTypeIndex,
) -> WasmHeapType
    ensures { heap_of result ≡ Concrete (record { kind = kind_of_type (form.composite_of composite.now); index = index_at (number_of index) }) }
{
    let index = EngineOrModuleTypeIndex::Module(index);
    match composite {
        CompositeInnerType::Func(_) => WasmHeapType::ConcreteFunc(index),
        CompositeInnerType::Array(_) => WasmHeapType::ConcreteArray(index),
        CompositeInnerType::Struct(_) => WasmHeapType::ConcreteStruct(index),
        CompositeInnerType::Cont(_) => WasmHeapType::ConcreteCont(index),
    }
}

/// Looks up ids of a list of types: those of groups that are interned, and those of the group that
/// is interned next.
#[derive(Clone, Copy)]
pub(crate) struct GroupConverter<'a> {
    pub(crate) list: &'a ModuleTypes,
    /// The group that was interned under each id of a group.
    pub(crate) ids: &'a IndicesByKey<ModuleInternedRecGroupSpace>,
    pub(crate) types: &'a Types,
    /// The index at which the group starts that is interned next.
    pub(crate) next: ModuleInternedTypeIndex,
}

impl GroupConverter<'_> {
    /// The index of the type of an id.
    pub(crate) fn index_of(&self, id: CoreTypeId) -> ModuleInternedTypeIndex
        requires { HasIndex self.now.types.now (number_of self.now.next) (map span_of self.now.list.now.groups) (noted_at self.now.ids.now) id.0 }
        ensures { result ≡ index_of (index_by_id self.now.types.now (number_of self.now.next) (map span_of self.now.list.now.groups) (noted_at self.now.ids.now) id.0) }
    {
        let group = self.types.rec_group_id_of(id);
        let Some(first) = self.types.rec_group_elements(group).next() else {
            unreachable!()
        };
        let place = id.0 - first.0;
        match self.ids.get(group.0) {
            Some(held) => {
                let (start, _end) = self.list.ends_of(held);
                ModuleInternedTypeIndex::from_u32(start + place)
            }
            None => ModuleInternedTypeIndex::from_u32(self.next.as_u32() + place),
        }
    }
}

impl TypeConvert for GroupConverter<'_> {
    ghost knows = { λ c i. KnowsId c.types.now (number_of c.next) (map span_of c.list.now.groups) (noted_at c.ids.now) i };

    ghost look_up = { λ c i. look_by_id c.types.now (number_of c.next) (map span_of c.list.now.groups) (noted_at c.ids.now) i };

    fn lookup_heap_type(&self, index: UnpackedIndex) -> WasmHeapType {
        match index {
            UnpackedIndex::Id(id) => reference_to(&self.types[id].composite, self.index_of(id)),
            _ => unreachable!(),
        }
    }

    fn lookup_type_index(&self, index: UnpackedIndex) -> EngineOrModuleTypeIndex {
        match index {
            UnpackedIndex::Id(id) => EngineOrModuleTypeIndex::Module(self.index_of(id)),
            _ => unreachable!(),
        }
    }
}
