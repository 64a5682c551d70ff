//! Conversion over a look-up that is stored.

ghost use Rattle.std.specs.Prelude.{◌≡◌, ◌↔◌, ◌<◌, ◌+◌, ◌⊎◌, ℕ, length, None, Some, IsSome};
ghost use Rattle.wasm_spec.specs.declared.types.UnpackedIndex.TheVariants.{Id};
ghost use Rattle.form_types.specs.Ids.{id_of};
ghost use Rattle.form_types.specs.Types.{types_by_id};
ghost use Rattle.wasm_index.specs.Index.{number_of, index_of};
ghost use Rattle.std.specs.Option.{option_map};
ghost use Rattle.wasm_spec.specs.TypeData.{Concrete};
ghost use Rattle.type_spec.specs.Interned.{kind_of_type};
ghost use Rattle.wasm_index.specs.declared.index.Index.{Index};
ghost use Rattle.wasm_index.specs.declared.spaces.TypeSpace.{TypeSpace};
ghost use Rattle.wasm_index.specs.declared.spaces.ModuleInternedTypeSpace.{ModuleInternedTypeSpace};
ghost use Rattle.wasm_types.specs.ValueViews.{heap_of};
ghost use Rattle.wasm_types.specs.TypeViews.{composite_of};
ghost use Rattle.wasm_types.specs.declared.index.EngineOrModuleTypeIndex.TheVariants.{Module};
ghost use Rattle.module_types.specs.Builder.{builder_view};
ghost use Rattle.module_types.specs.Conversion.{group_of_id, members_of, StandGroups};
ghost use Rattle.module_types.specs.ClosureAnswers.{AnswersBelow, AnswersBelow-prop};
ghost use Rattle.module_types.specs.Converter.{KnowsIndex, look_index, look_ids, answered, HaveIndices, HaveIndices-prop};

use crate::builder::ModuleTypesBuilder;
use entity_map::EntityRef;
use form_types::{RecGroupId, Types};
use wasm_convert::TypeConvert;
use wasm_index::{ModuleInternedTypeIndex, TypeIndex};
use wasm_spec::UnpackedIndex;
use wasm_types::{EngineOrModuleTypeIndex, WasmCompositeInnerType, WasmHeapType, WasmSubType};

/// A reference to an interned type at its index.
fn reference_to_interned(ty: &WasmSubType, index: ModuleInternedTypeIndex) -> WasmHeapType
    ensures { heap_of result ≡ Concrete (record { kind = kind_of_type (composite_of ty.now.composite_type.inner); index = Module index }) }
{
    let index = EngineOrModuleTypeIndex::Module(index);
    match &ty.composite_type.inner {
        WasmCompositeInnerType::Func(_) => WasmHeapType::ConcreteFunc(index),
        WasmCompositeInnerType::Array(_) => WasmHeapType::ConcreteArray(index),
        WasmCompositeInnerType::Struct(_) => WasmHeapType::ConcreteStruct(index),
        WasmCompositeInnerType::Cont(_) => WasmHeapType::ConcreteCont(index),
        WasmCompositeInnerType::Exn(_) => WasmHeapType::ConcreteExn(index),
    }
}

/// What gives the interned index of each type of a module.
pub trait TypeLookUp {
    /// It may be called at an index.
    ghost callable: { Self → Index TypeSpace → Type 0 };

    /// What it may return there.
    ghost gives: { Self → Index TypeSpace → Index ModuleInternedTypeSpace → Type 0 };

    /// The interned index of a type.
    fn interned_index(&self, index: TypeIndex) -> ModuleInternedTypeIndex
        requires { callable self.now index }
        ensures { gives self.now index result };
}

/// Converts types that name the types of a module by a look-up, and those of a list of types by
/// their ids.
#[derive(Drop)]
pub struct WasmparserTypeConverter<'a, F: TypeLookUp> {
    types: &'a ModuleTypesBuilder,
    count: u32,
    lookup_type_idx: F,
    rec_group: Option<(&'a Types, RecGroupId)>,
    // The look-up has one result for each of the first types, and it is interned.
    ghost answers: { AnswersBelow (λ i r. F.gives lookup_type_idx i r) (length types.now.list.types) count } by { AnswersBelow-prop (λ i r. F.gives lookup_type_idx i r) (length types.now.list.types) count },
    // Each id that it knows has an index.
    ghost have_indices: { HaveIndices types.now (option_map (λ p. (p.0.now, p.1.0)) rec_group) } by { HaveIndices-prop types.now (option_map (λ p. (p.0.now, p.1.0)) rec_group) },
}

impl<'a, F: TypeLookUp> WasmparserTypeConverter<'a, F> {
    /// A converter of types that name the first `count` types of a module. The look-up gives the
    /// interned index of each.
    pub fn new(types: &'a ModuleTypesBuilder, count: u32, lookup_type_idx: F) -> Self
        requires { AnswersBelow (λ i r. F.gives lookup_type_idx i r) (length types.now.list.types) count }
        ensures types { result.types.now ≡ types.now }
        ensures count { result.count ≡ count }
        ensures look_up { result.lookup_type_idx ≡ lookup_type_idx }
        ensures ids { result.rec_group ≡ None }
    {
        WasmparserTypeConverter {
            types,
            count,
            lookup_type_idx,
            rec_group: None,
        }
    }

    /// Also looks up ids of a list of types. Groups that the builder holds are at their interned
    /// indices. One group, which is interned next unless it is held, is at the builder's next index
    /// plus the positions in it. It knows no other id.
    pub fn with_rec_group(&mut self, types: &'a Types, rec_group: RecGroupId) -> &Self
        requires holds { StandGroups types.now (builder_view self.old.types.now) }
        requires room { (builder_view self.old.types.now).ids rec_group.0 ≡ None → length self.old.types.now.list.types + length (members_of types.now rec_group.0) < u32.MAX }
        ensures types { result.now.types.now ≡ self.old.types.now }
        ensures count { result.now.count ≡ self.old.count }
        ensures look_up { result.now.lookup_type_idx ≡ self.old.lookup_type_idx }
        ensures ids { result.now.rec_group ≡ Some (types.entry, rec_group) }
        ensures known { (n : ℕ) → ⟦<WasmparserTypeConverter<'a, F> as TypeConvert>⟧.knows result.now (Id (id_of n))
            ↔ ((n < length (types_by_id types.now.groups)) × ((group_of_id types.now n ≡ rec_group.0) ⊎ IsSome ((builder_view self.old.types.now).ids (group_of_id types.now n)))) }
        ensures looks { (n : ℕ) → ⟦<WasmparserTypeConverter<'a, F> as TypeConvert>⟧.look_up result.now (Id (id_of n))
            ≡ look_ids self.old.types.now (Some (types.now, rec_group.0)) (Id (id_of n)) }
    {
        self.rec_group = Some((types, rec_group));
        self
    }

    // The interned index of a type of the module.
    fn interned(&self, number: u32) -> ModuleInternedTypeIndex
        requires below { number < self.now.count }
        requires callable { F.callable self.now.lookup_type_idx (index_of number) }
        ensures answered { number_of result ≡ answered (λ i r. F.gives self.now.lookup_type_idx i r) self.now.types.now self.now.count self.now.answers (option_map (λ p. (p.0.now, p.1.0)) self.now.rec_group) number }
        ensures held { number_of result < length self.now.types.now.list.types }
    {
        prove!(number < self.count);
        self.lookup_type_idx
            .interned_index(TypeIndex::from_u32(number))
    }
}

impl<'a, F: TypeLookUp> TypeConvert for WasmparserTypeConverter<'a, F> {
    ghost knows = { λ c i. KnowsIndex (λ i. F.callable c.lookup_type_idx i) c.types.now c.count (option_map (λ p. (p.0.now, p.1.0)) c.rec_group) i };

    ghost look_up = { λ c i. look_index (λ i r. F.gives c.lookup_type_idx i r) c.types.now c.count c.answers (option_map (λ p. (p.0.now, p.1.0)) c.rec_group) i };

    fn lookup_heap_type(&self, index: UnpackedIndex) -> WasmHeapType {
        match index {
            UnpackedIndex::Module(number) => {
                let index = self.interned(number);
                reference_to_interned(&self.types[index], index)
            }
            UnpackedIndex::Id(_) => match self.rec_group {
                Some((types, _)) => self.types.looking_up(types).lookup_heap_type(index),
                None => unreachable!(),
            },
            UnpackedIndex::RecGroup(_) => unreachable!(),
        }
    }

    fn lookup_type_index(&self, index: UnpackedIndex) -> EngineOrModuleTypeIndex {
        match index {
            UnpackedIndex::Module(number) => EngineOrModuleTypeIndex::Module(self.interned(number)),
            UnpackedIndex::Id(_) => match self.rec_group {
                Some((types, _)) => self.types.looking_up(types).lookup_type_index(index),
                None => unreachable!(),
            },
            UnpackedIndex::RecGroup(_) => unreachable!(),
        }
    }
}
