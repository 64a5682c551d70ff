//! What indices of declared types name, while a module is translated.

ghost use Rattle.std.specs.Prelude.{◌≡◌, ◌<◌, ℕ, length, Some, IsSome, IfOk};
ghost use Rattle.wasm_spec.specs.declared.types.UnpackedIndex.TheVariants.{Module};
ghost use Rattle.wasm_spec.specs.TypeData.{Concrete};
ghost use Rattle.wasm_index.specs.Index.{number_of};
ghost use Rattle.wasm_types.specs.ValueViews.{heap_of};
ghost use Rattle.interned_types.specs.Environment.{AreHeld, NameEach, declared_name, interned_in};
ghost use Rattle.interned_types.specs.Named.{IsNamed, name_in};

use entity_map::{OutOfMemory, PrimaryMap};
use module_types::{ModuleTypesBuilder, TypeLookUp, WasmparserTypeConverter};
use std::alloc::Global;
use wasm_convert::TypeConvert;
use wasm_index::{ModuleInternedTypeIndex, TypeIndex};
use wasm_spec::UnpackedIndex;
use wasm_types::{EngineOrModuleTypeIndex, WasmHeapType};

/// The interned index of each type of a record.
#[derive(Drop)]
pub(crate) struct RecordTypes<'a>(&'a PrimaryMap<TypeIndex, EngineOrModuleTypeIndex>);

impl TypeLookUp for RecordTypes<'_> {
    ghost callable = { λ types i. IsSome (interned_in types.0.now (number_of i)) };

    ghost gives = { λ types i r. interned_in types.0.now (number_of i) ≡ Some r };

    fn interned_index(&self, index: TypeIndex) -> ModuleInternedTypeIndex {
        self.0[index].unwrap_module_type_index()
    }
}

/// A converter of types that name declared types, each by its interned index.
pub(crate) fn declared_converter<'a>(
    types: &'a ModuleTypesBuilder,
    declared: &'a PrimaryMap<TypeIndex, EngineOrModuleTypeIndex>,
) -> WasmparserTypeConverter<'a, RecordTypes<'a>>
    requires { AreHeld declared.now (length types.now.list.types) }
    ensures knows { (i : ℕ) → i < length declared.now
        → ⟦<WasmparserTypeConverter<'a, RecordTypes<'a>> as TypeConvert>⟧.knows result (Module i) }
    ensures looks { (i : ℕ) → i < length declared.now
        → ⟦<WasmparserTypeConverter<'a, RecordTypes<'a>> as TypeConvert>⟧.look_up result (Module i) ≡ declared_name declared.now types.now i }
{
    let count = declared.len() as u32;
    WasmparserTypeConverter::new(types, count, RecordTypes(declared))
}

/// The declared types of a module, each as a reference to its interned type. It holds no borrow, so
/// that it can be used as a trait object.
#[derive(Drop)]
pub struct DeclaredHeapTypes {
    /// What each is named by, by its index.
    pub names: Vec<WasmHeapType>,
}

impl TypeConvert for DeclaredHeapTypes {
    ghost knows = { λ d i. IsNamed d.names.items i };

    ghost look_up = { λ d i. name_in d.names.items i };

    fn lookup_heap_type(&self, index: UnpackedIndex) -> WasmHeapType {
        named_heap_type(&self.names, index)
    }

    fn lookup_type_index(&self, index: UnpackedIndex) -> EngineOrModuleTypeIndex {
        named_index(&self.names, index)
    }
}

/// The reference by which a declared type is named.
pub fn named_heap_type(names: &[WasmHeapType], index: UnpackedIndex) -> WasmHeapType
    requires { IsNamed names.now index }
    ensures { heap_of result ≡ Concrete (name_in names.now index) }
{
    match index {
        UnpackedIndex::Module(number) => names[number as usize],
        _ => unreachable!(),
    }
}

/// The interned index of a declared type.
pub fn named_index(names: &[WasmHeapType], index: UnpackedIndex) -> EngineOrModuleTypeIndex
    requires { IsNamed names.now index }
    ensures { result ≡ (name_in names.now index).index }
{
    match named_heap_type(names, index) {
        WasmHeapType::ConcreteFunc(index)
        | WasmHeapType::ConcreteArray(index)
        | WasmHeapType::ConcreteStruct(index)
        | WasmHeapType::ConcreteCont(index)
        | WasmHeapType::ConcreteExn(index) => index,
        _ => unreachable!(),
    }
}

/// What each declared type is named by, whose interned indices are listed.
pub fn declared_types(
    alloc: Global,
    types: &ModuleTypesBuilder,
    indices: &PrimaryMap<TypeIndex, EngineOrModuleTypeIndex>,
) -> Result<DeclaredHeapTypes, OutOfMemory>
    requires { AreHeld indices.now (length types.now.list.types) }
    ensures { IfOk result (λ d. NameEach indices.now types.now d.names.items) }
{
    let converter = declared_converter(types, indices);
    let mut names = Vec::with_capacity(alloc, indices.len())?;
    for number in 0..indices.len() as u32 {
        names.push(converter.lookup_heap_type(UnpackedIndex::Module(number)))?;
    }
    Ok(DeclaredHeapTypes { names })
}
