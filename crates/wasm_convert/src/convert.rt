//! The trait of a look-up of the types that indices name.

ghost use Rattle.std.specs.Prelude.{◌≡◌, IfOk, IfSome, map};
ghost use Rattle.wasm_spec.specs.declared.types.UnpackedIndex.{UnpackedIndex};
ghost use Rattle.wasm_spec.specs.TypeData.{Concrete, unshared, heap_edges, reference_edges, value_edges, storage_edges, field_edges, function_edges, composite_edges, sub_type_edges, map_heap, map_reference, map_value, map_storage, map_field, map_function, map_composite, map_sub_type};
ghost use Rattle.wasm_spec.specs.TypeData as read;
ghost use Rattle.type_spec.specs.Names.{FuncName};
ghost use Rattle.type_spec.specs.TypeShapes.{fields_shape};
ghost use Rattle.form_reader.specs.Views as form;
ghost use Rattle.wasm_types.specs.EntityData.{global_edges, table_edges, map_global, map_table};
ghost use Rattle.wasm_types.specs.EntityViews.{global_of, table_of};
ghost use Rattle.wasm_types.specs.Indices.{cont_index};
ghost use Rattle.wasm_types.specs.TypeViews.{array_of, struct_of, function_of, shared_of, sub_type_of};
ghost use Rattle.wasm_types.specs.ValueViews.{heap_of, reference_of, value_of, storage_of, field_of};
ghost use Rattle.wasm_convert.specs.Conversion.{LookUp, index_in, global_type_of, table_type_of};
ghost use Rattle.wasm_convert.specs.Known.{CanLookUp, Known, CanConvert, IsFew};

use entity_map::OutOfMemory;
use form_reader::{CompositeInnerType, FuncType, SubType};
use std::alloc::Global as Heap;
use wasm_spec::{
    AbstractHeapType, FieldType, GlobalType, HeapType, RefType, StorageType, TableType,
    UnpackedIndex, ValType,
};
use wasm_types::{
    EngineOrModuleTypeIndex, Global, IndexType, Limits, Table, WasmArrayType,
    WasmCompositeInnerType, WasmCompositeType, WasmContType, WasmFieldType, WasmFuncType,
    WasmHeapType, WasmRefType, WasmStorageType, WasmStructType, WasmSubType, WasmValType,
};

/// A value type that is no reference, as one of a translated module.
#[inline(always)]
fn number_type(ty: &ValType) -> Option<WasmValType>
    ensures { IfSome result (λ number. (look_up : LookUp) → value_of number ≡ map_value look_up (read.value_of ty.now)) }
{
    match ty {
        ValType::I32 => Some(WasmValType::I32),
        ValType::I64 => Some(WasmValType::I64),
        ValType::F32 => Some(WasmValType::F32),
        ValType::F64 => Some(WasmValType::F64),
        ValType::V128 => Some(WasmValType::V128),
        ValType::Ref(_) => None,
    }
}

/// A look-up of the types that indices name. It converts types that were read into those of a
/// translated module. Each index in a type that is converted must be known, and none may be an
/// index into a group.
pub trait TypeConvert {
    /// The indices that it knows.
    ghost knows: { Self → UnpackedIndex → Type 0 };

    /// The result of looking up an index: the kind of the type that it names, and the index of that
    /// type.
    ghost look_up: { Self → LookUp };

    /// The global of a global type.
    fn convert_global_type(&self, ty: &GlobalType) -> Global
        requires { Known (knows self.now) (global_edges (λ i. i) (global_type_of ty.now)) }
        ensures { global_of result ≡ map_global (look_up self.now) (global_type_of ty.now) }
    {
        Global {
            wasm_ty: self.convert_valtype(ty.content_type),
            mutability: ty.mutable,
        }
    }

    /// The table of a table type.
    fn convert_table_type(&self, ty: &TableType) -> Table
        requires { Known (knows self.now) (table_edges (λ i. i) (table_type_of ty.now)) }
        ensures { table_of result ≡ map_table (look_up self.now) (table_type_of ty.now) }
    {
        Table {
            idx_type: if ty.table64 {
                IndexType::I64
            } else {
                IndexType::I32
            },
            limits: Limits {
                min: ty.initial,
                max: ty.maximum,
            },
            ref_type: self.convert_ref_type(ty.element_type),
        }
    }

    /// Converts a subtype, with its supertype and its composite type.
    ///
    /// # Errors
    /// `OutOfMemory` where the lists of a composite type cannot be allocated.
    fn convert_sub_type(&self, alloc: Heap, ty: &SubType) -> Result<WasmSubType, OutOfMemory>
        requires known { Known (knows self.now) (sub_type_edges (λ i. i) (form.sub_type_of ty.now)) }
        requires can { CanConvert (look_up self.now) (form.composite_of ty.now.composite) }
        ensures { IfOk result (λ t. sub_type_of t ≡ map_sub_type (look_up self.now) (index_in (look_up self.now)) (form.sub_type_of ty.now)) }
    {
        Ok(WasmSubType {
            is_final: ty.is_final,
            supertype: ty.supertype.map(|index| self.lookup_type_index(index)),
            composite_type: self.convert_composite_type(alloc, &ty.composite)?,
        })
    }

    /// Converts a composite type. None that was read is shared.
    ///
    /// # Errors
    /// `OutOfMemory` where the lists of a function or struct type cannot be allocated.
    fn convert_composite_type(
        &self,
        alloc: Heap,
        ty: &CompositeInnerType,
    ) -> Result<WasmCompositeType, OutOfMemory>
        requires known { Known (knows self.now) (composite_edges (λ i. i) (form.composite_of ty.now)) }
        requires can { CanConvert (look_up self.now) (form.composite_of ty.now) }
        ensures { IfOk result (λ t. shared_of t ≡ unshared (map_composite (look_up self.now) (index_in (look_up self.now)) (form.composite_of ty.now))) }
    {
        let inner = match ty {
            CompositeInnerType::Func(ty) => WasmCompositeInnerType::Func(self.convert_func_type(
                alloc, ty,
            )?),
            CompositeInnerType::Array(ty) => WasmCompositeInnerType::Array(self.convert_array_type(
                ty,
            )),
            CompositeInnerType::Struct(fields) => WasmCompositeInnerType::Struct(
                self.convert_struct_type(alloc, fields.as_slice())?,
            ),
            CompositeInnerType::Cont(index) => WasmCompositeInnerType::Cont(self.convert_cont_type(
                *index,
            )),
        };
        Ok(WasmCompositeType {
            inner,
            shared: false,
        })
    }

    /// The continuation type of the function type that an index names.
    fn convert_cont_type(&self, index: UnpackedIndex) -> WasmContType
        requires known { CanLookUp (knows self.now) index }
        requires names_function { (look_up self.now index).kind ≡ FuncName }
        ensures { cont_index result ≡ index_in (look_up self.now) index }
    {
        match self.lookup_heap_type(index) {
            WasmHeapType::ConcreteFunc(function) => WasmContType::new(function),
            _ => unreachable!(),
        }
    }

    /// The struct type of some fields.
    ///
    /// # Errors
    /// `OutOfMemory` where the list of fields cannot be allocated.
    fn convert_struct_type(
        &self,
        alloc: Heap,
        fields: &[FieldType],
    ) -> Result<WasmStructType, OutOfMemory>
        requires { Known (knows self.now) (fields_shape.edges (λ i. i) (map read.field_of fields.now)) }
        ensures { IfOk result (λ t. struct_of t ≡ map (map_field (look_up self.now)) (map read.field_of fields.now)) }
    {
        let mut converted = Vec::with_capacity(alloc, fields.len())?;
        for field in fields {
            converted.push(self.convert_field_type(field))?;
        }
        Ok(WasmStructType { fields: converted })
    }

    /// The array type of a field.
    fn convert_array_type(&self, ty: &FieldType) -> WasmArrayType
        requires { Known (knows self.now) (field_edges (λ i. i) (read.field_of ty.now)) }
        ensures { array_of result ≡ map_field (look_up self.now) (read.field_of ty.now) }
    {
        WasmArrayType(self.convert_field_type(ty))
    }

    /// Converts a field type.
    fn convert_field_type(&self, ty: &FieldType) -> WasmFieldType
        requires { Known (knows self.now) (field_edges (λ i. i) (read.field_of ty.now)) }
        ensures { field_of result ≡ map_field (look_up self.now) (read.field_of ty.now) }
    {
        WasmFieldType {
            element_type: self.convert_storage_type(&ty.element_type),
            mutable: ty.mutable,
        }
    }

    /// Converts a storage type.
    fn convert_storage_type(&self, ty: &StorageType) -> WasmStorageType
        requires { Known (knows self.now) (storage_edges (λ i. i) (read.storage_of ty.now)) }
        ensures { storage_of result ≡ map_storage (look_up self.now) (read.storage_of ty.now) }
    {
        match ty {
            StorageType::I8 => WasmStorageType::I8,
            StorageType::I16 => WasmStorageType::I16,
            StorageType::Val(ty) => WasmStorageType::Val(self.convert_valtype(*ty)),
        }
    }

    /// Converts a function type.
    ///
    /// # Errors
    /// `OutOfMemory` where the lists of parameters and results cannot be allocated.
    fn convert_func_type(&self, alloc: Heap, ty: &FuncType) -> Result<WasmFuncType, OutOfMemory>
        requires known { Known (knows self.now) (function_edges (λ i. i) (form.function_of ty.now)) }
        requires few { IsFew (form.function_of ty.now) }
        ensures { IfOk result (λ t. function_of t ≡ map_function (look_up self.now) (form.function_of ty.now)) }
    {
        let mut types = Vec::with_capacity(alloc, ty.params.len() + ty.results.len())?;
        for ty in ty.params.as_slice() {
            match number_type(ty) {
                Some(number) => types.push_reserved(number),
                None => types.push_reserved(self.convert_valtype(*ty)),
            }
        }
        for ty in ty.results.as_slice() {
            match number_type(ty) {
                Some(number) => types.push_reserved(number),
                None => types.push_reserved(self.convert_valtype(*ty)),
            }
        }
        Ok(WasmFuncType::from_types(types, ty.params.len() as u32))
    }

    /// Converts a value type.
    fn convert_valtype(&self, ty: ValType) -> WasmValType
        requires { Known (knows self.now) (value_edges (λ i. i) (read.value_of ty)) }
        ensures { value_of result ≡ map_value (look_up self.now) (read.value_of ty) }
    {
        match ty {
            ValType::I32 => WasmValType::I32,
            ValType::I64 => WasmValType::I64,
            ValType::F32 => WasmValType::F32,
            ValType::F64 => WasmValType::F64,
            ValType::V128 => WasmValType::V128,
            ValType::Ref(ty) => WasmValType::Ref(self.convert_ref_type(ty)),
        }
    }

    /// Converts a reference type.
    fn convert_ref_type(&self, ty: RefType) -> WasmRefType
        requires { Known (knows self.now) (reference_edges (λ i. i) (read.reference_of ty)) }
        ensures { reference_of result ≡ map_reference (look_up self.now) (read.reference_of ty) }
    {
        WasmRefType {
            nullable: ty.nullable,
            heap_type: self.convert_heap_type(ty.heap),
        }
    }

    /// Converts a heap type.
    fn convert_heap_type(&self, ty: HeapType) -> WasmHeapType
        requires { Known (knows self.now) (heap_edges (λ i. i) (read.heap_of ty)) }
        ensures { heap_of result ≡ map_heap (look_up self.now) (read.heap_of ty) }
    {
        match ty {
            HeapType::Concrete(index) => self.lookup_heap_type(index),
            HeapType::Abstract(ty) => match ty {
                AbstractHeapType::Extern => WasmHeapType::Extern,
                AbstractHeapType::NoExtern => WasmHeapType::NoExtern,
                AbstractHeapType::Func => WasmHeapType::Func,
                AbstractHeapType::NoFunc => WasmHeapType::NoFunc,
                AbstractHeapType::Any => WasmHeapType::Any,
                AbstractHeapType::Eq => WasmHeapType::Eq,
                AbstractHeapType::I31 => WasmHeapType::I31,
                AbstractHeapType::Array => WasmHeapType::Array,
                AbstractHeapType::Struct => WasmHeapType::Struct,
                AbstractHeapType::None => WasmHeapType::None,
                AbstractHeapType::Cont => WasmHeapType::Cont,
                AbstractHeapType::NoCont => WasmHeapType::NoCont,
                AbstractHeapType::Exn => WasmHeapType::Exn,
                AbstractHeapType::NoExn => WasmHeapType::NoExn,
            },
        }
    }

    /// The heap type of the type that an index names.
    fn lookup_heap_type(&self, index: UnpackedIndex) -> WasmHeapType
        requires { CanLookUp (knows self.now) index }
        ensures { heap_of result ≡ Concrete (look_up self.now index) };

    /// The index, in a translated module, of the type that an index names.
    fn lookup_type_index(&self, index: UnpackedIndex) -> EngineOrModuleTypeIndex
        requires { CanLookUp (knows self.now) index }
        ensures { result ≡ index_in (look_up self.now) index };
}
