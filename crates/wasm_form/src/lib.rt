//! The public paths of the reader and the check, for users who want a module read and checked
//! without a plan.
//!
//! The crate has no code of its own. It exports the calls and types of `form_reader`, `form_rules`
//! and `form_types`, with the contracts of those crates.
//!
//! ```
//! let form = read_module(alloc, bytes)?;
//! check(alloc, &form)?;
//! let types = Types::build(alloc, &Validator::new(0), &form)?;
//! let declared = types.core_type_count_in_module();
//! ```
//!
//! A form borrows the input. A check needs memory for the index spaces and types of the module
//! until it returns.
//!
//! Read on: `form_reader` for what is read, `form_rules` for what is checked; `translate` makes a
//! plan of the same bytes.
#![tactic(auto)]

pub use entity_map::OutOfMemory;
pub use form_reader::{
    CompositeInnerType, ConstExpr, Counts, Custom, DataKind, DataSegment, Element, ElementItems,
    ElementKind, Export, Form, FuncType, FunctionBody, GlobalDef, Import, MAX_MODULE_SIZE, Payload,
    ReadError, RecGroup, SubType, TableDef, read_module, spelling_is_unique,
};
pub use form_rules::{CheckError, check};
pub use form_types::{CoreTypeIds, RecGroupId, Types, Validator, ValidatorId};
pub use rule_spec::Rule;
pub use wasm_spec::{
    AbstractHeapType, CoreTypeId, ExternalKind, FieldType, GlobalType, HeapType, MemoryType,
    Operator, RefType, StorageType, TableType, TypeRef, UnpackedIndex, ValType, What,
};
