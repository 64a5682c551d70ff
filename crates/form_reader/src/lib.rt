//! The reader of modules in the binary format, for `wasm_form` and `module_environ`.
//!
//! `read_module` returns a module only where the bytes spell exactly that module. Each `ReadError`
//! has its cause, and what the grammar spells is accepted, except custom sections of interface
//! types.
//!
//! ```
//! let refused = read_module(alloc, b"\0asm").err(); // Some(ReadError::Malformed)
//! let form = read_module(alloc, bytes)?; // or Unsupported, TooLarge, OutOfMemory
//! for payload in &form.payloads {
//!     if let Payload::Memories(types) = payload { .. }
//! }
//! let functions = form.counts().functions; // imports included
//! ```
//!
//! A `Form` borrows the input: names, bodies and data are slices of its bytes. Input of 2^30 bytes
//! or more is `TooLarge`. `read_input` leaves large sections in the input, and their entries are
//! read again where they are iterated. Function bodies stay unread: `FunctionBody` has the locals,
//! and the code as bytes.
//!
//! Read on: `form` and `types`, then `module`, `sections` and `vectors`; `bytes` has the parts that
//! need no memory, `wasm_spec` the grammar, and `wasm_form` the public paths.
#![tactic(auto)]

mod bytes;
mod code;
mod contents;
mod counts;
mod cursor;
mod customs;
mod elements;
mod entity_types;
mod error;
mod exports;
mod expressions;
mod fields;
mod form;
mod frequent_globals;
mod globals;
mod group_sink;
mod imports;
mod input;
mod input_vectors;
mod laws;
mod limits;
mod module;
mod numbers;
mod offsets;
mod operators;
mod passed_expressions;
mod sections;
mod segments;
mod tables;
mod type_bytes;
mod type_groups;
mod type_indices;
mod types;
mod value_lists;
mod value_types;
mod vectors;

pub use bytes::{counted_bytes, first_byte, name, u32_at};
pub use contents::{next_order, order_of};
pub use cursor::Cursor;
pub use customs::InputCustoms;
pub use error::ReadError;
pub use form::{
    ConstExpr, Counts, Custom, DataKind, DataSegment, Element, ElementItems, ElementKind, Export,
    Form, FunctionBody, GlobalDef, Import, Payload, TableDef,
};
pub use globals::DefinedGlobal;
pub use group_sink::{GroupSink, NoSink};
pub use input::{InputEntries, InputForm, InputPart, InputSection};
pub use input_vectors::{InputEntry, InputVector};
pub use laws::spelling_is_unique;
pub use module::{HEADER, MAX_MODULE_SIZE, read_input, read_module};
pub use type_bytes::type_section_bytes;
pub use type_indices::{DefinedFunction, DefinedTag};
pub use types::{CompositeInnerType, FuncType, RecGroup, SubType};
pub use vectors::Entry;
