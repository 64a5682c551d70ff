//! The initial content of a module's tables.

ghost use Rattle.std.specs.Prelude.{◌≡◌};
ghost use Rattle.wasm_module.specs.Elements.{element_type, element_count};

use entity_map::PrimaryMap;
use wasm_convert::ConstExpr;
use wasm_index::{DefinedTableIndex, FuncIndex, TableIndex};
use wasm_types::WasmRefType;

/// The initial content of a module's tables, except what is in their images.
#[derive(Drop)]
pub struct TableInitialization {
    /// The first content of the cells of each defined table.
    pub initial_values: PrimaryMap<DefinedTableIndex, TableInitialValue>,
    /// The active element segments that are then written, in order.
    pub segments: Vec<TableSegment>,
}

/// The first content of each cell of a table.
#[derive(Drop)]
pub enum TableInitialValue {
    /// The null reference, except in the cells of the table's image.
    Null,
    /// The value of an expression.
    Expr(ConstExpr),
}

/// An active element segment (core specification, 2.5, element segments).
#[derive(Drop)]
pub struct TableSegment {
    pub table_index: TableIndex,
    /// The offset in the table where it begins.
    pub offset: ConstExpr,
    pub elements: TableSegmentElements,
}

/// The elements of a segment.
#[derive(Drop)]
pub enum TableSegmentElements {
    /// References to functions, by their indices.
    Functions(Vec<FuncIndex>),
    /// The values of expressions.
    Expressions {
        /// The type of each element.
        ty: WasmRefType,
        exprs: Vec<ConstExpr>,
    },
}

impl TableSegmentElements {
    /// The type of each element. Functions are of type `funcref`.
    pub fn ty(&self) -> WasmRefType
        ensures { result ≡ element_type self.now }
    {
        match self {
            TableSegmentElements::Functions(_) => WasmRefType::FUNCREF,
            TableSegmentElements::Expressions { ty, .. } => *ty,
        }
    }

    /// The number of elements.
    pub fn len(&self) -> u64
        ensures { result ≡ element_count self.now }
    {
        match self {
            TableSegmentElements::Functions(functions) => functions.len() as u64,
            TableSegmentElements::Expressions { exprs, .. } => exprs.len() as u64,
        }
    }
}
