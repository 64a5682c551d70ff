//! Constant expressions as tables.

ghost use Rattle.std.specs.Prelude.{◌≡◌, List, [], length, map, IfOk};
ghost use Rattle.wasm_convert.specs.declared.operators.ConstOp.{ConstOp};
ghost use Rattle.plan_tables.specs.Expressions.{offset_operators, value_operators, TellsExpressions};

use crate::operators::push_operators;
use crate::record::ExpressionsRecord;
use crate::rows::Span;
use entity_map::OutOfMemory;
use init_plan::MemorySegmentOffset;
use std::alloc::Global;
use wasm_convert::{ConstExpr, ConstOp};
use wasm_index::{DefinedGlobalIndex, MemoryIndex, RuntimeDataIndex};
use wasm_module::{TableInitialValue, TableSegment};

/// What holds a constant expression, or none.
pub(crate) trait HasExpression {
    ghost operators: { Self → List ConstOp };

    /// Its operators.
    fn ops(&self) -> &[ConstOp]
        ensures { result.now ≡ operators self.now };
}

impl HasExpression for (DefinedGlobalIndex, ConstExpr) {
    ghost operators = { λ global. global.1 };

    fn ops(&self) -> &[ConstOp] {
        self.1.ops()
    }
}

impl HasExpression for (MemoryIndex, MemorySegmentOffset, RuntimeDataIndex) {
    ghost operators = { λ segment. offset_operators segment.1 };

    fn ops(&self) -> &[ConstOp] {
        match &self.1 {
            MemorySegmentOffset::Expr(expression) => expression.ops(),
            MemorySegmentOffset::Static(_) => &[],
        }
    }
}

impl HasExpression for TableSegment {
    ghost operators = { λ segment. segment.offset };

    fn ops(&self) -> &[ConstOp] {
        self.offset.ops()
    }
}

impl HasExpression for TableInitialValue {
    ghost operators = { λ value. value_operators value };

    fn ops(&self) -> &[ConstOp] {
        match self {
            TableInitialValue::Null => &[],
            TableInitialValue::Expr(expression) => expression.ops(),
        }
    }
}

/// The expressions of a list, each a part of the operators.
pub(crate) fn expressions_of<'d, T: HasExpression>(
    alloc: Global,
    holders: &[T],
) -> Result<ExpressionsRecord<'d>, OutOfMemory>
    ensures { IfOk result (TellsExpressions T.operators holders.now) }
{
    let mut parts = Vec::with_capacity(alloc, holders.len())?;
    let mut operators = Vec::new(alloc);
    for holder in holders {
        let expression = holder.ops();
        parts.push(Span {
            begin: operators.len(),
            len: expression.len(),
        })?;
        push_operators(&mut operators, expression)?;
    }
    Ok(ExpressionsRecord {
        parts: parts.leak(),
        operators: operators.leak(),
    })
}
