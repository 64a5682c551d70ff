//! Constant expressions end to end, as rows.

ghost use Rattle.std.specs.Prelude.{◌≡◌, ◌++◌, List, [], ◌∷◌, length, map, OnOk};
ghost use Rattle.wasm_spec.specs.Module.{Expression};
ghost use Rattle.form_reader.specs.Views.{expression_of};
ghost use Rattle.segment_tables.specs.Expressions.{HasExpressions, TellsReadExpressions};

use crate::operators::push_operators;
use entity_map::OutOfMemory;
use form_reader::ConstExpr;
use plan_tables::{ExpressionsRecord, OperatorRow, Span};
use std::alloc::Global;

/// The rows of constant expressions, while there are more to come.
#[derive(Drop)]
pub(crate) struct ExpressionRows {
    pub parts: Vec<Span>,
    pub operators: Vec<OperatorRow>,
}

/// Those of no expression.
pub(crate) fn no_expressions(alloc: Global) -> ExpressionRows
    ensures { HasExpressions [] result }
{
    ExpressionRows {
        parts: Vec::new(alloc),
        operators: Vec::new(alloc),
    }
}

/// Appends an expression.
pub(crate) fn push_expression(
    rows: &mut ExpressionRows,
    expression: &ConstExpr,
) -> Result<(), OutOfMemory>
    ensures { OnOk result ((es : List Expression) → HasExpressions es rows.old → HasExpressions (es ++ expression_of expression.now ∷ []) rows.new) }
{
    rows.parts.push(Span {
        begin: rows.operators.len(),
        len: expression.ops.len(),
    })?;
    push_operators(&mut rows.operators, &expression.ops)?;
    Ok(())
}

/// Appends expressions.
pub(crate) fn push_expressions(
    rows: &mut ExpressionRows,
    expressions: &[ConstExpr],
) -> Result<(), OutOfMemory>
    ensures { OnOk result ((es : List Expression) → HasExpressions es rows.old → HasExpressions (es ++ map expression_of expressions.now) rows.new) }
{
    for expression in expressions {
        push_expression(rows, expression)?;
    }
    Ok(())
}

/// The record of the expressions.
pub(crate) fn expressions_record<'d>(rows: ExpressionRows) -> ExpressionsRecord<'d>
    ensures { (es : List Expression) → HasExpressions es rows → TellsReadExpressions es result }
{
    ExpressionsRecord {
        parts: rows.parts.leak(),
        operators: rows.operators.leak(),
    }
}
