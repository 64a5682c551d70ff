//! Constant expressions (core specification, 5.4, expressions).

ghost use Rattle.wasm_spec.specs.Module as plain;
ghost use Rattle.form_reader.specs.Views.{expression_of};
ghost use Rattle.form_reader.specs.Reading.{Reads};
ghost use Rattle.form_reader.specs.ExpressionLaws.{expression_at};

use crate::ConstExpr;
use crate::cursor::Cursor;
use crate::error::ReadError;
use crate::operators::END;
use crate::vectors::Entry;
use std::alloc::Global;
use wasm_spec::Operator;

impl<'d> Entry<'d> for ConstExpr {
    type Value = ConstExpr;

    ghost Data = { plain.Expression };

    ghost form = { expression_at };

    ghost view = { expression_of };

    fn read(alloc: Global, cursor: &mut Cursor<'d>) -> Result<ConstExpr, ReadError> {
        cursor.expression(alloc)
    }
}

impl<'d> Cursor<'d> {
    /// The operators up to the end mark.
    pub fn expression(&mut self, alloc: Global) -> Result<ConstExpr, ReadError>
        ensures { Reads expression_at expression_of self.old.rest.now self.new.rest.now result }
    {
        let mut ops = Vec::new(alloc);
        self.expression_into(&mut ops)?;
        Ok(ConstExpr { ops })
    }

    /// The operators up to the end mark, in a list whose contents are no longer needed.
    pub fn expression_into(&mut self, ops: &mut Vec<Operator>) -> Result<(), ReadError>
        ensures { Reads expression_at (λ u. ops.new.items) self.old.rest.now self.new.rest.now result }
    {
        ops.clear();
        // Most expressions are one operator.
        ops.reserve_exact(1)?;
        // Each operator takes a byte at least.
        let most = self.rest.len();
        'operators: for _ in 0..most {
            let first = self.byte()?;
            if first == END {
                return Ok(());
            }
            let op = self.operator(first)?;
            ops.push(op)?;
        }
        Err(ReadError::Malformed)
    }
}
