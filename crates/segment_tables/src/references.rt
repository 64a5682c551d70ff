//! The functions to which bodies may refer.

ghost use Rattle.std.specs.Prelude.{◌≡◌, ℕ, ◌++◌, List, map, IfOk, OnOk};
ghost use Rattle.std.specs.List.{flat_map};
ghost use Rattle.wasm_spec.specs.Module as plain;
ghost use Rattle.form_reader.specs.Views.{expression_of, table_of, global_of, export_of, items_of, element_of, segment_of, payload_of};
ghost use Rattle.segment_tables.specs.References.{referred_by, referred, table_references, global_references, export_references, item_references, element_references, data_references, section_references, module_references, ListsOnce};

use entity_map::OutOfMemory;
use form_reader::{
    ConstExpr, DataKind, DataSegment, Element, ElementItems, ElementKind, Export, GlobalDef,
    Payload, TableDef,
};
use std::alloc::Global;
use wasm_spec::{ExternalKind, Operator};

/// A part of a module that names functions.
trait Refers {
    ghost Data: { Type 0 };

    ghost as_data: { Self → Data };

    /// The functions that it names, in order.
    ghost names: { Data → List ℕ };

    /// Appends these functions.
    fn push_references(&self, functions: &mut Vec<u32>) -> Result<(), OutOfMemory>
        ensures { OnOk result (functions.new.items ≡ functions.old.items ++ names (as_data self.now)) };
}

/// Appends the functions that the parts name.
fn push_all<T: Refers>(functions: &mut Vec<u32>, parts: &[T]) -> Result<(), OutOfMemory>
    ensures { OnOk result (functions.new.items ≡ functions.old.items ++ flat_map T.names (map T.as_data parts.now)) }
{
    for part in parts {
        part.push_references(functions)?;
    }
    Ok(())
}

impl Refers for ConstExpr {
    ghost Data = { plain.Expression };

    ghost as_data = { expression_of };

    ghost names = { referred };

    fn push_references(&self, functions: &mut Vec<u32>) -> Result<(), OutOfMemory> {
        push_operators(functions, &self.ops)
    }
}

/// Appends the functions that operators name.
fn push_operators(functions: &mut Vec<u32>, operators: &[Operator]) -> Result<(), OutOfMemory>
    ensures { OnOk result (functions.new.items ≡ functions.old.items ++ referred operators.now) }
{
    for operator in operators {
        push_operator(functions, operator)?;
    }
    Ok(())
}

fn push_operator(functions: &mut Vec<u32>, operator: &Operator) -> Result<(), OutOfMemory>
    ensures { OnOk result (functions.new.items ≡ functions.old.items ++ referred_by operator.now) }
{
    if let Operator::RefFunc { function_index } = operator {
        functions.push(*function_index)?;
    }
    Ok(())
}

impl Refers for TableDef {
    ghost Data = { plain.TableDef };

    ghost as_data = { table_of };

    ghost names = { table_references };

    fn push_references(&self, functions: &mut Vec<u32>) -> Result<(), OutOfMemory> {
        match &self.init {
            None => Ok(()),
            Some(expression) => expression.push_references(functions),
        }
    }
}

impl Refers for GlobalDef {
    ghost Data = { plain.GlobalDef };

    ghost as_data = { global_of };

    ghost names = { global_references };

    fn push_references(&self, functions: &mut Vec<u32>) -> Result<(), OutOfMemory> {
        self.init.push_references(functions)
    }
}

impl<'d> Refers for Export<'d> {
    ghost Data = { plain.Export };

    ghost as_data = { export_of };

    ghost names = { export_references };

    fn push_references(&self, functions: &mut Vec<u32>) -> Result<(), OutOfMemory> {
        match self.kind {
            ExternalKind::Func => functions.push(self.index)?,
            _ => {}
        }
        Ok(())
    }
}

impl Refers for ElementItems {
    ghost Data = { plain.ElementItems };

    ghost as_data = { items_of };

    ghost names = { item_references };

    fn push_references(&self, functions: &mut Vec<u32>) -> Result<(), OutOfMemory> {
        match self {
            ElementItems::Functions(indices) => functions.extend_from_slice(indices)?,
            ElementItems::Expressions(_, expressions) => push_all(functions, expressions)?,
        }
        Ok(())
    }
}

impl Refers for Element {
    ghost Data = { plain.Element };

    ghost as_data = { element_of };

    ghost names = { element_references };

    fn push_references(&self, functions: &mut Vec<u32>) -> Result<(), OutOfMemory> {
        if let ElementKind::Active { offset, .. } = &self.kind {
            offset.push_references(functions)?;
        }
        self.items.push_references(functions)
    }
}

impl<'d> Refers for DataSegment<'d> {
    ghost Data = { plain.Segment };

    ghost as_data = { segment_of };

    ghost names = { data_references };

    fn push_references(&self, functions: &mut Vec<u32>) -> Result<(), OutOfMemory> {
        match &self.kind {
            DataKind::Active { offset, .. } => offset.push_references(functions),
            DataKind::Passive => Ok(()),
        }
    }
}

impl<'d> Refers for Payload<'d> {
    ghost Data = { plain.Payload };

    ghost as_data = { payload_of };

    ghost names = { section_references };

    fn push_references(&self, functions: &mut Vec<u32>) -> Result<(), OutOfMemory> {
        match self {
            Payload::Tables(tables) => push_all(functions, tables),
            Payload::Globals(globals) => push_all(functions, globals),
            Payload::Exports(exports) => push_all(functions, exports),
            Payload::Elements(elements) => push_all(functions, elements),
            Payload::Segments(segments) => push_all(functions, segments),
            _ => Ok(()),
        }
    }
}

/// The functions to which the sections refer, each once and ascending.
pub(crate) fn references_of(
    alloc: Global,
    payloads: &[Payload<'_>],
) -> Result<Vec<u32>, OutOfMemory>
    ensures { IfOk result (λ functions. ListsOnce (module_references (map payload_of payloads.now)) functions.items) }
{
    let mut functions = Vec::new(alloc);
    push_all(&mut functions, payloads)?;
    functions.sort_unstable();
    functions.dedup();
    Ok(functions)
}
