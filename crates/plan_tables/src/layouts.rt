//! Layouts of objects as tables.

ghost use Rattle.std.specs.Prelude.{◌≡◌, ◌++◌, length, map, IfOk, OnOk};
ghost use Rattle.plan_tables.specs.Layouts.{field_row, array_row, struct_row, fields_of, layout_row, TellsLayouts};

use crate::numbers::bit;
use crate::record::LayoutsRecord;
use crate::rows::{LayoutFieldRow, LayoutRow, Span};
use entity_map::{EntityRef, OutOfMemory, PrimaryMap};
use gc_layout::{GcArrayLayout, GcLayout, GcStructLayout, GcStructLayoutField};
use std::alloc::Global;
use wasm_index::ModuleInternedTypeIndex;

fn push_fields(
    fields: &mut Vec<LayoutFieldRow>,
    layout: &[GcStructLayoutField],
) -> Result<Span, OutOfMemory>
    ensures part { IfOk result (λ part. part ≡ record { begin = length fields.old.items; len = length layout.now }) }
    ensures fields { OnOk result (fields.new.items ≡ fields.old.items ++ map field_row layout.now) }
{
    let part = Span {
        begin: fields.len(),
        len: layout.len(),
    };
    for field in layout {
        fields.push(LayoutFieldRow {
            offset: field.offset,
            is_ref: u32::from(bit(field.is_gc_ref)),
        })?;
    }
    Ok(part)
}

fn array_row(ty: ModuleInternedTypeIndex, begin: usize, array: &GcArrayLayout) -> LayoutRow
    ensures { result ≡ array_row ty begin array.now }
{
    LayoutRow {
        ty: ty.as_u32(),
        kind: 0,
        size: array.base_size,
        align: array.align,
        element: array.elem_size,
        refs: u32::from(bit(array.elems_are_gc_refs)),
        fields: Span { begin, len: 0 },
    }
}

fn struct_row(ty: ModuleInternedTypeIndex, fields: Span, layout: &GcStructLayout) -> LayoutRow
    ensures { result ≡ struct_row ty fields layout.now }
{
    LayoutRow {
        ty: ty.as_u32(),
        kind: if layout.is_exception { 2 } else { 1 },
        size: layout.size,
        align: layout.align,
        element: 0,
        refs: 0,
        fields,
    }
}

// The layout of a type's objects; its fields go behind the others.
fn layout_row(
    fields: &mut Vec<LayoutFieldRow>,
    ty: ModuleInternedTypeIndex,
    layout: &GcLayout,
) -> Result<LayoutRow, OutOfMemory>
    ensures row { IfOk result (λ row. row ≡ layout_row (length fields.old.items) ty layout.now) }
    ensures fields { OnOk result (fields.new.items ≡ fields.old.items ++ fields_of layout.now) }
{
    match layout {
        GcLayout::Array(array) => Ok(array_row(ty, fields.len(), array)),
        GcLayout::Struct(layout) => {
            let part = push_fields(fields, &layout.fields)?;
            Ok(struct_row(ty, part, layout))
        }
    }
}

/// The layouts of the objects of interned types that have some.
pub(crate) fn layouts_record<'d>(
    alloc: Global,
    layouts: &PrimaryMap<ModuleInternedTypeIndex, Option<GcLayout>>,
) -> Result<LayoutsRecord<'d>, OutOfMemory>
    ensures { IfOk result (TellsLayouts layouts.now) }
{
    let mut rows = Vec::new(alloc);
    let mut fields = Vec::new(alloc);
    for (ty, layout) in layouts.iter() {
        if let Some(layout) = layout {
            rows.push(layout_row(&mut fields, ty, layout)?)?;
        }
    }
    Ok(LayoutsRecord {
        rows: rows.leak(),
        fields: fields.leak(),
    })
}
