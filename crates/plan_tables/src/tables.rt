//! How tables begin, as tables.

ghost use Rattle.std.specs.Prelude.{◌≡◌, ◌++◌, length, map, IfOk, OnOk};
ghost use Rattle.std.specs.List.{flat_map};
ghost use Rattle.wasm_index.specs.Index.{number_of};
ghost use Rattle.plan_tables.specs.Spans.{spans_from};
ghost use Rattle.plan_tables.specs.Tables.{TellsTables};

use crate::record::TablesRecord;
use crate::rows::Span;
use crate::segments::elements_of;
use entity_map::{EntityRef, OutOfMemory};
use init_plan::ModuleTranslation;
use std::alloc::Global;
use wasm_index::FuncIndex;

/// The tables of how tables begin.
pub(crate) fn tables_record<'d>(
    alloc: Global,
    translation: &ModuleTranslation<'_>,
) -> Result<TablesRecord<'d>, OutOfMemory>
    ensures { IfOk result (TellsTables translation.now) }
{
    let (images, cells) = images_of(alloc, translation.module.table_initialization.as_slice())?;
    let elements = elements_of(alloc, &translation.table_initialization.segments)?;
    Ok(TablesRecord {
        images: images.leak(),
        cells: cells.leak(),
        elements: elements.leak(),
    })
}

fn push_cells(cells: &mut Vec<u32>, image: &[FuncIndex]) -> Result<(), OutOfMemory>
    ensures { OnOk result (cells.new.items ≡ cells.old.items ++ map number_of image.now) }
{
    for function in image {
        cells.push(function.as_u32())?;
    }
    Ok(())
}

fn images_of(
    alloc: Global,
    planned: &[Vec<FuncIndex>],
) -> Result<(Vec<Span>, Vec<u32>), OutOfMemory>
    ensures parts { IfOk result (λ r. r.0.items ≡ spans_from 0 (map (λ image. length image.items) planned.now)) }
    ensures cells { IfOk result (λ r. r.1.items ≡ flat_map (λ image. map number_of image.items) planned.now) }
{
    let mut parts = Vec::with_capacity(alloc, planned.len())?;
    let mut cells = Vec::new(alloc);
    for image in planned {
        parts.push(Span {
            begin: cells.len(),
            len: image.len(),
        })?;
        push_cells(&mut cells, image)?;
    }
    Ok((parts, cells))
}
