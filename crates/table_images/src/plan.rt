//! The plan of all tables.

ghost use Rattle.std.specs.Prelude.{◌≡◌, ◌≤◌, ◌<◌, ◌-◌, ◌∷◌, List, [], length, map, take, drop, true, IfOk, OnOk};
ghost use Rattle.replay_spec.specs.Elements.{ActiveElements};
ghost use Rattle.replay_spec.specs.Tables.{IsTablePlan, MayBeTaken};
ghost use Rattle.table_images.specs.Steps.{AreTableImages, SegmentsHoldFunctions, TablesHoldFunctions, first_image, images_of};
ghost use Rattle.table_images.specs.Left.{IsLeft};
ghost use Rattle.table_images.specs.Views.{active_elements_of, defined_tables_of, table_plan_of};

use crate::first::{drop_imaged, first_images};
use crate::lay::lay_at;
use crate::spot::spot_of;
use entity_map::{OutOfMemory, PrimaryMap};
use std::alloc::Global;
use wasm_index::{DefinedTableIndex, FuncIndex};
use wasm_module::{TableInitialValue, TableInitialization, TableSegment};
use wasm_types::Table;

// Writes the segments into the images up to the first that may not be in an image, and returns
// how many are written.
fn take_segments(
    images: &mut [Vec<FuncIndex>],
    imported: usize,
    tables: &[Table],
    values: &[TableInitialValue],
    segments: &[TableSegment],
) -> Result<usize, OutOfMemory>
    requires paired { length tables.now ≡ length values.now }
    requires each { length images.old ≡ length values.now }
    requires functions { SegmentsHoldFunctions (map active_elements_of segments.now) }
    ensures within { IfOk result (λ n. n ≤ length segments.now) }
    ensures images { IfOk result (λ n. AreTableImages true imported (defined_tables_of tables.now values.now) [] (images_of images.old)
        → AreTableImages true imported (defined_tables_of tables.now values.now) (map active_elements_of (take n segments.now)) (images_of images.new)) }
    ensures stops { IfOk result (λ n. (s : ActiveElements) (rest : List ActiveElements) → map active_elements_of (drop n segments.now) ≡ s ∷ rest
        → MayBeTaken true imported (defined_tables_of tables.now values.now) s → ⊥) }
{
    'segments: for i in 0..segments.len() {
        let segment = &segments[i];
        match spot_of(imported, tables, values, segment) {
            None => return Ok(i),
            Some(spot) => lay_at(images, spot, &segment.elements)?,
        }
    }
    Ok(segments.len())
}

// Plans tables that have their first images.
fn plan_images(
    images: &mut [Vec<FuncIndex>],
    imported: usize,
    tables: &[Table],
    initialization: &mut TableInitialization,
) -> Result<(), OutOfMemory>
    requires paired { length tables.now ≡ length initialization.old.initial_values }
    requires functions { SegmentsHoldFunctions (map active_elements_of initialization.old.segments.items) }
    requires first { images_of images.old ≡ map (first_image true) (defined_tables_of tables.now initialization.old.initial_values) }
    ensures count { OnOk result (length initialization.new.initial_values ≡ length initialization.old.initial_values) }
    ensures left { OnOk result (IsLeft initialization.old initialization.new) }
    ensures planned { OnOk result (IsTablePlan true imported (defined_tables_of tables.now initialization.old.initial_values)
        (map active_elements_of initialization.old.segments.items)
        (table_plan_of tables.now initialization.new.initial_values initialization.new.segments.items (images_of images.new))) }
{
    let taken = take_segments(
        images,
        imported,
        tables,
        initialization.initial_values.as_slice(),
        initialization.segments.as_slice(),
    )?;
    drop_imaged(tables, initialization.initial_values.as_mut_slice());
    initialization.segments = initialization.segments.split_off(taken)?;
    Ok(())
}

/// Plans the tables of a module, of which the first `imported` are imported. Gives the image of
/// each defined table: of the function that it holds from the start, and of the longest prefix of
/// the element segments that may be in images. The initialisers of tables that are imaged from the
/// start, and the segments in images, are dropped; the others remain, in order.
///
/// # Errors
/// `OutOfMemory`; the initialisation may then only be dropped.
pub fn plan_tables(
    alloc: Global,
    lazy: bool,
    imported: usize,
    tables: &[Table],
    initialization: &mut TableInitialization,
) -> Result<PrimaryMap<DefinedTableIndex, Vec<FuncIndex>>, OutOfMemory>
    requires imported { imported ≤ length tables.now }
    requires each { length (drop imported tables.now) ≡ length initialization.old.initial_values }
    requires few { length initialization.old.initial_values < u32.MAX - 1 }
    requires initial_functions { TablesHoldFunctions (defined_tables_of (drop imported tables.now) initialization.old.initial_values) }
    requires functions { SegmentsHoldFunctions (map active_elements_of initialization.old.segments.items) }
    ensures images { IfOk result (λ images. length images ≡ length initialization.old.initial_values) }
    ensures values { OnOk result (length initialization.new.initial_values ≡ length initialization.old.initial_values) }
    ensures left { OnOk result (IsLeft initialization.old initialization.new) }
    ensures planned { IfOk result (λ images. IsTablePlan lazy imported (defined_tables_of (drop imported tables.now) initialization.old.initial_values)
        (map active_elements_of initialization.old.segments.items)
        (table_plan_of (drop imported tables.now) initialization.new.initial_values initialization.new.segments.items (images_of images))) }
{
    let defined = &tables[imported..];
    let mut images = first_images(
        alloc,
        lazy,
        defined,
        initialization.initial_values.as_slice(),
    )?;
    if !lazy {
        return Ok(images);
    }
    plan_images(images.as_mut_slice(), imported, defined, initialization)?;
    Ok(images)
}
