//! The first break of rule L7, exports.

ghost use Rattle.std.specs.Prelude.{◌≡◌, IfOk, OnOk, not};
ghost use Rattle.std.specs.List.{flat_map, list_any};
ghost use Rattle.std.specs.Str.{bytes_eq};
ghost use Rattle.wasm_spec.specs.Module.{exports_of_section};
ghost use Rattle.entity_map.specs.Pool.{with_text};
ghost use Rattle.rule_spec.specs.declared.rules.Rule.{Rule};
ghost use Rattle.form_rules.specs.Source.{source_module};
ghost use Rattle.form_rules.specs.Views.{lists_of};
ghost use Rattle.rule_breaks.specs.Breaks.{FindsRepeated, Locates};

use crate::entries::first_export;
use crate::lists::{Break, ModuleList, at};
use crate::numbers::next_number;
use entity_map::{NameDigest, OutOfMemory, StringPool};
use form_reader::Export;
use form_rules::{Lists, ModuleSource, entries_of};
use rule_spec::Rule;
use std::alloc::Global;

/// The first export that names no entry, or else the first whose name an earlier export has.
pub(crate) fn break_of_exports(
    alloc: Global,
    lists: &Lists<'_, '_>,
) -> Result<Option<Break>, OutOfMemory>
    ensures { IfOk result (Locates Rule.L7 (lists_of lists.now)) }
{
    if let Some(entry) = first_export(lists)? {
        return Ok(at(ModuleList::Exports, entry));
    }
    match first_repeated(alloc, lists.source)? {
        Some(entry) => Ok(at(ModuleList::Exports, entry)),
        None => Ok(None),
    }
}

/// The first export whose name an earlier export has.
fn first_repeated(alloc: Global, source: ModuleSource<'_, '_>) -> Result<Option<u32>, OutOfMemory>
    ensures { IfOk result (FindsRepeated (flat_map exports_of_section (source_module source.entry))) }
{
    let mut pool = StringPool::seeded(alloc, seed_of_exports(source));
    let mut number = 0;
    for export in entries_of::<Export<'_>>(source) {
        if !insert_new(&mut pool, export.name)? {
            return Ok(Some(number));
        }
        number = next_number(number)?;
    }
    Ok(None)
}

/// Inserts a text, and returns whether it was new.
fn insert_new(pool: &mut StringPool, text: &str) -> Result<bool, OutOfMemory>
    ensures new { IfOk result (λ new. new ≡ not (list_any (bytes_eq text.now) pool.old)) }
    ensures inserted { OnOk result (pool.new ≡ with_text pool.old text.now) }
{
    let count = pool.len();
    if count == u32::MAX as usize - 1 {
        return Err(OutOfMemory);
    }
    pool.insert(text)?;
    Ok(pool.len() > count)
}

/// A digest of the names of exports, from which hashes begin: choosing names to
/// collide changes it.
fn seed_of_exports(source: ModuleSource<'_, '_>) -> u64 {
    let mut digest = NameDigest::new();
    for export in entries_of::<Export<'_>>(source) {
        digest.write(export.name.as_bytes());
    }
    digest.finish()
}
