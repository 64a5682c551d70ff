//! Names of imports and exports, each kept once (core specification, 3.5, modules).

ghost use Rattle.std.specs.Prelude.{[], ◌≡◌, ◌↔◌, ◌++◌, IsTrue, IsSome, IfSome, IfOk, OnOk, not};
ghost use Rattle.std.specs.Hash.DefaultHasher as sip;
ghost use Rattle.std.specs.List.{flat_map, fold, list_any};
ghost use Rattle.std.specs.Str.{bytes_eq};
ghost use Rattle.wasm_spec.specs.Module as plain;
ghost use Rattle.wasm_spec.specs.Module.{exports_of_section};
ghost use Rattle.entity_map.specs.Pool.{with_text};
ghost use Rattle.rule_spec.specs.Rules.{AreDistinct};
ghost use Rattle.form_rules.specs.Source.{source_module};
ghost use Rattle.form_rules.specs.Names.{imported_names, exported_names};

use crate::{ModuleSource, count_entries, entries_of};
use entity_map::{NameDigest, OutOfMemory, StringPool};
use form_reader::{Export, Import};
use std::alloc::Global;

/// The number of module names for which a pool has capacity: most modules import from few.
const FEW_MODULES: usize = 64;

/// The pool of the names of exports, in order, unless two have one name. It has capacity for those
/// of imports.
pub(crate) fn pool_of_exports(
    alloc: Global,
    source: ModuleSource<'_, '_>,
) -> Result<Option<StringPool>, OutOfMemory>
    ensures pooled { IfOk result (λ pool. IfSome pool (λ texts.
        texts ≡ exported_names (flat_map exports_of_section (source_module source.entry)))) }
    ensures distinct { IfOk result (λ pool. IsSome pool ↔ AreDistinct (flat_map exports_of_section (source_module source.entry))) }
{
    let mut pool = empty_pool(alloc, source)?;
    for export in entries_of::<Export<'_>>(source) {
        if !insert_new(&mut pool, export.name)? {
            return Ok(None);
        }
    }
    Ok(Some(pool))
}

/// Inserts a text, and returns whether it was new.
fn insert_new(pool: &mut StringPool, text: &str) -> Result<bool, OutOfMemory>
    ensures new { IfOk result (λ new. new ≡ not (list_any (bytes_eq text.now) pool.old)) }
    ensures inserted { OnOk result (pool.new ≡ with_text pool.old text.now) }
{
    let count = pool.len();
    if count == u32::MAX as usize - 1 {
        return Err(OutOfMemory);
    }
    pool.insert(text)?;
    Ok(pool.len() > count)
}

/// An empty pool, with capacity for the name of each import and of each export.
fn empty_pool(alloc: Global, source: ModuleSource<'_, '_>) -> Result<StringPool, OutOfMemory>
    ensures { IfOk result (λ pool. pool ≡ []) }
{
    let mut pool = StringPool::seeded(alloc, seed_of_names(source));
    let imports = count_entries::<Import<'_>>(source);
    let names = imports.saturating_add(count_entries::<Export<'_>>(source));
    pool.reserve(names.saturating_add(FEW_MODULES))?;
    Ok(pool)
}

/// A digest of all names, from which hashes begin: names that are chosen to collide change it as well.
fn seed_of_names(source: ModuleSource<'_, '_>) -> u64
    ensures { result ≡ sip.finish (fold sip.write sip.initial
        (imported_names (source_module source.entry) ++ exported_names (flat_map exports_of_section (source_module source.entry)))) }
{
    let mut digest = NameDigest::new();
    add_import_names(&mut digest, source);
    add_export_names(&mut digest, source);
    digest.finish()
}

/// Adds the names of imports to a digest.
fn add_import_names(digest: &mut NameDigest, source: ModuleSource<'_, '_>)
    ensures { digest.new ≡ fold sip.write digest.old (imported_names (source_module source.entry)) }
{
    for import in entries_of::<Import<'_>>(source) {
        digest.write(import.module.as_bytes());
        digest.write(import.name.as_bytes());
    }
}

/// Adds the names of exports to a digest.
fn add_export_names(digest: &mut NameDigest, source: ModuleSource<'_, '_>)
    ensures { digest.new ≡ fold sip.write digest.old (exported_names (flat_map exports_of_section (source_module source.entry))) }
{
    for export in entries_of::<Export<'_>>(source) {
        digest.write(export.name.as_bytes());
    }
}
