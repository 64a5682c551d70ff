//! The groups that were read, by their keys.

ghost use Rattle.std.specs.Prelude.{◌≡◌, ◌+◌, ◌<◌, ◌^◌, ◌++◌, ◌∷◌, [], IfOk, OnOk, MatchOption, Some, cond, length, map};
ghost use Rattle.std.specs.Hash.DefaultHasher as sip;
ghost use Rattle.std.specs.List.{range_with_len, fold};
ghost use Rattle.form_reader.specs.TypeBytes.{type_bytes};
ghost use Rattle.form_reader.specs.Views.{sub_type_of};
ghost use Rattle.form_types.specs.Types.{NamedGroup};
ghost use Rattle.form_types.specs.EarlierTypes.{ids_of};
ghost use Rattle.form_types.specs.Placed.{placed};
ghost use Rattle.form_types.specs.Keys.{key_of, read_key, targets};
ghost use Rattle.form_types.specs.Finding.{first_of, next_key};

use crate::canonical::CanonicalGroup;
use crate::earlier_types::EarlierTypes;
use entity_map::Seeded;
use form_reader::{SubType, type_section_bytes};
use std::alloc::{AllocError, Global};
use std::collections::HashMap;
use std::hash::{DefaultHasher, Hasher};
use wasm_spec::{CoreTypeId, UnpackedIndex};

/// The first id of each group that was read, by its key.
pub type FirstIds = HashMap<CanonicalGroup, u32, Seeded>;

/// A digest of the bytes that spell a module's types, from which hashes begin: groups that are
/// chosen to collide change it as well.
pub fn seed_of(wasm: &[u8]) -> u64
    ensures { result ≡ sip.finish (fold sip.write sip.initial (type_bytes wasm.now ∷ [])) }
{
    let mut digest = DefaultHasher::new();
    digest.write(type_section_bytes(wasm));
    digest.finish()
}

/// Writes a group, as it was read, to `key`, whose contents are no longer needed.
pub fn read_key(key: &mut CanonicalGroup, types: &[SubType]) -> Result<(), AllocError>
    ensures { OnOk result (key_of key.new ≡ read_key (map sub_type_of types.now)) }
{
    key.clear();
    key.add_group(types)
}

/// What was read of the next group becomes its key.
pub fn name_key(key: &mut CanonicalGroup, ids: &[CoreTypeId])
    requires { length ids.now < 2 ^ 30 }
    ensures key { (g : NamedGroup) → key_of key.old ≡ read_key g → key_of key.new ≡ next_key (ids_of ids.now) (placed g) }
    ensures count { length key.new.references.items ≡ length key.old.references.items }
{
    let start = ids.len() as u32;
    name_targets(&mut key.references, EarlierTypes { ids, start });
}

/// Each reference becomes what it names.
fn name_targets(references: &mut Vec<UnpackedIndex>, earlier: EarlierTypes<'_>)
    ensures { references.new.items ≡ targets (ids_of earlier.entry.ids.now) earlier.entry.start references.old.items }
{
    for place in 0..references.len() {
        references[place] = earlier.target(references[place]);
    }
}

/// The first id of the group that has this key; if there is none, `next` is recorded for the key.
pub fn find_or_note(
    alloc: Global,
    first_ids: &mut FirstIds,
    key: &CanonicalGroup,
    next: u32,
) -> Result<Option<u32>, AllocError>
    ensures found { IfOk result (λ found. found ≡ first_of first_ids.old key.now) }
    ensures noted { IfOk result (λ found. MatchOption found
        ((q : CanonicalGroup) → first_of first_ids.new q ≡ cond (⟦<CanonicalGroup as PartialEq>⟧.eq key.now q) (Some next) (first_of first_ids.old q))
        (λ _. (q : CanonicalGroup) → first_of first_ids.new q ≡ first_of first_ids.old q)) }
{
    if let Some(first) = first_ids.get(key).copied() {
        return Ok(Some(first));
    }
    first_ids.insert(key.copied(alloc)?, next)?;
    Ok(None)
}

/// Adds `count` consecutive ids.
#[tactic(auto, using(crate::proofs::Rows::row_more))]
pub fn push_row(ids: &mut Vec<CoreTypeId>, first: u32, count: usize) -> Result<(), AllocError>
    requires { first + count < 2 ^ 32 }
    ensures { OnOk result (ids_of ids.new.items ≡ ids_of ids.old.items ++ range_with_len first count) }
{
    for place in 0..count {
        ids.push(CoreTypeId(first + place as u32))?;
    }
    Ok(())
}
