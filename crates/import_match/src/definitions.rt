//! Definitions in order, found by their names.

ghost use Rattle.std.specs.Prelude.{◌≡◌, ℕ, ◌≤◌, ◌+◌, ◌⊎◌, [], ◌∷◌, ◌++◌, length, map, filter, All, None, IfOk, IfErr, OnOk, OnErr};
ghost use Rattle.import_match.specs.declared.error.LinkError.TheVariants as refused;
ghost use Rattle.import_match.specs.Definitions.{Definition, names_of, found, IsDefined, AreOnce};
ghost use Rattle.import_match.specs.Kept.{definition_of, in_order, is_below, DefinitionsAreKept};

use crate::error::LinkError;
use crate::names::DefinitionNames;
use std::alloc::{AllocError, Global};
use std::collections::BTreeMap;
use std::marker::Model;
use wasm_types::EntityType;

/// The number and the type of each definition, by its names.
type Numbered = BTreeMap<DefinitionNames, (usize, EntityType)>;

/// Definitions in order, no two under the same names. They are found in a map that is ordered by
/// the names. So a look-up makes only a few comparisons of names for each doubling of the count,
/// whoever chooses the names.
#[derive(Drop)]
pub(crate) struct Definitions {
    numbered: Numbered,
}

impl Model for Definitions {
    ghost use Rattle.std.specs.Prelude.{List};
    ghost use Rattle.import_match.specs.Definitions.{Definition};
    ghost use Rattle.import_match.specs.Kept.{in_order, DefinitionsAreKept};

    ghost Value = { List Definition };

    ghost view = { λ d. in_order d.numbered.entries };

    ghost invariant = { λ d. DefinitionsAreKept d.numbered.entries };
}

impl Definitions {
    /// No definitions.
    pub(crate) fn new(alloc: Global) -> Definitions
        ensures { result ≡ [] }
    {
        Definitions {
            numbered: BTreeMap::new(alloc),
        }
    }

    pub(crate) fn len(&self) -> usize
        ensures count { result ≡ length self.now }
        ensures once { AreOnce self.now }
    {
        self.numbered.len()
    }

    /// The definition under two names: its number and its type.
    pub(crate) fn find(&self, names: &DefinitionNames) -> Option<(usize, EntityType)>
        ensures { result ≡ found self.now (names_of names.now) }
    {
        let (number, ty) = self.numbered.get(names)?;
        Some((*number, *ty))
    }

    /// Appends a definition under names that are new, and gives its number.
    pub(crate) fn append(
        &mut self,
        names: DefinitionNames,
        ty: EntityType,
    ) -> Result<usize, AllocError>
        requires { found self.old (names_of names) ≡ None }
        ensures number { IfOk result (λ number. number ≡ length self.old) }
        ensures ok { OnOk result (self.new ≡ self.old ++ (names_of names, ty) ∷ []) }
        ensures err { OnErr result (self.new ≡ self.old) }
        ensures once { AreOnce self.new }
    {
        insert(&mut self.numbered, names, ty)
    }

    /// Appends definitions under names that are new, or none where memory runs out.
    pub(crate) fn append_all(
        &mut self,
        planned: Vec<(DefinitionNames, EntityType)>,
    ) -> Result<(), AllocError>
        requires new { All (λ (d : Definition). found self.old d.0 ≡ None) (map definition_of planned.items) }
        requires once { AreOnce (map definition_of planned.items) }
        ensures ok { OnOk result (self.new ≡ self.old ++ map definition_of planned.items) }
        ensures err { OnErr result (self.new ≡ self.old) }
        ensures once { AreOnce self.new }
    {
        let before = self.numbered.len();
        let inserted = insert_all(&mut self.numbered, planned);
        if inserted.is_err() {
            self.numbered.retain(|_, numbered| numbered.0 < before);
        }
        inserted
    }
}

/// Inserts a definition under names that are new; its number is the count of those before.
fn insert(
    numbered: &mut Numbered,
    names: DefinitionNames,
    ty: EntityType,
) -> Result<usize, AllocError>
    requires kept { DefinitionsAreKept numbered.old.entries }
    requires new { found (in_order numbered.old.entries) (names_of names) ≡ None }
    ensures number { IfOk result (λ number. number ≡ length numbered.old.entries) }
    ensures kept { OnOk result (DefinitionsAreKept numbered.new.entries) }
    ensures ok { OnOk result (in_order numbered.new.entries ≡ in_order numbered.old.entries ++ (names_of names, ty) ∷ []) }
    ensures err { OnErr result (numbered.new.entries ≡ numbered.old.entries) }
    ensures count { OnOk result (length numbered.new.entries ≡ length numbered.old.entries + 1) }
    ensures others { OnOk result ((n : ℕ) → n ≤ length numbered.old.entries
        → filter (is_below n) numbered.new.entries ≡ filter (is_below n) numbered.old.entries) }
{
    let number = numbered.len();
    numbered.insert(names, (number, ty))?;
    Ok(number)
}

/// Inserts definitions under names that are new, in order. Where memory runs out, the earlier ones
/// are the entries whose numbers are below their count.
fn insert_all(
    numbered: &mut Numbered,
    planned: Vec<(DefinitionNames, EntityType)>,
) -> Result<(), AllocError>
    requires kept { DefinitionsAreKept numbered.old.entries }
    requires new { All (λ (d : Definition). found (in_order numbered.old.entries) d.0 ≡ None) (map definition_of planned.items) }
    requires once { AreOnce (map definition_of planned.items) }
    ensures kept { OnOk result (DefinitionsAreKept numbered.new.entries) }
    ensures ok { OnOk result (in_order numbered.new.entries ≡ in_order numbered.old.entries ++ map definition_of planned.items) }
    ensures err { OnErr result (filter (is_below (length numbered.old.entries)) numbered.new.entries ≡ numbered.old.entries) }
{
    for (names, ty) in planned {
        insert(numbered, names, ty)?;
    }
    Ok(())
}

/// A copy of two names, under which nothing is defined yet.
pub(crate) fn new_names(
    alloc: Global,
    definitions: &Definitions,
    from: &str,
    own: &str,
) -> Result<DefinitionNames, LinkError>
    ensures names { IfOk result (λ n. names_of n ≡ (from.now, own.now)) }
    ensures new { OnOk result (found definitions.now (from.now, own.now) ≡ None) }
    ensures err { IfErr result (λ e. (e ≡ refused.OutOfMemory)
        ⊎ ((e ≡ refused.Duplicate) × IsDefined definitions.now (from.now, own.now))) }
{
    let names = DefinitionNames::of(alloc, from, own)?;
    if definitions.find(&names).is_some() {
        return Err(LinkError::Duplicate);
    }
    Ok(names)
}
