//! The linker.

ghost use Rattle.std.specs.Prelude.{◌≡◌, ◌↔◌, ◌⊎◌, ◌++◌, ◌∷◌, [], ◌<◌, ℕ, length, All, Any, None, IsOk, IfOk, OnOk, OnErr, IfErr, IsErrOf};
ghost use Rattle.import_match.specs.declared.error.LinkError.TheVariants as refused;
ghost use Rattle.import_match.specs.declared.error.Mismatch.{Mismatch};
ghost use Rattle.wasm_module.specs.Record.{record_of};
ghost use Rattle.import_match.specs.Rules.{HasEngineTypes};
ghost use Rattle.import_match.specs.Definitions.{Definition, IsDefined, AreOnce};
ghost use Rattle.import_match.specs.Linking.{exported, wanted, CanExport, CanImport, IsHeld, IsNotHeld};
ghost use Rattle.import_match.specs.Resolving.{resolved, IsAnswer, IsAnswerAt, AreGiven, AreMatched, IsMissing, IsMismatched};
ghost use Rattle.import_match.specs.Refusals.{ComesExactly, IsOutOfMemory};

use crate::definitions::{Definitions, new_names};
use crate::error::LinkError;
use crate::exports::planned_exports;
use crate::imports::{resolve_at, resolve_imports};
use crate::names::DefinitionNames;
use std::alloc::Global;
use std::marker::Model;
use type_registry::{ModuleKey, TypeRegistry};
use wasm_module::Module;
use wasm_types::EntityType;

/// Named definitions, in order, from which the imports of modules are resolved. Their types are
/// those of one engine. The caller uses one registry throughout, and keeps the modules held whose
/// types occur here, so that equal indices are equal types.
#[derive(Drop)]
pub struct Linker {
    alloc: Global,
    definitions: Definitions,
}

/// A contract sees the definitions in order, each under its two names.
impl Model for Linker {
    ghost use Rattle.std.specs.Prelude.{List, All};
    ghost use Rattle.import_match.specs.Rules.{HasEngineTypes};
    ghost use Rattle.import_match.specs.Definitions.{Definition, AreOnce};

    ghost Value = { List Definition };

    ghost view = { λ l. l.definitions };

    ghost invariant = { λ l. All (λ (d : Definition). HasEngineTypes d.1) l.definitions × AreOnce l.definitions };
}

impl Linker {
    /// A linker in which nothing is defined.
    pub fn new(alloc: Global) -> Self
        ensures { result ≡ [] }
    {
        Linker {
            alloc,
            definitions: Definitions::new(alloc),
        }
    }

    /// The number of definitions.
    pub fn len(&self) -> usize
        ensures count { result ≡ length self.now }
        ensures once { AreOnce self.now }
    {
        self.definitions.len()
    }

    /// Defines an entity of this type under the name of a module and its own, and gives the number
    /// of the definition, counted from 0. The types that it names must be the engine's.
    ///
    /// # Errors
    /// `Duplicate` where something is defined under these names; `OutOfMemory`. The linker is
    /// unchanged then.
    pub fn define(&mut self, module: &str, name: &str, ty: EntityType) -> Result<usize, LinkError>
        requires { HasEngineTypes ty }
        ensures number { IfOk result (λ number. number ≡ length self.old) }
        ensures ok { OnOk result (self.new ≡ self.old ++ ((«module».now, name.now), ty) ∷ []) }
        ensures err { OnErr result (self.new ≡ self.old) }
        ensures duplicate { ComesExactly result refused.Duplicate (IsDefined self.old («module».now, name.now)) }
        ensures others { IfErr result (λ e. (e ≡ refused.Duplicate) ⊎ (e ≡ refused.OutOfMemory)) }
    {
        let names = new_names(self.alloc, &self.definitions, module, name)?;
        Ok(self.definitions.append(names, ty)?)
    }

    /// Defines each export of a held module under the name `as_module` and its own, in order.
    ///
    /// # Errors
    /// `NotHeld` where the registry holds no module under the key; `Duplicate` where something is
    /// defined under the names of one of the exports; `OutOfMemory`. The linker is unchanged then.
    pub fn define_exports(
        &mut self,
        registry: &TypeRegistry,
        key: ModuleKey,
        as_module: &str,
        module: &Module,
    ) -> Result<(), LinkError>
        requires { CanExport registry.now key «module».now as_module.now }
        ensures ok { OnOk result (self.new ≡ self.old ++ exported registry.now key «module».now as_module.now) }
        ensures err { OnErr result (self.new ≡ self.old) }
        ensures not_held { IsErrOf result refused.NotHeld ↔ IsNotHeld registry.now key }
        ensures duplicate { ComesExactly result refused.Duplicate
            (IsHeld registry.now key × Any (λ (d : Definition). IsDefined self.old d.0) (exported registry.now key «module».now as_module.now)) }
        ensures others { IfErr result (λ e. (e ≡ refused.NotHeld) ⊎ ((e ≡ refused.Duplicate) ⊎ (e ≡ refused.OutOfMemory))) }
    {
        if registry.type_count(key).is_none() {
            return Err(LinkError::NotHeld);
        }
        let planned = planned_exports(
            self.alloc,
            &self.definitions,
            registry,
            key,
            as_module,
            module,
        )?;
        self.definitions.append_all(planned)?;
        Ok(())
    }

    /// The number of the definition of each import of a held module, in order: the one under its
    /// two names, which matches it.
    ///
    /// # Errors
    /// `NotHeld` where the registry holds no module under the key, before all others. Of the first
    /// import that fails, `Missing` with its position where nothing is defined under its names, and
    /// else `Mismatch` with its position and the first rule that its definition breaks.
    /// `OutOfMemory`.
    pub fn resolve(
        &self,
        alloc: Global,
        registry: &TypeRegistry,
        key: ModuleKey,
        module: &Module,
    ) -> Result<Vec<usize>, LinkError>
        requires { CanImport registry.now key «module».now }
        ensures answer { IsHeld registry.now key → IsAnswer result (resolved self.now (wanted registry.now key «module».now)) }

        // What the result says: each cause in both directions.
        ensures given { IfOk result (λ numbers. AreGiven self.now (wanted registry.now key «module».now) numbers.items) }
        ensures complete { IsHeld registry.now key → AreMatched self.now (wanted registry.now key «module».now)
            → IsOk result ⊎ IsOutOfMemory result }
        ensures not_held { IsErrOf result refused.NotHeld ↔ IsNotHeld registry.now key }
        ensures missing { (i : ℕ) → ComesExactly result (refused.Missing i)
            (IsHeld registry.now key × IsMissing self.now (wanted registry.now key «module».now) i) }
        ensures mismatch { (i : ℕ) (rule : Mismatch) → ComesExactly result (refused.Mismatch i rule)
            (IsHeld registry.now key × IsMismatched self.now (wanted registry.now key «module».now) i rule) }
        ensures others { ¬ IsErrOf result refused.Duplicate }
        ensures once { AreOnce self.now }
    {
        let definitions = &self.definitions;
        if registry.type_count(key).is_none() {
            return Err(LinkError::NotHeld);
        }
        resolve_imports(alloc, definitions, registry, key, module)
    }

    /// The number of the definition of one import of a held module, by its position: the one under
    /// its two names, which matches it.
    ///
    /// # Errors
    /// `NotHeld`, `Missing` and `Mismatch` as by `resolve`, of this import alone; `OutOfMemory`.
    pub fn resolve_import(
        &self,
        registry: &TypeRegistry,
        key: ModuleKey,
        module: &Module,
        place: usize,
    ) -> Result<usize, LinkError>
        requires can { CanImport registry.now key «module».now }
        requires place { place < length (record_of «module».now).initializers }
        ensures answer { IsHeld registry.now key → IsAnswerAt result self.now (wanted registry.now key «module».now) place }
        ensures not_held { IsErrOf result refused.NotHeld ↔ IsNotHeld registry.now key }
    {
        if registry.type_count(key).is_none() {
            return Err(LinkError::NotHeld);
        }
        let mut names = DefinitionNames::new(self.alloc);
        resolve_at(&self.definitions, registry, key, module, place, &mut names)
    }
}
