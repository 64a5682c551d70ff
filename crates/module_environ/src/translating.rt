//! The translation of a module: its bytes are read and checked, and each section becomes a part of
//! the record.

ghost use Rattle.std.specs.Prelude.{◌≡◌, ◌≢◌, ◌⊎◌, ◌^◌, ◌≤◌, ◌&&◌, length, map, true, false, is_none, IfOk, IfErr, OnOk, OnErr, Err};
ghost use Rattle.wasm_spec.specs.Module.{Module, groups, imports, function_import, HasFewEntries};
ghost use Rattle.rule_spec.specs.Lists.{lists_of_module};
ghost use Rattle.rule_spec.specs.Rules.{Keeps};
ghost use Rattle.form_rules.specs.Source.{source_module};
ghost use Rattle.form_rules.specs.Names.{exported_names};
ghost use Rattle.form_types.specs.Numbered.{AreNumbered};
ghost use Rattle.form_types.specs.Placed.{placed_groups};
ghost use Rattle.form_types.specs.Taken.{IsNumberingOf};
ghost use Rattle.form_types.specs.Types.{TypesData};
ghost use Rattle.type_spec.specs.Interned.{taken};
ghost use Rattle.module_types.specs.Builder.{builder_view, new_builder};
ghost use Rattle.init_plan.specs.Views.{IsNewTranslation};
ghost use Rattle.module_environ.specs.Readable.{IsReadable, HasTranslationCause, SucceedsOrNoMemory, IsPoisonedOrNoMemory};
ghost use Rattle.interned_types.specs.OnTheWay.{IsOnTheWay};
ghost use Rattle.module_environ.specs.OnTheWay.{StopsOnTheWay};
ghost use Rattle.module_sections.specs.Filling.{module_in, IsGathered, LeavesRest};
ghost use Rattle.module_environ.specs.Customs.{HasCustoms};
ghost use Rattle.module_sections.specs.Entities.{count_of};
ghost use Rattle.interned_types.specs.Environment.{AreHeld};
ghost use Rattle.module_environ.specs.Pooled.{pool_of};
ghost use Rattle.module_sections.specs.Sections.{HasSections};
ghost use Rattle.interned_types.specs.Types.{declared, type_index, AreTypesOf};
ghost use Rattle.replay_spec.specs.Startup.{is_empty};
ghost use Rattle.module_environ.specs.Translated.{IsTranslated};
ghost use Rattle.module_environ.specs.Forming.{IsFormed, FormCause};

use crate::code::take_bodies;
use crate::customs::fill_customs;
use crate::environment::ModuleEnvironment;
use crate::error::EnvironError;
use crate::types::intern_types;
use entity_map::{OutOfMemory, PrimaryMap, StringPool};
use form_reader::read_input;
use form_rules::{Lists, ModuleSource, checked_lists};
use form_types::{Numbering, Types, Validator};
use init_plan::ModuleTranslation;
use interned_types::{convert_tags, declared_types};
use module_sections::fill_sections;
use module_types::ModuleTypesBuilder;
use rule_spec::Rule;
use std::alloc::Global;
use std::mem;
use wasm_index::{StaticModuleIndex, TypeIndex};
use wasm_types::{EngineOrModuleTypeIndex, Tunables};

impl<'a, 'd> ModuleEnvironment<'a, 'd> {
    /// The translation of the module that the bytes spell: each section as the record holds it,
    /// with types interned by the builder, and nothing planned yet.
    ///
    /// # Errors
    /// `TooLarge` for 2^30 bytes or more; `Malformed` and `Unsupported` by what the bytes spell;
    /// `Invalid` where the module breaks a listed rule; `Poisoned` where the builder was poisoned;
    /// `OutOfMemory`, after which the builder may be.
    pub fn translate(
        self,
        alloc: Global,
        bytes: &'d [u8],
    ) -> Result<ModuleTranslation<'d>, EnvironError>
        requires types { self.types.now.is_poisoned ≡ false → builder_view self.types.now ≡ new_builder self.validator.now }

        // The bytes spell a module that keeps the listed rules, and the translation is that of the
        // module.
        ensures translated { IfOk result (λ t.
            IsTranslated self.entry.tunables.now self.entry.module_index self.entry.validator.now bytes.now t self.exit.1.1.0.now) }

        // Each error has its cause; the length is checked first.
        ensures cause { IfErr result (HasTranslationCause bytes.now self.entry.types.now.is_poisoned) }
        ensures too_long { 2 ^ 30 ≤ length bytes.now → result ≡ Err EnvironError.TooLarge }

        // A module that keeps the rules has a translation, unless memory runs out. Where the
        // builder was poisoned, and only there, the error says so.
        ensures complete { (m : Module) → IsReadable bytes.now m → Keeps m → self.entry.types.now.is_poisoned ≡ false → SucceedsOrNoMemory result }
        ensures poisoned { (m : Module) → IsReadable bytes.now m → Keeps m → self.entry.types.now.is_poisoned ≡ true → IsPoisonedOrNoMemory result }

        // The state of the builder: it is unchanged after each error except `OutOfMemory`, and
        // where it was poisoned. Where memory ran out it is poisoned, or unchanged, or it holds the
        // first of the module's types and exception types.
        ensures refused { OnErr result (result ≢ Err EnvironError.OutOfMemory → self.exit.1.1.0.now ≡ self.entry.types.now) }
        ensures stays_poisoned { self.entry.types.now.is_poisoned ≡ true → self.exit.1.1.0.now ≡ self.entry.types.now }
        ensures stops { OnErr result (StopsOnTheWay self.entry.validator.now bytes.now self.entry.types.now self.exit.1.1.0.now) }
    {
        let ModuleEnvironment {
            tunables,
            validator,
            types,
            module_index,
            declared: _,
        } = self;
        translation_of(alloc, tunables, validator, types, module_index, bytes)
    }
}

/// The translation of the module that the bytes spell.
fn translation_of<'d>(
    alloc: Global,
    tunables: &Tunables,
    validator: &Validator,
    types: &mut ModuleTypesBuilder,
    module_index: StaticModuleIndex,
    bytes: &'d [u8],
) -> Result<ModuleTranslation<'d>, EnvironError>
    requires types { types.old.is_poisoned ≡ false → builder_view types.old ≡ new_builder validator.now }
    ensures translated { IfOk result (λ t. IsTranslated tunables.now module_index validator.now bytes.now t types.new) }
    ensures cause { IfErr result (HasTranslationCause bytes.now types.old.is_poisoned) }
    ensures too_long { 2 ^ 30 ≤ length bytes.now → result ≡ Err EnvironError.TooLarge }
    ensures complete { (m : Module) → IsReadable bytes.now m → Keeps m → types.old.is_poisoned ≡ false → SucceedsOrNoMemory result }
    ensures poisoned { (m : Module) → IsReadable bytes.now m → Keeps m → types.old.is_poisoned ≡ true → IsPoisonedOrNoMemory result }
    ensures refused { OnErr result (result ≢ Err EnvironError.OutOfMemory → types.new ≡ types.old) }
    ensures stays_poisoned { types.old.is_poisoned ≡ true → types.new ≡ types.old }
    ensures stops { OnErr result (StopsOnTheWay validator.now bytes.now types.old types.new) }
{
    let mut numbering = Numbering::new(alloc, bytes);
    let form = read_input(alloc, bytes, &mut numbering)?;
    let mut translation = ModuleTranslation::new(alloc, module_index)?;
    if let Err(error) = translate_form(
        alloc,
        tunables,
        validator,
        types,
        ModuleSource::Input(&form),
        numbering,
        &mut translation,
    ) {
        // Dropped by one call, not field by field at each exit.
        drop(translation);
        return Err(error);
    }
    translation.wasm = bytes;
    match take_bodies(alloc, form) {
        Ok((bodies, place)) => {
            // The earlier list, which is empty, is dropped as a separate value.
            let _none = mem::replace(&mut translation.function_body_inputs, bodies);
            translation.debuginfo.wasm_file.code_section_offset = place;
            Ok(translation)
        }
        Err(error) => {
            drop(translation);
            Err(error.into())
        }
    }
}

/// Fills an empty translation with all of a module except its bytes and its code.
fn translate_form<'d>(
    alloc: Global,
    tunables: &Tunables,
    validator: &Validator,
    types: &mut ModuleTypesBuilder,
    source: ModuleSource<'_, 'd>,
    numbering: Numbering,
    translation: &mut ModuleTranslation<'d>,
) -> Result<(), EnvironError>
    requires took { IsNumberingOf numbering (groups (source_module source)) }
    requires few { HasFewEntries (source_module source) }
    requires new { IsNewTranslation translation.old.module.module_index translation.old }
    requires types { types.old.is_poisoned ≡ false → builder_view types.old ≡ new_builder validator.now }
    ensures formed { OnOk result
        (IsFormed tunables.now validator.now (source_module source.entry) translation.old translation.new types.new) }
    ensures cause { IfErr result (FormCause (source_module source.entry) types.old.is_poisoned) }
    ensures complete { Keeps (source_module source.entry) → types.old.is_poisoned ≡ false → SucceedsOrNoMemory result }
    ensures poisoned { Keeps (source_module source.entry) → types.old.is_poisoned ≡ true → IsPoisonedOrNoMemory result }
    ensures refused { OnErr result (result ≢ Err EnvironError.OutOfMemory → types.new ≡ types.old) }
    ensures stays_poisoned { types.old.is_poisoned ≡ true → types.new ≡ types.old }
    ensures stops { types.new.is_poisoned ≡ false
        → (types.new ≡ types.old) ⊎ (Keeps (source_module source.entry) × IsOnTheWay (source_module source.entry) validator.now (builder_view types.new)) }
{
    let Some(ids) = numbering.into_types(validator) else {
        return Err(EnvironError::Invalid(Rule::L1));
    };
    let (checked, names) = checked_lists(alloc, source, &ids)?;
    // The rules needed the types, and no list needs them from here on: they go into the
    // translation.
    let lists = checked.without_types(source);
    translate_lists(alloc, tunables, types, &lists, names, ids, translation)
}

/// Fills an empty translation with all of a module that keeps the rules, except its bytes and its
/// code.
fn translate_lists<'d>(
    alloc: Global,
    tunables: &Tunables,
    types: &mut ModuleTypesBuilder,
    lists: &Lists<'_, 'd>,
    names: StringPool,
    ids: Types,
    translation: &mut ModuleTranslation<'d>,
) -> Result<(), EnvironError>
    requires names { names ≡ exported_names (lists_of_module (module_in lists.now)).exports }
    requires numbered { AreNumbered (module_in lists.now) ids }
    requires gathered { IsGathered lists.now }
    requires new { IsNewTranslation translation.old.module.module_index translation.old }
    requires types { types.old.is_poisoned ≡ false → builder_view types.old ≡ new_builder ids.validator }
    ensures formed { OnOk result
        (IsFormed tunables.now ids.validator (module_in lists.now) translation.old translation.new types.new) }
    // A poisoned builder is reported before anything requests memory, and there is no other cause.
    ensures poisoned { types.old.is_poisoned ≡ true → (result ≡ Err EnvironError.Poisoned) × (types.new ≡ types.old) }
    ensures complete { types.old.is_poisoned ≡ false → SucceedsOrNoMemory result }
    ensures stops { types.old.is_poisoned ≡ false → types.new.is_poisoned ≡ false
        → (types.new ≡ types.old) ⊎ IsOnTheWay (module_in lists.now) ids.validator (builder_view types.new) }
{
    if types.is_poisoned() {
        return Err(EnvironError::Poisoned);
    }
    let indices = intern_types(alloc, &ids, types)?;
    fill_lists(alloc, tunables, types, lists, names, &indices, translation)?;
    translation.module.tags = convert_tags(alloc, lists.spaces.tags.as_slice(), &indices, types)?;
    translation.module.types = indices;
    translation.set_types(ids);
    if !leaves_nothing(translation) {
        translation.require_startup_func(types)?;
    }
    Ok(())
}

/// Fills an empty translation with the sections of a module whose declared types the builder holds,
/// and with what custom ones give.
fn fill_lists<'d>(
    alloc: Global,
    tunables: &Tunables,
    types: &ModuleTypesBuilder,
    lists: &Lists<'_, 'd>,
    names: StringPool,
    indices: &PrimaryMap<TypeIndex, EngineOrModuleTypeIndex>,
    translation: &mut ModuleTranslation<'d>,
) -> Result<(), OutOfMemory>
    requires gathered { IsGathered lists.now }
    requires names { names ≡ exported_names (lists_of_module (module_in lists.now)).exports }
    requires of_module { (t : TypesData) × AreTypesOf (module_in lists.now) t }
    requires listed { indices.now ≡ map type_index (declared (module_in lists.now)) }
    requires held { AreHeld indices.now (length types.now.list.types) }
    requires built { (builder_view types.now).built ≡ (taken (placed_groups (module_in lists.now))).built }
    requires new { IsNewTranslation translation.old.module.module_index translation.old }
    ensures sections { OnOk result (HasSections tunables.now.debug_guest (module_in lists.now) translation.new) }
    ensures customs { OnOk result (HasCustoms tunables.now (module_in lists.now) translation.new) }
    ensures strings { OnOk result (translation.new.module.strings ≡ pool_of tunables.now.debug_native (module_in lists.now)) }
    ensures imports { OnOk result
        (translation.new.debuginfo.wasm_file.imported_func_count ≡ count_of function_import (imports (module_in lists.now))) }
    ensures rest { OnOk result (LeavesRest translation.old translation.new) }
{
    let env = declared_types(alloc, types, indices)?;
    fill_sections(
        alloc,
        tunables.debug_guest,
        &env,
        lists,
        names,
        indices,
        translation,
    )?;
    fill_customs(alloc, tunables, &env, lists, translation)?;
    Ok(())
}

/// Whether no initialiser of a global remains, and there is no start function and no passive
/// element segment.
fn leaves_nothing(translation: &ModuleTranslation<'_>) -> bool
    ensures { let t = translation.now in
        result ≡ (is_empty t.global_initializers.items && is_none t.start_func && is_empty t.passive_elements) }
{
    translation.global_initializers.is_empty()
        && translation.start_func.is_none()
        && translation.passive_elements.is_empty()
}
