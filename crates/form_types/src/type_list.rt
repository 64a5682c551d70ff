//! The list of types of a module whose groups were numbered.

ghost use Rattle.std.specs.Prelude.{◌≡◌, ◌↔◌, All, IsTrue, IfOk, IfSome, is_some};
ghost use Rattle.wasm_spec.specs.Module.{Module, HasFewEntries, groups};
ghost use Rattle.wasm_spec.specs.Sizes.{HasShortTypes};
ghost use Rattle.rule_spec.specs.Lists.{lists_of_module};
ghost use Rattle.rule_spec.specs.Rules.{Keeps};
ghost use Rattle.rule_spec.specs.TypeRules.{IsDeclaredWell};
ghost use Rattle.form_reader.specs.Views.{module_of};
ghost use Rattle.form_reader.specs.Input.{HasGroups};
ghost use Rattle.form_types.specs.Numbered.{AreNumbered};
ghost use Rattle.form_types.specs.Taken.{IsNumberingOf};

use crate::continuations::continuations_hold;
use crate::copied::numbering_of_form;
use crate::numbering::Numbering;
use crate::types::Types;
use crate::validator::Validator;
use entity_map::OutOfMemory;
use form_reader::Form;
use std::alloc::Global;

impl Numbering {
    /// The list of types of a module that was read, where each declared type names what it may
    /// (core specification, 3.2, recursive types).
    pub fn into_types(self, validator: &Validator) -> Option<Types>
        requires { HasGroups IsNumberingOf self }
        ensures made { IfSome result (λ t. t.validator ≡ validator.now) }
        ensures numbered { IfSome result (λ t. (m : Module) → IsNumberingOf self (groups m) → AreNumbered m t) }
        ensures well { (m : Module) → IsNumberingOf self (groups m)
            → IsTrue (is_some result) ↔ All (IsDeclaredWell (lists_of_module m)) (lists_of_module m).types }
    {
        if !self.names_below || !continuations_hold(&self.distinct) {
            return None;
        }
        Some(Types {
            validator: validator.id(),
            distinct: self.distinct,
            declared: self.declared,
            seed: self.seed,
        })
    }
}

impl Types {
    /// The types of a module that keeps the rules.
    ///
    /// # Errors
    /// `OutOfMemory`.
    pub fn build(
        alloc: Global,
        validator: &Validator,
        form: &Form<'_>,
    ) -> Result<Types, OutOfMemory>
        requires keeps { Keeps (module_of form.now) }
        requires few { HasFewEntries (module_of form.now) }
        requires short { HasShortTypes (module_of form.now) }
        ensures made { IfOk result (λ t. t.validator ≡ validator.now) }
        ensures numbered { IfOk result (AreNumbered (module_of form.now)) }
    {
        let numbering = numbering_of_form(alloc, form)?;
        match numbering.into_types(validator) {
            Some(types) => Ok(types),
            None => unreachable!(),
        }
    }
}
