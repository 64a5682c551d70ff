//! The first values of the defined globals.

ghost use Rattle.std.specs.Prelude.{◌≡◌, ◌<◌, length, map, All, IfOk, OnOk};
ghost use Rattle.std.specs.List.{flat_map};
ghost use Rattle.wasm_spec.specs.Module.{globals_of_section};
ghost use Rattle.form_rules.specs.Source.{source_module};
ghost use Rattle.module_sections.specs.Convertible.{IsConvertible};
ghost use Rattle.module_sections.specs.Escapes.{referred};
ghost use Rattle.module_sections.specs.EscapeLog.{after_escapes};
ghost use Rattle.init_plan.specs.Held.{simple_global_of};
ghost use Rattle.module_sections.specs.Initialisers.{known_values, left_initialisers, view_initialiser};
ghost use Rattle.module_sections.specs.FirstGlobals.{seen_globals, AddsInitialiser};

use crate::escapes::Escaping;
use crate::expressions::convert_expression;
use entity_map::{EntityRef, OutOfMemory};
use form_reader::GlobalDef;
use form_rules::{ModuleSource, walk_of};
use std::alloc::Global;
use wasm_convert::{ConstExpr, GlobalConstValue, TypeConvert};
use wasm_index::DefinedGlobalIndex;

/// How the defined globals begin: each is in one of the two lists, by its number among the defined
/// globals, in order.
#[derive(Drop)]
pub(crate) struct FirstGlobals {
    /// Those whose value is known.
    pub known: Vec<(DefinedGlobalIndex, GlobalConstValue)>,
    /// The others, with their initialisers.
    pub left: Vec<(DefinedGlobalIndex, ConstExpr)>,
}

/// How the defined globals begin; functions that their initialisers refer to are recorded.
pub(crate) fn first_globals(
    alloc: Global,
    env: &dyn TypeConvert,
    source: ModuleSource<'_, '_>,
    escaping: &mut Escaping,
) -> Result<FirstGlobals, OutOfMemory>
    requires convertible { All (λ g. IsConvertible (knows env.now) escaping.old.count g.init) (flat_map globals_of_section (source_module source)) }
    requires few { length (flat_map globals_of_section (source_module source)) < u32.MAX }
    ensures known { IfOk result (λ g. map simple_global_of g.known.items ≡ known_values (flat_map globals_of_section (source_module source.entry))) }
    ensures left { IfOk result (λ g. map (view_initialiser (λ e. e)) g.left.items
        ≡ left_initialisers (look_up env.now) (flat_map globals_of_section (source_module source.entry))) }
    ensures noted { OnOk result (escaping.new
        ≡ after_escapes escaping.old (flat_map (λ g. referred g.init) (flat_map globals_of_section (source_module source.entry)))) }
{
    let mut first = FirstGlobals {
        known: Vec::new(alloc),
        left: Vec::new(alloc),
    };
    let mut globals = walk_of::<GlobalDef>(alloc, source);
    while globals.advance()? {
        let initialiser = convert_expression(alloc, env, &globals.entry().init, escaping)?;
        first.add(initialiser)?;
    }
    Ok(first)
}

impl FirstGlobals {
    // The next global begins with the value of this expression.
    fn add(&mut self, initialiser: ConstExpr) -> Result<(), OutOfMemory>
        requires { seen_globals self.old < u32.MAX }
        ensures { OnOk result (AddsInitialiser self.old self.new initialiser) }
    {
        // Each global before is in one of the lists.
        let index = DefinedGlobalIndex::new(self.known.len() + self.left.len());
        match initialiser.const_eval() {
            Some(value) => self.known.push((index, value))?,
            None => self.left.push((index, initialiser))?,
        }
        Ok(())
    }
}
