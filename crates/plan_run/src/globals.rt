//! Globals.

ghost use Rattle.std.specs.Prelude.{◌≡◌, ◌+◌, ◌<◌, ℕ, List, length, map, All, IfOk, OnOk};
ghost use Rattle.wasm_index.specs.Index.{number_of};
ghost use Rattle.replay_spec.specs.Globals.{simple_written, kept_written, planned_globals};
ghost use Rattle.replay_spec.specs.Values.{Term};
ghost use Rattle.init_plan.specs.Held.{simple_global_of, kept_global_of, plan_of_globals};
ghost use Rattle.plan_run.specs.Evaluation.{globals_of, fields_of, EvaluatorIsSound};
ghost use Rattle.plan_run.specs.Fields.{field_count_in};
ghost use Rattle.plan_run.specs.Finished.{GlobalsAreFinished};
ghost use Rattle.plan_run.specs.Values.{values_in, imported_value, IsPlain, NamesBelow};

use crate::evaluation::Evaluator;
use crate::value::{Value, from_constant};
use entity_map::{EntityRef, OutOfMemory};
use init_plan::ModuleTranslation;
use module_types::ModuleTypes;
use std::alloc::Global;
use wasm_convert::GlobalConstValue;
use wasm_index::DefinedGlobalIndex;

/// Writes the values of globals that are known before any code runs; the first `imports` globals
/// are imported.
fn write_simple(
    values: &[(DefinedGlobalIndex, GlobalConstValue)],
    imports: usize,
    globals: &mut Vec<Value>,
)
    requires { All (λ g. imports + number_of g.0 < length globals.old.items) values.now }
    ensures written { (terms : List Term) → values_in terms globals.new.items
        ≡ simple_written imports (values_in terms globals.old.items) (map simple_global_of values.now) }
    ensures below { (k : ℕ) → All (NamesBelow k) globals.old.items → All (NamesBelow k) globals.new.items }
    ensures count { length globals.new.items ≡ length globals.old.items }
{
    for (index, value) in values {
        globals[imports + index.index()] = from_constant(*value);
    }
}

impl<'t, 'd, 'a> Evaluator<'t, 'd, 'a> {
    /// Writes the values of the initialisers that are kept, in order, each over the globals so far.
    fn write_kept(&mut self, imports: usize) -> Result<(), OutOfMemory>
        requires sound { EvaluatorIsSound self.old }
        requires within { All (λ g. imports + number_of g.0 < length self.old.globals.items) self.old.translation.now.global_initializers.items }
        ensures sound { OnOk result (EvaluatorIsSound self.new) }
        ensures translation { OnOk result (self.new.translation ≡ self.old.translation) }
        ensures types { OnOk result (self.new.types ≡ self.old.types) }
        ensures written { OnOk result (globals_of self.new ≡ kept_written (fields_of self.old) imports (globals_of self.old)
            (map kept_global_of self.old.translation.now.global_initializers.items)) }
    {
        let translation = self.translation;
        for (index, initializer) in &translation.global_initializers {
            let value = self.evaluate(initializer)?;
            self.globals[imports + index.index()] = value;
        }
        Ok(())
    }

    /// An evaluator with the values of all globals, the imported ones first.
    pub(crate) fn with_globals(
        alloc: Global,
        translation: &'t ModuleTranslation<'d>,
        types: &'a ModuleTypes,
        imported: Vec<Value>,
    ) -> Result<Self, OutOfMemory>
        requires plain { All IsPlain imported.items }
        requires imports { length imported.items ≡ translation.now.module.num_imported_globals }
        requires finished { GlobalsAreFinished translation.now }
        ensures sound { IfOk result EvaluatorIsSound }
        ensures translation { IfOk result (λ e. e.translation ≡ translation.entry) }
        ensures types { IfOk result (λ e. e.types ≡ types.entry) }
        ensures laid { IfOk result (λ e. globals_of e
            ≡ planned_globals (field_count_in translation.now types.now) (map imported_value imported.items) (plan_of_globals translation.now)) }
    {
        let imports = imported.len();
        let mut globals = imported;
        globals.resize(translation.module.globals.len(), Value::Null)?;
        write_simple(
            &translation.module.global_initializers,
            imports,
            &mut globals,
        );
        let nodes = Vec::new(alloc);
        let mut evaluator = Evaluator {
            alloc,
            translation,
            types,
            globals,
            nodes,
        };
        evaluator.write_kept(imports)?;
        Ok(evaluator)
    }
}
