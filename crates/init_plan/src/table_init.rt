//! Element segments become images of tables.

ghost use Rattle.std.specs.Prelude.{◌≡◌, ◌≢◌, ◌↔◌, ◌⊎◌, ◌<◌, ◌&&◌, All, length, true, false, Err, OnOk, OnErr, IsTrue};
ghost use Rattle.std.specs.List.{filter_map};
ghost use Rattle.module_types.specs.Builder.{builder_view, starts};
ghost use Rattle.replay_spec.specs.Startup.{is_empty};
ghost use Rattle.replay_spec.specs.Tables.{IsTablePlan, AgreesOnTables};
ghost use Rattle.table_images.specs.Views.{initial_of};
ghost use Rattle.table_images.specs.Left.{IsLeft};
ghost use Rattle.init_plan.specs.Startup.{raised, types_after, with_startup};
ghost use Rattle.init_plan.specs.Ready.{MemoryHalfIsReady};
ghost use Rattle.init_plan.specs.Tables.{TableHalfIsReady, AreCounted, OnlyTableInitChanges, own_tables, tables_of, elements_of, plan_of_tables, startup_with_tables};

use crate::error::PlanError;
use crate::translation::ModuleTranslation;
use module_types::{BuildError, ModuleTypesBuilder};
use std::alloc::Global;
use table_images::plan_tables;
use wasm_module::{TableInitialValue, TableInitialization};
use wasm_types::Tunables;

impl ModuleTranslation<'_> {
    /// Plans the tables: the images that they begin with, and the initialisers and element segments
    /// that are kept to be written. Where any is kept, the module needs a startup function that
    /// always runs. After an error the translation may only be dropped.
    ///
    /// # Errors
    /// `Poisoned` where the builder is, and `OutOfMemory`.
    pub fn finalize_table_init(
        &mut self,
        alloc: Global,
        tunables: &Tunables,
        types: &mut ModuleTypesBuilder,
    ) -> Result<(), PlanError>
        requires ready { TableHalfIsReady self.old }
        requires room { types.old.is_poisoned ≡ false → length (starts (builder_view types.old)).built.types < u32.MAX }

        // The images, and what is kept, are those of the rule, and leave what the segments leave.
        ensures planned { OnOk result (IsTablePlan tunables.now.table_lazy_init self.old.module.num_imported_tables
            (tables_of self.old) (elements_of self.old) (plan_of_tables self.new)) }
        ensures agrees { OnOk result (AgreesOnTables self.old.module.num_imported_tables (tables_of self.old) (elements_of self.old) (plan_of_tables self.new)) }

        // Each initialiser or segment that is kept is the value that was there before, and each
        // defined table has one initial value and one image.
        ensures left { OnOk result (IsLeft self.old.table_initialization self.new.table_initialization) }
        ensures counts { OnOk result (AreCounted self.new) }

        // What is kept requires startup, and the builder gains its type where there was none
        // before.
        ensures startup { let kind = startup_with_tables self.old (plan_of_tables self.new) in
            OnOk result (self.new.module.startup ≡ raised kind self.old.module.startup (builder_view types.old)) }
        ensures types { let kind = startup_with_tables self.old (plan_of_tables self.new) in
            OnOk result (builder_view types.new ≡ types_after kind self.old.module.startup (builder_view types.old)) }

        ensures same { OnOk result (OnlyTableInitChanges self.old self.new) }
        ensures memories_ready { MemoryHalfIsReady self.old → OnOk result (MemoryHalfIsReady self.new) }
        ensures poisoned { (result ≡ Err PlanError.Poisoned) ↔ (types.old.is_poisoned ≡ true) }
        // After an error the builder is as it was, or poisoned.
        ensures refused { OnErr result ((types.new ≡ types.old) ⊎ (types.new.is_poisoned ≡ true)) }
        ensures never_too_large { result ≢ Err PlanError.TooLarge }
    {
        if types.is_poisoned() {
            return Err(PlanError::Poisoned);
        }
        self.plan_table_images(alloc, tunables.table_lazy_init)?;
        self.raise_startup_by_tables(types)?;
        Ok(())
    }

    // The images, and what is kept.
    fn plan_table_images(&mut self, alloc: Global, lazy: bool) -> Result<(), PlanError>
        requires { TableHalfIsReady self.old }
        ensures planned { OnOk result (IsTablePlan lazy self.old.module.num_imported_tables
            (tables_of self.old) (elements_of self.old) (plan_of_tables self.new)) }
        ensures left { OnOk result (IsLeft self.old.table_initialization self.new.table_initialization) }
        ensures same { OnOk result (OnlyTableInitChanges self.old self.new) }
        ensures startup { OnOk result (self.new.module.startup ≡ self.old.module.startup) }
        ensures counts { OnOk result (AreCounted self.new) }
        ensures err { OnErr result (result ≡ Err PlanError.OutOfMemory) }
    {
        self.module.table_initialization = plan_tables(
            alloc,
            lazy,
            self.module.num_imported_tables,
            self.module.tables.as_slice(),
            &mut self.table_initialization,
        )?;
        Ok(())
    }

    // Startup, where the tables are planned.
    fn raise_startup_by_tables(&mut self, types: &mut ModuleTypesBuilder) -> Result<(), BuildError>
        requires room { types.old.is_poisoned ≡ false → length (starts (builder_view types.old)).built.types < u32.MAX }
        requires usable { types.old.is_poisoned ≡ false }
        requires counts { AreCounted self.old }
        ensures ok { let kind = startup_with_tables self.old (plan_of_tables self.old) in
            OnOk result (self.new ≡ with_startup self.old (raised kind self.old.module.startup (builder_view types.old))) }
        ensures types { let kind = startup_with_tables self.old (plan_of_tables self.old) in
            OnOk result (builder_view types.new ≡ types_after kind self.old.module.startup (builder_view types.old)) }
        ensures err { result ≢ Err BuildError.Poisoned }
        ensures refused { OnErr result (types.new.is_poisoned ≡ true) }
    {
        if keeps_none(&self.table_initialization) {
            return Ok(());
        }
        self.require_startup_func(types)
    }
}

// Whether each table holds null at first, except for the cells of its image.
fn are_null(values: &[TableInitialValue]) -> bool
    ensures { IsTrue result ↔ All (λ value. value ≡ TableInitialValue.Null) values.now }
{
    values
        .iter()
        .all(|value| matches!(value, TableInitialValue::Null))
}

// Whether no initialiser and no segment is kept.
fn keeps_none(initialization: &TableInitialization) -> bool
    ensures { result ≡ (is_empty (filter_map initial_of initialization.now.initial_values) && is_empty initialization.now.segments.items) }
{
    are_null(initialization.initial_values.as_slice()) && initialization.segments.is_empty()
}
