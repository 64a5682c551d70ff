//! The startup rule gives what the plans of tables and memories raise startup to.

ghost use Rattle.std.specs.Prelude.{◌≡◌};
ghost use Rattle.rule_spec.specs.Lists.{Lists};
ghost use Rattle.replay_spec.specs.Plan.{MemoryPlan};
ghost use Rattle.replay_spec.specs.Startup.{startup_of, first_startup, raised_by_tables, raised_by_memories};
ghost use Rattle.replay_spec.specs.Tables.{TablePlan};

/// Planned in either order, tables and memories raise startup to that of the rule.
pub fn startup_law()
    ensures memories_first { (l : Lists) (tables : TablePlan) (memories : MemoryPlan)
        → raised_by_tables tables (raised_by_memories memories (first_startup l)) ≡ startup_of l tables memories }
    ensures tables_first { (l : Lists) (tables : TablePlan) (memories : MemoryPlan)
        → raised_by_memories memories (raised_by_tables tables (first_startup l)) ≡ startup_of l tables memories }
{}
