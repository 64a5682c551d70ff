//! Initialisers of tables (core specification, 3.5, tables).

ghost use Rattle.std.specs.Prelude.{◌↔◌, All, IsTrue};
ghost use Rattle.std.specs.List.{flat_map};
ghost use Rattle.wasm_spec.specs.Module.{tables_of_section};
ghost use Rattle.form_reader.specs.Views.{table_of};
ghost use Rattle.rule_spec.specs.Rules.{IsInitialised};
ghost use Rattle.form_rules.specs.Source.{source_module};

use crate::{Lists, entries_of};
use form_reader::TableDef;

/// Whether each defined table whose cells cannot be null says what they hold at first.
pub fn initialisers_hold(lists: &Lists<'_, '_>) -> bool
    ensures { IsTrue result ↔ All IsInitialised (flat_map tables_of_section (source_module lists.now.source)) }
{
    entries_of::<TableDef>(lists.source).all(is_initialised)
}

/// Whether a table whose cells cannot be null has an initialiser.
pub fn is_initialised(table: &TableDef) -> bool
    ensures { IsTrue result ↔ IsInitialised (table_of table.now) }
{
    table.ty.element_type.nullable || table.init.is_some()
}
