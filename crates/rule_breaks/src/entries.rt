//! The first import, table, export or body that breaks a rule.

ghost use Rattle.std.specs.Prelude.{◌↔◌, ◌≤◌, length, IsTrue, IfOk};
ghost use Rattle.form_reader.specs.Views.{table_of, body_of};
ghost use Rattle.rule_spec.specs.Indices.{IsInSpace};
ghost use Rattle.rule_spec.specs.References.{ImportRefersIn};
ghost use Rattle.form_rules.specs.Views.{lists_of};
ghost use Rattle.rule_breaks.specs.Search.{Finds};
ghost use Rattle.rule_breaks.specs.Kept.{TableKeeps, BodyKeeps};

use crate::numbers::next_number;
use form_reader::{Export, FunctionBody, Import, TableDef};
use form_rules::{
    Lists, Typing, body_fits, body_refers, entries_of, import_refers, is_in_space, is_initialised,
    table_holds, table_refers,
};
use rule_spec::{Class, Rule};
use std::alloc::{AllocError, Global};

/// The first import that refers to a type that is not declared.
pub(crate) fn first_import(lists: &Lists<'_, '_>) -> Result<Option<u32>, AllocError>
    ensures { let l = lists_of lists.now in IfOk result (Finds (λ i. ImportRefersIn (length l.types) i.type) l.imports) }
{
    let types = lists.types.count() as usize;
    let mut number = 0;
    for import in entries_of::<Import<'_>>(lists.source) {
        if !import_refers(types, &import.ty) {
            return Ok(Some(number));
        }
        number = next_number(number)?;
    }
    Ok(None)
}

/// The first table that breaks a rule.
pub(crate) fn first_table(
    alloc: Global,
    typing: &Typing<'_, '_, '_>,
    rule: Rule,
) -> Result<Option<u32>, AllocError>
    requires imported { typing.now.lists.now.imported_globals ≤ length typing.now.lists.now.spaces.global_types.items }
    ensures { IfOk result (Finds (TableKeeps rule (lists_of typing.now.lists.now)) (lists_of typing.now.lists.now).tables) }
{
    let mut stack = Vec::new(alloc);
    let mut number = 0;
    for table in entries_of::<TableDef>(typing.lists.source) {
        if !table_keeps(typing, rule, table, &mut stack)? {
            return Ok(Some(number));
        }
        number = next_number(number)?;
    }
    Ok(None)
}

fn table_keeps(
    typing: &Typing<'_, '_, '_>,
    rule: Rule,
    table: &TableDef,
    stack: &mut Vec<Class>,
) -> Result<bool, AllocError>
    requires imported { typing.now.lists.now.imported_globals ≤ length typing.now.lists.now.spaces.global_types.items }
    ensures { IfOk result (λ kept. IsTrue kept ↔ TableKeeps rule (lists_of typing.now.lists.now) (table_of table.now)) }
{
    match rule {
        Rule::L5 => Ok(is_initialised(table)),
        Rule::L6 => table_holds(typing, table, stack),
        Rule::L10 => Ok(table_refers(typing.lists.types.count() as usize, table)),
        _ => Ok(true),
    }
}

/// The first export that names no entry of its index space.
pub(crate) fn first_export(lists: &Lists<'_, '_>) -> Result<Option<u32>, AllocError>
    ensures { IfOk result (Finds (IsInSpace (lists_of lists.now)) (lists_of lists.now).exports) }
{
    let mut number = 0;
    for export in entries_of::<Export<'_>>(lists.source) {
        if !is_in_space(lists, export) {
            return Ok(Some(number));
        }
        number = next_number(number)?;
    }
    Ok(None)
}

/// The first body that breaks a rule.
pub(crate) fn first_body(lists: &Lists<'_, '_>, rule: Rule) -> Result<Option<u32>, AllocError>
    ensures { IfOk result (Finds (BodyKeeps rule (lists_of lists.now)) (lists_of lists.now).bodies) }
{
    let mut number = 0;
    for body in entries_of::<FunctionBody<'_>>(lists.source) {
        if !body_keeps(lists, rule, body) {
            return Ok(Some(number));
        }
        number = next_number(number)?;
    }
    Ok(None)
}

fn body_keeps(lists: &Lists<'_, '_>, rule: Rule, body: &FunctionBody<'_>) -> bool
    ensures { IsTrue result ↔ BodyKeeps rule (lists_of lists.now) (body_of body.now) }
{
    match rule {
        Rule::L3 => body_fits(body),
        Rule::L10 => body_refers(lists.types.count() as usize, body),
        _ => true,
    }
}
