//! What is wrong with an import, a table, an export, a body or a stated number of data segments.

ghost use Rattle.std.specs.Prelude.{◌≡◌, ◌<◌, ◌≤◌, length, map, take, Contains, IfOk};
ghost use Rattle.form_reader.specs.Views.{table_of, export_of, body_of};
ghost use Rattle.rule_spec.specs.References.{ImportRefersIn};
ghost use Rattle.rule_spec.specs.Rules.{locals};
ghost use Rattle.form_rules.specs.Views.{lists_of};
ghost use Rattle.rule_breaks.specs.Breaks.{Counts};
ghost use Rattle.rule_breaks.specs.Named.{import_types};
ghost use Rattle.rule_breaks.specs.Kept.{TableKeeps};
ghost use Rattle.rule_breaks.specs.FaultKept.{BodyFits, IsExportBroken};
ghost use Rattle.rule_breaks.specs.Faults.{At, IsTypeFault, IsTableFault, IsExportFault, IsBodyFault, IsDataCountFault, space_of, size};

use crate::fault::{ExpressionPlace, IndexSpace, RuleFault};
use crate::faults_spaces::body_count_fault;
use crate::finding::{entry_at, stated_at};
use crate::named::{body_past, import_past, no_type, table_past};
use crate::numbers::next_number;
use crate::segments::count_segments;
use form_reader::{Export, FunctionBody, Import, TableDef};
use form_rules::{Lists, bodies_hold, entries_of, is_in_space};
use rule_spec::Rule;
use std::alloc::{AllocError, Global};
use wasm_spec::{ExternalKind, TypeRef};

// ---- imports and tables

/// What is wrong with the import that has this number.
pub(crate) fn fault_of_import(lists: &Lists<'_, '_>, entry: u32) -> RuleFault
    requires { At (lists_of lists.now).imports entry (λ i. ¬ ImportRefersIn (length (lists_of lists.now).types) i.type) }
    ensures { At (lists_of lists.now).imports entry (λ i. IsTypeFault (lists_of lists.now) (import_types i.type) result) }
{
    match entry_at::<Import<'_>>(lists.source, entry) {
        Some(import) => import_fault(lists, &import.ty),
        None => unreachable!(),
    }
}

fn import_fault(lists: &Lists<'_, '_>, ty: &TypeRef) -> RuleFault
    requires { ¬ ImportRefersIn (length (lists_of lists.now).types) ty.now }
    ensures { IsTypeFault (lists_of lists.now) (import_types ty.now) result }
{
    let types = lists.types.count();
    match import_past(types as usize, ty) {
        Some(index) => no_type(types, index),
        None => unreachable!(),
    }
}

/// What is wrong with the table that has this number among those that are defined.
pub(crate) fn fault_of_table(lists: &Lists<'_, '_>, rule: Rule, entry: u32) -> RuleFault
    requires { At (lists_of lists.now).tables entry (λ t. ¬ TableKeeps rule (lists_of lists.now) t) }
    ensures { At (lists_of lists.now).tables entry (λ t. IsTableFault rule (lists_of lists.now) t result) }
{
    match entry_at::<TableDef>(lists.source, entry) {
        Some(table) => table_fault(lists, rule, table),
        None => unreachable!(),
    }
}

fn table_fault(lists: &Lists<'_, '_>, rule: Rule, table: &TableDef) -> RuleFault
    requires { ¬ TableKeeps rule (lists_of lists.now) (table_of table.now) }
    ensures { IsTableFault rule (lists_of lists.now) (table_of table.now) result }
{
    match rule {
        Rule::L5 => RuleFault::NotInitialised,
        Rule::L6 => RuleFault::Mistyped(ExpressionPlace::Initialiser),
        Rule::L10 => {
            let types = lists.types.count();
            match table_past(types as usize, table) {
                Some(index) => no_type(types, index),
                None => unreachable!(),
            }
        }
        _ => unreachable!(),
    }
}

// ---- exports

/// What is wrong with the export that has this number.
pub(crate) fn fault_of_export(lists: &Lists<'_, '_>, entry: u32) -> Result<RuleFault, AllocError>
    requires { At (lists_of lists.now).exports entry (IsExportBroken (lists_of lists.now) entry) }
    ensures { IfOk result (λ fault. At (lists_of lists.now).exports entry (λ e. IsExportFault (lists_of lists.now) entry e fault)) }
{
    match entry_at::<Export<'_>>(lists.source, entry) {
        Some(export) => export_fault(lists, entry, export),
        None => unreachable!(),
    }
}

fn export_fault(
    lists: &Lists<'_, '_>,
    entry: u32,
    export: &Export<'_>,
) -> Result<RuleFault, AllocError>
    requires { IsExportBroken (lists_of lists.now) entry (export_of export.now) }
    ensures { IfOk result (IsExportFault (lists_of lists.now) entry (export_of export.now)) }
{
    if !is_in_space(lists, export) {
        let space = space_of(export.kind);
        return Ok(RuleFault::NoSuchEntry {
            space,
            index: export.index,
            count: size_of(lists, space),
        });
    }
    let earlier = earlier_export(lists, entry, export.name)?;
    Ok(RuleFault::RepeatedName { earlier })
}

/// The first export that has this name, one of the first `entry`.
fn earlier_export(lists: &Lists<'_, '_>, entry: u32, name: &str) -> Result<u32, AllocError>
    requires { Contains (map (λ earlier. earlier.name) (take entry (lists_of lists.now).exports)) name.now }
    ensures { IfOk result (λ earlier. (earlier < entry) × At (lists_of lists.now).exports earlier (λ e. e.name ≡ name.now)) }
{
    let mut number = 0;
    for export in entries_of::<Export<'_>>(lists.source) {
        if number == entry {
            unreachable!()
        }
        if export.name == name {
            return Ok(number);
        }
        number = next_number(number)?;
    }
    unreachable!()
}

/// The index space of a kind.
fn space_of(kind: ExternalKind) -> IndexSpace
    ensures { result ≡ space_of kind }
{
    match kind {
        ExternalKind::Func => IndexSpace::Functions,
        ExternalKind::Table => IndexSpace::Tables,
        ExternalKind::Memory => IndexSpace::Memories,
        ExternalKind::Global => IndexSpace::Globals,
        ExternalKind::Tag => IndexSpace::Tags,
    }
}

/// How many entries an index space has.
pub(crate) fn size_of(lists: &Lists<'_, '_>, space: IndexSpace) -> u64
    ensures { result ≡ size (lists_of lists.now) space }
{
    match space {
        IndexSpace::Types => u64::from(lists.types.count()),
        IndexSpace::Functions => lists.spaces.functions.len() as u64,
        IndexSpace::Tables => lists.spaces.table_types.len() as u64,
        IndexSpace::Memories => lists.spaces.memories.len() as u64,
        IndexSpace::Globals => lists.spaces.global_types.len() as u64,
        IndexSpace::Tags => lists.spaces.tags.len() as u64,
    }
}

// ---- bodies

/// What is wrong with the body that has this number.
pub(crate) fn fault_of_body(
    lists: &Lists<'_, '_>,
    rule: Rule,
    entry: u32,
) -> Result<RuleFault, AllocError>
    requires imported { lists.now.imported_functions ≤ length lists.now.spaces.functions.items }
    requires breaks { At (lists_of lists.now).bodies entry (λ b. ¬ BodyFits rule (lists_of lists.now) b) }
    ensures { IfOk result (λ fault. At (lists_of lists.now).bodies entry (λ b. IsBodyFault rule (lists_of lists.now) b fault)) }
{
    match entry_at::<FunctionBody<'_>>(lists.source, entry) {
        Some(body) => body_fault(lists, rule, body),
        None => unreachable!(),
    }
}

fn body_fault(
    lists: &Lists<'_, '_>,
    rule: Rule,
    body: &FunctionBody<'_>,
) -> Result<RuleFault, AllocError>
    requires imported { lists.now.imported_functions ≤ length lists.now.spaces.functions.items }
    requires breaks { ¬ BodyFits rule (lists_of lists.now) (body_of body.now) }
    ensures { IfOk result (IsBodyFault rule (lists_of lists.now) (body_of body.now)) }
{
    match rule {
        Rule::L3 => locals_fault(lists, body),
        Rule::L10 => {
            let types = lists.types.count();
            match body_past(types as usize, body) {
                Some(index) => Ok(no_type(types, index)),
                None => unreachable!(),
            }
        }
        _ => unreachable!(),
    }
}

/// Why a body breaks rule L3.
fn locals_fault(lists: &Lists<'_, '_>, body: &FunctionBody<'_>) -> Result<RuleFault, AllocError>
    requires imported { lists.now.imported_functions ≤ length lists.now.spaces.functions.items }
    requires breaks { ¬ BodyFits Rule.L3 (lists_of lists.now) (body_of body.now) }
    ensures { IfOk result (IsBodyFault Rule.L3 (lists_of lists.now) (body_of body.now)) }
{
    if !bodies_hold(lists) {
        return body_count_fault(lists);
    }
    Ok(RuleFault::ManyLocals(count_locals(body)?))
}

/// How many locals a body has. More than 64 bits count give an `AllocError`.
fn count_locals(body: &FunctionBody<'_>) -> Result<u64, AllocError>
    ensures { IfOk result (λ count. count ≡ locals (body_of body.now)) }
{
    let mut count: u64 = 0;
    for (run, _) in &body.locals {
        count = count.checked_add(u64::from(*run)).ok_or(AllocError)?;
    }
    Ok(count)
}

// ---- data counts

/// What is wrong with the stated number of data segments that has this number.
pub(crate) fn fault_of_data_count(
    alloc: Global,
    lists: &Lists<'_, '_>,
    entry: u32,
) -> Result<RuleFault, AllocError>
    requires { At (lists_of lists.now).data_counts entry (λ stated. ¬ Counts (lists_of lists.now) stated) }
    ensures { IfOk result (λ fault. At (lists_of lists.now).data_counts entry (λ stated. IsDataCountFault (lists_of lists.now) stated fault)) }
{
    let segments = u64::from(count_segments(alloc, lists.source)?);
    match stated_at(lists.source, entry) {
        Some(stated) => Ok(RuleFault::DataCount { stated, segments }),
        None => unreachable!(),
    }
}
