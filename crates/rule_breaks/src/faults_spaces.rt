//! What is wrong with a function, a tag, a table type, a memory or a start function.

ghost use Rattle.std.specs.Prelude.{◌≡◌, ◌≤◌, length, IfOk, slice_get};
ghost use Rattle.rule_spec.specs.TypeRules.{NamesFunctionType};
ghost use Rattle.rule_spec.specs.Limits.{HasLimits, IsOrdered};
ghost use Rattle.rule_spec.specs.Indices.{CanStart};
ghost use Rattle.form_rules.specs.Views.{lists_of};
ghost use Rattle.rule_breaks.specs.Breaks.{HasBodies};
ghost use Rattle.rule_breaks.specs.Faults.{At, IsFunctionTypeFault, IsFunctionFault, IsBodyCountFault, IsTableTypeFault, IsMemoryFault, IsStartFault};
ghost use Rattle.rule_breaks.specs.FaultKept.{FunctionKeeps};

use crate::fault::{IndexSpace, RuleFault};
use crate::finding::start_at;
use form_reader::FunctionBody;
use form_rules::{Lists, count_entries, is_function_at};
use rule_spec::Rule;
use std::alloc::AllocError;
use wasm_spec::{MemoryType, TableType};

/// The page size of a memory type that names none, as an exponent of 2.
const DEFAULT_PAGE_SIZE_LOG2: u32 = 16;

// ---- functions and tags

/// What is wrong with the function that has this index.
pub(crate) fn fault_of_function(
    lists: &Lists<'_, '_>,
    rule: Rule,
    entry: u32,
) -> Result<RuleFault, AllocError>
    requires imported { lists.now.imported_functions ≤ length lists.now.spaces.functions.items }
    requires breaks { At (lists_of lists.now).functions entry (λ ty. ¬ FunctionKeeps rule (lists_of lists.now) ty) }
    ensures { IfOk result (λ fault. At (lists_of lists.now).functions entry (λ ty. IsFunctionFault rule (lists_of lists.now) ty fault)) }
{
    match lists.spaces.functions.get(entry as usize) {
        Some(ty) => function_fault(lists, rule, *ty),
        None => unreachable!(),
    }
}

fn function_fault(lists: &Lists<'_, '_>, rule: Rule, ty: u32) -> Result<RuleFault, AllocError>
    requires imported { lists.now.imported_functions ≤ length lists.now.spaces.functions.items }
    requires breaks { ¬ FunctionKeeps rule (lists_of lists.now) ty }
    ensures { IfOk result (IsFunctionFault rule (lists_of lists.now) ty) }
{
    match rule {
        Rule::L2 => Ok(function_type_fault(lists, ty)),
        Rule::L3 => body_count_fault(lists),
        _ => unreachable!(),
    }
}

/// What is wrong with the tag that has this index.
pub(crate) fn fault_of_tag(lists: &Lists<'_, '_>, entry: u32) -> RuleFault
    requires { At (lists_of lists.now).tags entry (λ ty. ¬ NamesFunctionType (lists_of lists.now) ty) }
    ensures { At (lists_of lists.now).tags entry (λ ty. IsFunctionTypeFault (lists_of lists.now) ty result) }
{
    match lists.spaces.tags.get(entry as usize) {
        Some(ty) => function_type_fault(lists, *ty),
        None => unreachable!(),
    }
}

/// Why an index is not that of a function type.
fn function_type_fault(lists: &Lists<'_, '_>, ty: u32) -> RuleFault
    requires { ¬ NamesFunctionType (lists_of lists.now) ty }
    ensures { IsFunctionTypeFault (lists_of lists.now) ty result }
{
    let count = lists.types.count();
    if ty < count {
        return RuleFault::NotAFunctionType(ty);
    }
    RuleFault::NoSuchEntry {
        space: IndexSpace::Types,
        index: ty,
        count: u64::from(count),
    }
}

/// How many functions are defined, and how many bodies there are. More than `usize::MAX` bodies give
/// an `AllocError`.
pub(crate) fn body_count_fault(lists: &Lists<'_, '_>) -> Result<RuleFault, AllocError>
    requires imported { lists.now.imported_functions ≤ length lists.now.spaces.functions.items }
    requires breaks { ¬ HasBodies (lists_of lists.now) }
    ensures { IfOk result (IsBodyCountFault (lists_of lists.now)) }
{
    let functions = lists.spaces.functions.len() - lists.imported_functions;
    let bodies = count_entries::<FunctionBody<'_>>(lists.source);
    if bodies == usize::MAX {
        return Err(AllocError);
    }
    Ok(RuleFault::BodyCount {
        functions: functions as u64,
        bodies: bodies as u64,
    })
}

// ---- limits

/// What is wrong with the table type that has this index.
pub(crate) fn fault_of_table_type(lists: &Lists<'_, '_>, entry: u32) -> RuleFault
    requires { At (lists_of lists.now).table_types entry (λ t. ¬ IsOrdered t) }
    ensures { At (lists_of lists.now).table_types entry (λ t. IsTableTypeFault t result) }
{
    match lists.spaces.table_types.get(entry as usize) {
        Some(table) => table_type_fault(table),
        None => unreachable!(),
    }
}

fn table_type_fault(table: &TableType) -> RuleFault
    requires { ¬ IsOrdered table.now }
    ensures { IsTableTypeFault table.now result }
{
    match table.maximum {
        Some(maximum) => RuleFault::MaximumBelowMinimum {
            minimum: table.initial,
            maximum,
        },
        None => unreachable!(),
    }
}

/// What is wrong with the memory that has this index.
pub(crate) fn fault_of_memory(lists: &Lists<'_, '_>, entry: u32) -> RuleFault
    requires { At (lists_of lists.now).memories entry (λ t. ¬ HasLimits t) }
    ensures { At (lists_of lists.now).memories entry (λ t. IsMemoryFault t result) }
{
    match lists.spaces.memories.get(entry as usize) {
        Some(memory) => memory_fault(memory),
        None => unreachable!(),
    }
}

fn memory_fault(memory: &MemoryType) -> RuleFault
    requires { ¬ HasLimits memory.now }
    ensures { IsMemoryFault memory.now result }
{
    let log2 = memory.page_size_log2.unwrap_or(DEFAULT_PAGE_SIZE_LOG2);
    if log2 != 0 && log2 != DEFAULT_PAGE_SIZE_LOG2 {
        return RuleFault::PageSize(log2);
    }
    let address_bits = if memory.memory64 { 64 } else { 32 };
    match memory.maximum {
        None => {
            if memory.shared {
                return RuleFault::SharedWithoutMaximum;
            }
            RuleFault::ManyPages {
                pages: memory.initial,
                log2,
                address_bits,
            }
        }
        Some(maximum) => {
            if maximum < memory.initial {
                return RuleFault::MaximumBelowMinimum {
                    minimum: memory.initial,
                    maximum,
                };
            }
            RuleFault::ManyPages {
                pages: maximum,
                log2,
                address_bits,
            }
        }
    }
}

// ---- the start function

/// What is wrong with the start function that has this number.
pub(crate) fn fault_of_start(lists: &Lists<'_, '_>, entry: u32) -> RuleFault
    requires { At (lists_of lists.now).starts entry (λ start. ¬ CanStart (lists_of lists.now) start) }
    ensures { At (lists_of lists.now).starts entry (λ start. IsStartFault (lists_of lists.now) start result) }
{
    match start_at(lists.source, entry) {
        Some(function) => start_fault(lists, function),
        None => unreachable!(),
    }
}

fn start_fault(lists: &Lists<'_, '_>, function: u32) -> RuleFault
    requires { ¬ CanStart (lists_of lists.now) function }
    ensures { IsStartFault (lists_of lists.now) function result }
{
    match lists.spaces.functions.get(function as usize) {
        Some(ty) => start_type_fault(lists, function, *ty),
        None => RuleFault::NoSuchEntry {
            space: IndexSpace::Functions,
            index: function,
            count: lists.spaces.functions.len() as u64,
        },
    }
}

/// What is wrong with the type of a start function.
fn start_type_fault(lists: &Lists<'_, '_>, function: u32, ty: u32) -> RuleFault
    requires listed { slice_get lists.now.spaces.functions.items function ≡ Some ty }
    requires breaks { ¬ CanStart (lists_of lists.now) function }
    ensures { IsStartFault (lists_of lists.now) function result }
{
    if is_function_at(lists, ty) {
        return RuleFault::StartType { function };
    }
    function_type_fault(lists, ty)
}
