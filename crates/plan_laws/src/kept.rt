//! What the types of a plan keep, read off a plan.

ghost use Rattle.std.specs.Prelude.{All, map};
ghost use Rattle.plan_laws.specs.Kept.{IsKept, IsSized, Rises};
ghost use Rattle.plan_laws.specs.Same.{local_names, locals_named};

use plan_text::Plan;
use std::collections::BTreeMap;
use wasm_convert::GlobalConstValue;
use wasm_index::{DefinedGlobalIndex, FuncIndex};

/// Names are in the order of their functions and locals, and known values of globals are integers
/// of their bits.
pub(crate) fn keeps(plan: &Plan)
    ensures { IsKept plan.now }
{
    let names = &plan.translation.debuginfo.name_section;
    let _count = names.func_names.len();
    keep_locals(&names.locals_names);
    keep_sizes(plan.translation.module.global_initializers.as_slice());
}

/// The names of locals are in the order of their functions, and those of a function in the order
/// of their locals.
fn keep_locals(names: &BTreeMap<FuncIndex, BTreeMap<u32, &str>>)
    ensures functions { Rises (map locals_named names.now.entries) }
    ensures locals { All (λ entry. Rises (local_names entry.1)) names.now.entries }
{
    let _count = names.len();
    for (_, locals) in names.iter() {
        keep_names(locals);
    }
}

/// The names of a function's locals are in the order of the locals.
fn keep_names(names: &BTreeMap<u32, &str>)
    ensures { Rises (local_names names.now) }
{
    let _count = names.len();
}

/// The value of each constant global fits the bits of its type.
fn keep_sizes(values: &[(DefinedGlobalIndex, GlobalConstValue)])
    ensures { All (λ g. IsSized g.1) values.now }
{
    for value in values {
        keeps_size(value.1);
    }
}

/// An integer has the bits of its type.
fn keeps_size(value: GlobalConstValue)
    ensures { IsSized value }
{
    match value {
        GlobalConstValue::I32(number) => {
            let _number = number;
        }
        GlobalConstValue::I64(number) => {
            let _number = number;
        }
        GlobalConstValue::F32(_) | GlobalConstValue::F64(_) | GlobalConstValue::V128(_) => {}
    }
}
