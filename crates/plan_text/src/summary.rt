//! The summary of a module that was made.

ghost use Rattle.std.specs.Prelude.{◌≡◌, IfOk};
ghost use Rattle.plan_text.specs.Summary.{summary_of, runtime_total};

use crate::Plan;
use entity_map::{EntityRef, OutOfMemory};
use plan_lines::{Text, append_context, append_numbers, append_startup};
use std::alloc::Global;
use wasm_index::RuntimeDataIndex;

/// The summary of the plan of a module that was made: its number, its size in bytes, how many types
/// it has, the bytes of its runtime data, and the lines of startup and of the context.
///
/// # Errors
/// `OutOfMemory` where the text finds no memory.
#[tactic(auto, unfolding(crate::specs::Summary::summary_of))]
pub fn summary_text(
    alloc: Global,
    n: u32,
    length: u64,
    plan: &Plan<'_>,
) -> Result<Vec<u8>, OutOfMemory>
    ensures { IfOk result (λ text. text.items ≡ summary_of n length plan.now) }
{
    let mut text = Text::new(alloc);
    append_numbers(&mut text, "generated", &[u64::from(n)])?;
    append_numbers(&mut text, "bytes", &[length])?;
    append_numbers(&mut text, "types", &[plan.types.len_types() as u64])?;
    append_numbers(&mut text, "runtime", &[runtime_total(plan)])?;
    append_startup(&mut text, &plan.translation.module.startup)?;
    append_context(&mut text, &plan.offsets)?;
    Ok(text.into_bytes())
}

// The bytes of the runtime data in sum.
fn runtime_total(plan: &Plan<'_>) -> u64
    ensures { result ≡ runtime_total plan.now }
{
    let ranges = &plan.translation.module.runtime_data;
    let mut total = 0;
    for number in 0..ranges.len() as u32 {
        let range = &ranges[RuntimeDataIndex::from_u32(number)];
        total += u64::from(range.end.saturating_sub(range.start));
    }
    total
}
