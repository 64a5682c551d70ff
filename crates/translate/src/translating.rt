//! Bytes become a plan.

ghost use Rattle.std.specs.Prelude.{◌≡◌, ◌⊎◌, ◌^◌, ◌≤◌, length, Err, IfOk, IfErr};
ghost use Rattle.std.specs.Int.{IsPowerOfTwo};
ghost use Rattle.plan_text.specs.PlanText.{IsPrintable};
ghost use Rattle.translate.specs.Costs.{CostsAtMost};
ghost use Rattle.translate.specs.Options.{with_options, init_options, options_of};
ghost use Rattle.translate.specs.Valid.{IsValid};
ghost use Rattle.translate.specs.Planned.{IsPlanned, HasCause, SucceedsOrNoMemory};

use crate::initialising::planned_translation;
use crate::layouts::layouts_for;
use command_words::{Collector, Command};
use form_types::Validator;
use module_types::ModuleTypesBuilder;
use plan_text::{Plan, TranslateError};
use std::alloc::Global;
use vm_offsets::VMOffsets;
use wasm_types::Tunables;

/// The plan of the module that the bytes spell, with these options: the switches, how objects are
/// collected, the size of a pointer of the target, the page size of images and the extent from
/// which on data become an image only where they fill more than half of it.
///
/// # Errors
/// `Malformed`, `Unsupported` and `TooLarge` by what the bytes spell and by their length, `Invalid`
/// where the module breaks a listed rule, `TooLarge` also where the runtime data pass 4294967295
/// bytes, `OffsetOverflow` where an object or the context does; `OutOfMemory`.
pub fn translate_module<'d>(
    alloc: Global,
    tunables: &Tunables,
    collector: Collector,
    ptr: u8,
    page_size: u64,
    max_image: u64,
    bytes: &'d [u8],
) -> Result<Plan<'d>, TranslateError>
    requires pointer { (ptr ≡ 4) ⊎ (ptr ≡ 8) }
    requires page_size { IsPowerOfTwo page_size }

    // The bytes spell a module that keeps the listed rules, and the plan is its plan.
    ensures planned { IfOk result (IsPlanned (with_options tunables.now collector ptr page_size max_image) bytes.now) }
    // So the text of the plan can be made.
    ensures printable { IfOk result (λ plan. IsPrintable plan.translation) }
    // What it costs is bounded by the bytes and the options.
    ensures costs { IfOk result (CostsAtMost (init_options tunables.now page_size max_image) bytes.now) }

    // Each refusal has its cause; length goes first.
    ensures cause { IfErr result (HasCause (with_options tunables.now collector ptr page_size max_image) bytes.now) }
    ensures too_long { 2 ^ 30 ≤ length bytes.now → result ≡ Err TranslateError.TooLarge }

    // Valid input has a plan, unless memory runs out.
    ensures complete { IsValid (with_options tunables.now collector ptr page_size max_image) bytes.now → SucceedsOrNoMemory result }
{
    let validator = Validator::new(0);
    let mut types = ModuleTypesBuilder::new(alloc, &validator);
    let translation = planned_translation(
        alloc, tunables, page_size, max_image, &validator, &mut types, bytes,
    )?;
    let types = types.finish();
    let layouts = match layouts_for(alloc, collector, &types) {
        Ok(layouts) => layouts,
        Err(error) => {
            // Dropped by one call, not field by field at each exit.
            drop(translation);
            return Err(error);
        }
    };
    match VMOffsets::new(ptr, &translation.module) {
        Ok(offsets) => Ok(Plan {
            translation,
            types,
            layouts,
            offsets,
        }),
        Err(error) => {
            drop(translation);
            Err(error.into())
        }
    }
}

/// The plan of the module that the bytes spell, with the options of a command.
///
/// # Errors
/// Those of `translate_module`.
pub fn plan_of<'d>(
    alloc: Global,
    command: &Command,
    bytes: &'d [u8],
) -> Result<Plan<'d>, TranslateError>
    requires pointer { (command.now.ptr ≡ 4) ⊎ (command.now.ptr ≡ 8) }
    requires page_size { IsPowerOfTwo command.now.page_size }
    ensures planned { IfOk result (IsPlanned (options_of command.now) bytes.now) }
    ensures printable { IfOk result (λ plan. IsPrintable plan.translation) }
    ensures costs { IfOk result (CostsAtMost (options_of command.now).init bytes.now) }
    ensures cause { IfErr result (HasCause (options_of command.now) bytes.now) }
    ensures too_long { 2 ^ 30 ≤ length bytes.now → result ≡ Err TranslateError.TooLarge }
    ensures complete { IsValid (options_of command.now) bytes.now → SucceedsOrNoMemory result }
{
    translate_module(
        alloc,
        &command.tunables,
        command.collector,
        command.ptr,
        command.page_size,
        command.max_image,
        bytes,
    )
}
