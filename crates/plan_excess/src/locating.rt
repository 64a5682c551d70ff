//! Where a module is too large, from its bytes.

ghost use Rattle.std.specs.Prelude.{◌≡◌, ◌⊎◌, ◌^◌, ◌≤◌, None, Some, length, IfOk, IfSome};
ghost use Rattle.std.specs.Int.{IsPowerOfTwo};
ghost use Rattle.wasm_spec.specs.Module.{Module};
ghost use Rattle.module_environ.specs.Readable.{IsReadable};
ghost use Rattle.plan_text.specs.declared.error.TranslateError.{TranslateError};
ghost use Rattle.translate.specs.Contexts.{Overflows};
ghost use Rattle.translate.specs.Options.{options_of};
ghost use Rattle.translate.specs.Planned.{HasCause, HasMuchData, KeepsAnd};
ghost use Rattle.plan_excess.specs.Excess.{IsExcess, HasEntry, IsPlaced, entry_of};

use crate::data::first_image;
use crate::kinds::{Excess, ExcessKind};
use crate::translated::first_large;
use command_words::Command;
use entity_map::OutOfMemory;
use form_reader::MAX_MODULE_SIZE;
use plan_text::TranslateError;
use rule_breaks::list_entry_place;
use std::alloc::Global;
use translate::{causes_law, plan_of};

/// What makes a module too large to be planned with a command's options, and where; none where it is
/// not, whether it has a plan or not.
///
/// Runtime data go first, as in a plan, then objects, exceptions and the context.
///
/// # Errors
/// `OutOfMemory` where the plan, the translation or an entry finds no memory.
pub fn locate_excess(
    alloc: Global,
    command: &Command,
    bytes: &[u8],
) -> Result<Option<Excess>, OutOfMemory>
    requires pointer { (command.now.ptr ≡ 4) ⊎ (command.now.ptr ≡ 8) }
    requires page_size { IsPowerOfTwo command.now.page_size }
    ensures excess { IfOk result (λ e. IfSome e (IsExcess (options_of command.now) bytes.now)) }
    ensures none { let o = options_of command.now in
        IfOk result (λ e. e ≡ None
        → (¬ HasCause o bytes.now TranslateError.TooLarge) × (¬ HasCause o bytes.now TranslateError.OffsetOverflow)) }
{
    let Some(error) = refusal(alloc, command, bytes) else {
        return Ok(None);
    };
    match error {
        TranslateError::TooLarge => {
            let excess = excess_of_data(alloc, command, bytes)?;
            Ok(Some(excess))
        }
        TranslateError::OffsetOverflow => {
            let excess = excess_of_sizes(alloc, command, bytes)?;
            Ok(Some(excess))
        }
        TranslateError::OutOfMemory => Err(OutOfMemory),
        _ => Ok(None),
    }
}

/// Why the bytes have no plan; none where they have one.
fn refusal(alloc: Global, command: &Command, bytes: &[u8]) -> Option<TranslateError>
    requires pointer { (command.now.ptr ≡ 4) ⊎ (command.now.ptr ≡ 8) }
    requires page_size { IsPowerOfTwo command.now.page_size }
    ensures cause { IfSome result (HasCause (options_of command.now) bytes.now) }
    ensures too_long { 2 ^ 30 ≤ length bytes.now → result ≡ Some TranslateError.TooLarge }
    ensures none { result ≡ None → (e : TranslateError)
        → HasCause (options_of command.now) bytes.now e → e ≡ TranslateError.OutOfMemory }
{
    causes_law();
    match plan_of(alloc, command, bytes) {
        Ok(plan) => {
            // Dropped by one call, not field by field.
            drop(plan);
            None
        }
        Err(error) => Some(error),
    }
}

/// What is too large where the input or the runtime data are.
fn excess_of_data(alloc: Global, command: &Command, bytes: &[u8]) -> Result<Excess, OutOfMemory>
    requires page_size { IsPowerOfTwo command.now.page_size }
    requires cause { (2 ^ 30 ≤ length bytes.now) ⊎ KeepsAnd bytes.now (HasMuchData (options_of command.now).init) }
    ensures { IfOk result (IsExcess (options_of command.now) bytes.now) }
{
    if bytes.len() >= MAX_MODULE_SIZE {
        return Ok(Excess {
            kind: ExcessKind::Input,
            place: None,
        });
    }
    let memory = first_image(
        alloc,
        &command.tunables,
        command.page_size,
        command.max_image,
        bytes,
    )?;
    placed(alloc, bytes, ExcessKind::Image { memory })
}

/// What is too large where an object, an exception or the context is.
fn excess_of_sizes(alloc: Global, command: &Command, bytes: &[u8]) -> Result<Excess, OutOfMemory>
    requires { KeepsAnd bytes.now (Overflows (options_of command.now)) }
    ensures { IfOk result (IsExcess (options_of command.now) bytes.now) }
{
    match first_large(alloc, &command.tunables, command.collector, bytes)? {
        Some(kind) => placed(alloc, bytes, kind),
        None => Ok(Excess {
            kind: ExcessKind::Context,
            place: None,
        }),
    }
}

/// The excess, with where its entry begins.
fn placed(alloc: Global, bytes: &[u8], kind: ExcessKind) -> Result<Excess, OutOfMemory>
    requires { KeepsAnd bytes.now (λ m. HasEntry m (entry_of kind)) }
    ensures kind { IfOk result (λ e. e.kind ≡ kind) }
    ensures place { IfOk result (λ e. (m : Module) → IsReadable bytes.now m → IsPlaced bytes.now m (entry_of kind) e.place) }
{
    let Some(entry) = kind.entry() else {
        return Ok(Excess { kind, place: None });
    };
    match list_entry_place(alloc, bytes, entry)? {
        Some(place) => Ok(Excess {
            kind,
            place: Some(place),
        }),
        None => unreachable!(),
    }
}
