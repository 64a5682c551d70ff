//! The translation of a module, with its memories and tables planned.

ghost use Rattle.std.specs.Prelude.{◌≡◌, ◌^◌, ◌<◌, ◌≤◌, length, IfOk, IfErr, Err};
ghost use Rattle.std.specs.Int.{IsPowerOfTwo};
ghost use Rattle.module_types.specs.Builder.{builder_view, new_builder};
ghost use Rattle.translate.specs.Options.{Options, init_options};
ghost use Rattle.translate.specs.Initialised.{Initialises};
ghost use Rattle.translate.specs.Planned.{HasCause, SucceedsOrNoMemory};
ghost use Rattle.translate.specs.Valid.{CanBeInitialised};

use entity_map::EntityRef;
use form_types::Validator;
use init_plan::ModuleTranslation;
use module_environ::ModuleEnvironment;
use module_types::ModuleTypesBuilder;
use plan_text::TranslateError;
use replay_spec::startup_law;
use std::alloc::Global;
use wasm_index::StaticModuleIndex;
use wasm_types::Tunables;

/// The translation of the module that the bytes spell, with images of its memories and tables, and
/// with what remains to be written at the start. The builder, which holds no type yet, gets its
/// types.
///
/// # Errors
/// Those of `translate_module`, but for sizes of objects and of the context.
pub(crate) fn planned_translation<'d>(
    alloc: Global,
    tunables: &Tunables,
    page_size: u64,
    max_image: u64,
    validator: &Validator,
    types: &mut ModuleTypesBuilder,
    bytes: &'d [u8],
) -> Result<ModuleTranslation<'d>, TranslateError>
    requires page_size { IsPowerOfTwo page_size }
    requires new { builder_view types.old ≡ new_builder validator.now }
    requires number { validator.now ≡ 0 }
    ensures initialised { IfOk result (λ t. Initialises (init_options tunables.now page_size max_image) bytes.now t types.new) }
    ensures cause { IfErr result (λ e. (o : Options) → o.init ≡ init_options tunables.now page_size max_image → HasCause o bytes.now e) }
    ensures too_long { 2 ^ 30 ≤ length bytes.now → result ≡ Err TranslateError.TooLarge }
    ensures complete { CanBeInitialised (init_options tunables.now page_size max_image) bytes.now → SucceedsOrNoMemory result }
{
    // The proof depends on this call, which does nothing when it is run.
    startup_law();
    let index = StaticModuleIndex::from_u32(0);
    let environment = ModuleEnvironment::new(alloc, tunables, validator, types, index)?;
    let mut translation = environment.translate(alloc, bytes)?;
    if let Err(error) = translation.finalize_memory_init(
        alloc, tunables, page_size, max_image, types,
    ) {
        // Dropped by one call, not field by field at each exit.
        drop(translation);
        return Err(error.into());
    }
    if let Err(error) = translation.finalize_table_init(alloc, tunables, types) {
        drop(translation);
        return Err(error.into());
    }
    Ok(translation)
}
