//! What is too large in a module that keeps the listed rules.

ghost use Rattle.std.specs.Prelude.{◌≡◌, IfOk};
ghost use Rattle.module_environ.specs.Translated.{IsTranslated};
ghost use Rattle.module_types.specs.Builder.{builder_view, new_builder};
ghost use Rattle.translate.specs.Planned.{KeepsAnd};
ghost use Rattle.wasm_index.specs.Index.{index_of};
ghost use Rattle.plan_excess.specs.Large.{IsFirstLarge};

use crate::kinds::ExcessKind;
use crate::objects::large_of;
use command_words::Collector;
use entity_map::{EntityRef, OutOfMemory};
use form_types::Validator;
use init_plan::ModuleTranslation;
use module_environ::ModuleEnvironment;
use module_types::ModuleTypesBuilder;
use std::alloc::Global;
use wasm_index::StaticModuleIndex;
use wasm_types::Tunables;

/// The first declared type whose objects are too large; where there is none, the first such tag.
/// The bytes have a translation.
pub(crate) fn first_large(
    alloc: Global,
    tunables: &Tunables,
    collector: Collector,
    bytes: &[u8],
) -> Result<Option<ExcessKind>, OutOfMemory>
    ensures { IfOk result (λ found. KeepsAnd bytes.now (λ m. IsFirstLarge collector m found)) }
{
    let validator = Validator::new(0);
    let mut types = ModuleTypesBuilder::new(alloc, &validator);
    let translation = translation_of(alloc, tunables, &validator, &mut types, bytes)?;
    let types = types.finish();
    let module = &translation.module;
    let declared = module.types.as_slice();
    let tags = module.tags.as_slice();
    let found = large_of(alloc, collector, &types, declared, tags);
    // Dropped by one call, not field by field at each exit.
    drop(translation);
    found
}

/// The translation of bytes that have one, so that only memory may run out.
pub(crate) fn translation_of<'d>(
    alloc: Global,
    tunables: &Tunables,
    validator: &Validator,
    types: &mut ModuleTypesBuilder,
    bytes: &'d [u8],
) -> Result<ModuleTranslation<'d>, OutOfMemory>
    requires new { builder_view types.old ≡ new_builder validator.now }
    requires number { validator.now ≡ 0 }
    ensures { IfOk result (λ t. IsTranslated tunables.now (index_of 0) 0 bytes.now t types.new) }
{
    let index = StaticModuleIndex::from_u32(0);
    let environment = ModuleEnvironment::new(alloc, tunables, validator, types, index)?;
    match environment.translate(alloc, bytes) {
        Ok(translation) => Ok(translation),
        Err(_) => Err(OutOfMemory),
    }
}
