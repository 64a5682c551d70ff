//! Which memory's image makes the runtime data too large.

ghost use Rattle.std.specs.Prelude.{IfOk};
ghost use Rattle.std.specs.Int.{IsPowerOfTwo};
ghost use Rattle.rule_breaks.specs.declared.lists.ModuleList.TheVariants as list;
ghost use Rattle.rule_breaks.specs.Listed.{IsListed};
ghost use Rattle.translate.specs.Options.{init_options};
ghost use Rattle.translate.specs.Planned.{KeepsAnd, HasMuchData};
ghost use Rattle.plan_excess.specs.Past.{PassesWithImage};

use crate::translated::translation_of;
use entity_map::{EntityRef, OutOfMemory};
use form_types::Validator;
use module_types::ModuleTypesBuilder;
use std::alloc::Global;
use wasm_types::Tunables;

/// The memory with whose image the runtime data pass 4294967295 bytes. The bytes have a
/// translation.
pub(crate) fn first_image(
    alloc: Global,
    tunables: &Tunables,
    page_size: u64,
    max_image: u64,
    bytes: &[u8],
) -> Result<u32, OutOfMemory>
    requires page_size { IsPowerOfTwo page_size }
    requires much { KeepsAnd bytes.now (HasMuchData (init_options tunables.now page_size max_image)) }
    ensures { IfOk result (λ memory. KeepsAnd bytes.now (λ m.
        PassesWithImage (init_options tunables.now page_size max_image) m memory × IsListed m list.Memories memory)) }
{
    let validator = Validator::new(0);
    let mut types = ModuleTypesBuilder::new(alloc, &validator);
    let translation = translation_of(alloc, tunables, &validator, &mut types, bytes)?;
    let found = translation.too_large_at(alloc, tunables, page_size, max_image);
    // Dropped by one call, not field by field at each exit.
    drop(translation);
    match found? {
        Some(memory) => Ok(memory.as_u32()),
        None => unreachable!(),
    }
}
