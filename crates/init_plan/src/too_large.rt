//! Where the runtime data become too large.

ghost use Rattle.std.specs.Prelude.{◌≡◌, ◌^◌, ◌<◌, ◌≤◌, length, sum_by, false, IfOk, IfSome, IfNone, Ok, None};
ghost use Rattle.std.specs.Int.{IsPowerOfTwo};
ghost use Rattle.wasm_index.specs.Index.{number_of};
ghost use Rattle.memory_images.specs.Past.{ImagesPassAt};
ghost use Rattle.init_plan.specs.Views.{initializers_of, passive_bytes, data_total};
ghost use Rattle.init_plan.specs.Images.{image_options, image_memories, WillHaveRuntimeSize};
ghost use Rattle.init_plan.specs.Ready.{MemoryHalfIsReady};

use crate::runtime_data::passive_length;
use crate::translation::ModuleTranslation;
use entity_map::{EntityRef, OutOfMemory};
use memory_images::{ImageSettings, too_large_at};
use std::alloc::Global;
use wasm_index::MemoryIndex;
use wasm_types::Tunables;

impl ModuleTranslation<'_> {
    /// The memory with whose image the runtime data pass 4294967295 bytes; those of passive
    /// segments count first. `None` where the images do not make them so large. No image is made,
    /// and where images are off nothing is allocated.
    ///
    /// # Errors
    /// `OutOfMemory` where an allocation fails.
    #[tactic(auto, using(crate::proofs::Sized::none_large))]
    pub fn too_large_at(
        &self,
        alloc: Global,
        tunables: &Tunables,
        page_size: u64,
        max_image: u64,
    ) -> Result<Option<MemoryIndex>, OutOfMemory>
        requires ready { MemoryHalfIsReady self.now }
        requires page_size { IsPowerOfTwo page_size }
        ensures off { tunables.now.memory_init_cow ≡ false → result ≡ Ok None }
        ensures bound { IfOk result (λ o. IfSome o (λ memory. number_of memory < length self.now.module.memories)) }
        ensures past { IfOk result (λ o. IfSome o (λ memory. ImagesPassAt (image_options tunables.now page_size max_image)
            self.now.module.num_imported_memories (image_memories self.now.module) (initializers_of self.now)
            (sum_by length (passive_bytes self.now)) (number_of memory))) }

        // Where the data of the segments fit, the runtime data do too.
        ensures none { IfOk result (λ o. IfNone o (data_total self.now < 2 ^ 32
            → WillHaveRuntimeSize (image_options tunables.now page_size max_image) self.now (λ size. 2 ^ 32 ≤ size) → ⊥)) }
    {
        let Ok(passive_bytes) = passive_length(&self.private_parts.passive_data) else {
            return Ok(None);
        };
        let settings = ImageSettings {
            enabled: tunables.memory_init_cow,
            page_size,
            max_image,
        };
        let segments = self.memory_init.unprocessed();
        let imported = self.module.num_imported_memories;
        let memories = self.module.memories.as_slice();
        let passive_bytes = u64::from(passive_bytes);
        match too_large_at(alloc, settings, memories, imported, segments, passive_bytes)? {
            None => Ok(None),
            Some(memory) => Ok(Some(MemoryIndex::new(memory))),
        }
    }
}
