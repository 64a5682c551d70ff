//! Startup, where the memories are planned.

ghost use Rattle.std.specs.Prelude.{◌-◌, ◌≡◌, ◌≢◌, ◌⊎◌, ◌↔◌, ◌<◌, ◌≤◌, ◌^◌, ℕ, length, map, sum_by, false, true, is_none, IsTrue, All, Contains, Err, None, OnOk, OnErr};
ghost use Rattle.std.specs.List.{list_all, filter_map};
ghost use Rattle.module_types.specs.Builder.{builder_view, starts};
ghost use Rattle.replay_spec.specs.Startup.{is_empty, raised_by_memories};
ghost use Rattle.init_plan.specs.Startup.{raised, types_after, startup_kind, with_startup};
ghost use Rattle.std.specs.Int.{IsPowerOfTwo};
ghost use Rattle.replay_spec.specs.Plan.{MemoryPlan, AgreesOver, left_to_write, ranges_from};
ghost use Rattle.replay_spec.specs.Images.{IsMemoryPlan};
ghost use Rattle.init_plan.specs.Images.{image_options, image_memories, BeginsByRule, HasTightImages, HasWholeRanges, WillHaveRuntimeSize};
ghost use Rattle.init_plan.specs.Tables.{TableHalfIsReady};
ghost use Rattle.init_plan.specs.Ready.{MemoryHalfIsReady};
ghost use Rattle.init_plan.specs.Views.{memory_plan_of, images_of, processed_of, planned_offset_of, IsStatic, initializers_of, passive_data_of, passive_bytes, data_total, defined_sizes, ranges_of, FindsInOrder, IsProcessed, OnlyMemoryInitChanges};

use crate::error::PlanError;
use crate::translation::{MemoryInit, MemorySegmentOffset, ModuleTranslation};
use memory_images::ImageSettings;
use module_types::{BuildError, ModuleTypesBuilder};
use std::alloc::Global;
use wasm_index::{MemoryIndex, RuntimeDataIndex};
use wasm_module::MemoryInitialization;
use wasm_types::Tunables;

impl ModuleTranslation<'_> {
    /// Plans the active data segments: images that the memories begin as, or segments that are kept
    /// to be written, and the runtime data that holds the bytes. Pages of images have `page_size`
    /// bytes, and an extent below `max_image` bytes is always dense enough. Kept segments and
    /// images require startup. After an error the translation may only be dropped.
    ///
    /// # Errors
    /// `TooLarge` where the runtime data pass 4294967295 bytes, before an image is made and
    /// whatever the builder is; `Poisoned` where the builder is; `OutOfMemory`.
    pub fn finalize_memory_init(
        &mut self,
        alloc: Global,
        tunables: &Tunables,
        page_size: u64,
        max_image: u64,
        types: &mut ModuleTypesBuilder,
    ) -> Result<(), PlanError>
        requires ready { MemoryHalfIsReady self.old }
        requires page_size { IsPowerOfTwo page_size }
        requires room { types.old.is_poisoned ≡ false → length (starts (builder_view types.old)).built.types < u32.MAX }

        // The plan is that of the definitions: images alone where the image rule holds, and
        // otherwise every segment, in order.
        ensures planned { OnOk result (IsMemoryPlan (image_options tunables.now page_size max_image) self.old.module.num_imported_memories
            (image_memories self.old.module) (initializers_of self.old) (passive_bytes self.old) (memory_plan_of self.new)) }
        ensures begins { OnOk result (BeginsByRule (image_options tunables.now page_size max_image) self.old self.new) }
        ensures processed { OnOk result (IsProcessed self.new.memory_init) }

        // It leaves what the segments leave, over any globals and any contents of the imported memories.
        ensures agrees { OnOk result (AgreesOver self.old.module.num_imported_memories (defined_sizes self.old.module)
            (initializers_of self.old) (memory_plan_of self.new)) }

        // Each image has the contents, and is not much larger than the data.
        ensures tight { OnOk result (HasTightImages (image_options tunables.now page_size max_image) self.old.module.num_imported_memories
            (image_memories self.old.module) (initializers_of self.old) (passive_bytes self.old) (memory_plan_of self.new)) }

        // Runtime data are contiguous from 0, those of images from page to page.
        ensures ranges { OnOk result (ranges_of self.new.module ≡ ranges_from 0 (map length (memory_plan_of self.new).runtime)) }
        ensures whole_ranges { OnOk result (HasWholeRanges page_size (memory_plan_of self.new).images (ranges_of self.new.module)) }

        // Each passive segment is found with its bytes, in order after the other runtime data, and
        // no other is found.
        ensures found { let plan = memory_plan_of self.new in let ps = passive_data_of self.old in
            OnOk result (FindsInOrder plan.runtime plan.passive (length plan.runtime - length ps) ps) }
        ensures others { OnOk result ((index : ℕ) → ¬ Contains (map (λ p. p.0) (passive_data_of self.old)) index →
            (memory_plan_of self.new).passive index ≡ None) }

        // Kept segments and images require startup, and the builder gains its type where there was
        // none before.
        ensures startup { let kind = raised_by_memories (memory_plan_of self.new) (startup_kind self.old.module.startup) in
            OnOk result (self.new.module.startup ≡ raised kind self.old.module.startup (builder_view types.old)) }
        ensures types { let kind = raised_by_memories (memory_plan_of self.new) (startup_kind self.old.module.startup) in
            OnOk result (builder_view types.new ≡ types_after kind self.old.module.startup (builder_view types.old)) }

        ensures same { OnOk result (OnlyMemoryInitChanges self.old self.new) }
        ensures tables_ready { TableHalfIsReady self.old → OnOk result (TableHalfIsReady self.new) }

        // Too large exactly where the runtime data of the plan pass 4294967295 bytes, whatever the
        // builder is.
        ensures fits { OnOk result (sum_by length (memory_plan_of self.new).runtime < 2 ^ 32) }
        ensures too_large { result ≡ Err PlanError.TooLarge → WillHaveRuntimeSize (image_options tunables.now page_size max_image) self.old (λ size. 2 ^ 32 ≤ size) }
        ensures large { WillHaveRuntimeSize (image_options tunables.now page_size max_image) self.old (λ size. 2 ^ 32 ≤ size)
            → (result ≡ Err PlanError.TooLarge) ⊎ (result ≡ Err PlanError.OutOfMemory) }

        // Poisoned where the builder was, unless another error came first.
        ensures usable { OnOk result (types.old.is_poisoned ≡ false) }
        ensures poisoned { result ≡ Err PlanError.Poisoned → types.old.is_poisoned ≡ true }
        ensures poisoned_alone { WillHaveRuntimeSize (image_options tunables.now page_size max_image) self.old (λ size. size < 2 ^ 32)
            → types.old.is_poisoned ≡ true → (result ≡ Err PlanError.Poisoned) ⊎ (result ≡ Err PlanError.OutOfMemory) }

        // Where images are off nothing is allocated before either error is returned.
        ensures too_large_without_images { tunables.now.memory_init_cow ≡ false → 2 ^ 32 ≤ data_total self.old → result ≡ Err PlanError.TooLarge }
        ensures poisoned_without_images { tunables.now.memory_init_cow ≡ false → data_total self.old < 2 ^ 32 → types.old.is_poisoned ≡ true
            → result ≡ Err PlanError.Poisoned }

        // After an error the builder is as it was, or poisoned.
        ensures refused { OnErr result ((types.new ≡ types.old) ⊎ (types.new.is_poisoned ≡ true)) }
    {
        let settings = ImageSettings {
            enabled: tunables.memory_init_cow,
            page_size,
            max_image,
        };
        // Data that are too large are reported whatever the builder is. Where images are off
        // nothing was allocated so far.
        let images = self.sized_images(alloc, settings)?;
        if types.is_poisoned() {
            return Err(PlanError::Poisoned);
        }
        self.plan_memories(alloc, settings, images)?;
        self.raise_startup_by_memories(types)?;
        Ok(())
    }

    // Startup, where the memories are planned: segments that are kept are always written, and
    // images are written where memories need them.
    fn raise_startup_by_memories(
        &mut self,
        types: &mut ModuleTypesBuilder,
    ) -> Result<(), BuildError>
        requires room { types.old.is_poisoned ≡ false → length (starts (builder_view types.old)).built.types < u32.MAX }
        requires usable { types.old.is_poisoned ≡ false }
        requires processed { IsProcessed self.old.memory_init }
        ensures ok { let kind = raised_by_memories (memory_plan_of self.old) (startup_kind self.old.module.startup) in
            OnOk result (self.new ≡ with_startup self.old (raised kind self.old.module.startup (builder_view types.old))) }
        ensures types { let kind = raised_by_memories (memory_plan_of self.old) (startup_kind self.old.module.startup) in
            OnOk result (builder_view types.new ≡ types_after kind self.old.module.startup (builder_view types.old)) }
        ensures err { result ≢ Err BuildError.Poisoned }
        ensures refused { OnErr result (types.new.is_poisoned ≡ true) }
    {
        if !keeps_none(&self.memory_init) {
            return self.require_startup_func(types);
        }
        if !has_none(&self.module.memory_initialization) {
            return self.require_startup_for_images(types);
        }
        Ok(())
    }
}

/// Whether each planned segment is an image.
pub fn are_images(segments: &[(MemoryIndex, MemorySegmentOffset, RuntimeDataIndex)]) -> bool
    ensures { IsTrue result ↔ All (λ s. IsStatic (planned_offset_of s.1)) segments.now }
{
    segments.iter().all(|segment| matches!(segment.1, MemorySegmentOffset::Static(_)))
}

// Whether no segment remains to be written.
fn keeps_none(init: &MemoryInit<'_>) -> bool
    requires { IsProcessed init.now }
    ensures { (plan : MemoryPlan) → result ≡ is_empty (filter_map (λ s. left_to_write plan s.offset s.memory s.index) (processed_of init.now)) }
{
    match init {
        MemoryInit::Unprocessed(_) => unreachable!(),
        MemoryInit::Processed(segments) => are_images(segments),
    }
}

fn are_none(images: &[Option<(u64, RuntimeDataIndex)>]) -> bool
    ensures { IsTrue result ↔ All (λ image. image ≡ None) images.now }
{
    images.iter().all(|image| image.is_none())
}

// Whether no memory begins as an image.
fn has_none(initialization: &MemoryInitialization) -> bool
    ensures { result ≡ list_all is_none (images_of initialization.now) }
{
    match initialization {
        MemoryInitialization::Segmented => true,
        MemoryInitialization::Static { map } => are_none(map.as_slice()),
    }
}
