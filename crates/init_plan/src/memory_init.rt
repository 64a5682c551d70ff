//! Data segments become runtime data.

ghost use Rattle.std.specs.Prelude.{◌-◌, ◌≡◌, ◌≢◌, ◌+◌, ◌^◌, ◌<◌, ◌≤◌, ℕ, [], length, map, sum_by, false, Contains, OnOk, OnErr, IfOk, IfSome, Err, None};
ghost use Rattle.std.specs.Int.{IsPowerOfTwo};
ghost use Rattle.replay_spec.specs.Plan.{MemoryPlan, AgreesOver, ranges_from};
ghost use Rattle.replay_spec.specs.Images.{IsMemoryPlan};
ghost use Rattle.memory_images.specs.Images.{images_of as view_images};
ghost use Rattle.memory_images.specs.Views.{active_segment_of, options_of};
ghost use Rattle.init_plan.specs.Views.{memory_plan_of, initializers_of, passive_data_of, defined_sizes, ranges_of, passive_bytes, FindsInOrder, OnlyMemoriesChange, IsUnprocessed, IsProcessed, SameButSegments};
ghost use Rattle.init_plan.specs.Images.{image_memories, AreSized, BeginsByRule, BeginsAsImages, KeepsSegments, Begins};
ghost use Rattle.init_plan.specs.Ready.{MemoryHalfIsReady};

use crate::error::PlanError;
use crate::image_data::keep_images;
use crate::runtime_data::{
    check_total, keep_active, keep_passive, passive_length, ranges_end_to_end,
};
use crate::translation::{MemoryInit, ModuleTranslation};
use entity_map::OutOfMemory;
use memory_images::{Image, ImageSettings, plan_images};
use std::alloc::Global;
use std::mem;
use wasm_module::{MemoryInitialization, MemoryInitializer};

impl<'d> ModuleTranslation<'d> {
    // The images that the memories begin as, where the image rule holds, and none where every
    // segment is kept; the runtime data fit 32 bits.
    // Where images are off nothing is allocated.
    pub(crate) fn sized_images(
        &self,
        alloc: Global,
        settings: ImageSettings,
    ) -> Result<Option<Vec<Option<Image>>>, PlanError>
        requires ready { MemoryHalfIsReady self.now }
        requires page_size { IsPowerOfTwo settings.page_size }
        ensures sized { IfOk result (AreSized (options_of settings) self.now) }
        ensures too_large { result ≡ Err PlanError.TooLarge → (plan : MemoryPlan) → IsMemoryPlan (options_of settings)
            self.now.module.num_imported_memories (image_memories self.now.module) (initializers_of self.now) (passive_bytes self.now) plan
            → 2 ^ 32 ≤ sum_by length plan.runtime }
        ensures off { settings.enabled ≡ false → OnErr result (result ≡ Err PlanError.TooLarge) }
        ensures never_poisoned { result ≢ Err PlanError.Poisoned }
    {
        let segments = self.memory_init.unprocessed();
        let passive = &self.private_parts.passive_data;
        let passive_bytes = passive_length(passive)?;
        let imported = self.module.num_imported_memories;
        let memories = self.module.memories.as_slice();
        let passive_bytes = u64::from(passive_bytes);
        match plan_images(alloc, settings, memories, imported, segments, passive_bytes)? {
            Some(images) => Ok(Some(images)),
            None => {
                check_total(segments, passive)?;
                Ok(None)
            }
        }
    }

    // Plans the active data segments, except the startup that they require. The memories begin as
    // these images, where there are some.
    pub(crate) fn plan_memories(
        &mut self,
        alloc: Global,
        settings: ImageSettings,
        images: Option<Vec<Option<Image>>>,
    ) -> Result<(), OutOfMemory>
        requires ready { MemoryHalfIsReady self.old }
        requires page_size { IsPowerOfTwo settings.page_size }
        requires sized { AreSized (options_of settings) self.old images }

        // The plan is that of the definitions: images alone where the image rule holds, and else
        // every segment, in order.
        ensures planned { OnOk result (IsMemoryPlan (options_of settings) self.old.module.num_imported_memories
            (image_memories self.old.module) (initializers_of self.old) (passive_bytes self.old) (memory_plan_of self.new)) }
        ensures begins { OnOk result (BeginsByRule (options_of settings) self.old self.new) }
        ensures processed { OnOk result (IsProcessed self.new.memory_init) }

        // It leaves what the segments leave, over any globals and any contents of the imported memories.
        ensures agrees { OnOk result (AgreesOver self.old.module.num_imported_memories (defined_sizes self.old.module)
            (initializers_of self.old) (memory_plan_of self.new)) }

        // Runtime data are contiguous from 0.
        ensures ranges { OnOk result (ranges_of self.new.module ≡ ranges_from 0 (map length (memory_plan_of self.new).runtime)) }

        // Each passive segment is found with its bytes, in order after the other runtime data, and
        // no other is found.
        ensures found { let plan = memory_plan_of self.new in let ps = passive_data_of self.old in
            OnOk result (FindsInOrder plan.runtime plan.passive (length plan.runtime - length ps) ps) }
        ensures others { OnOk result ((index : ℕ) → ¬ Contains (map (λ p. p.0) (passive_data_of self.old)) index →
            (memory_plan_of self.new).passive index ≡ None) }

        ensures same { OnOk result (OnlyMemoriesChange self.old self.new) }
        ensures fits { OnOk result (sum_by length (memory_plan_of self.new).runtime < 2 ^ 32) }
    {
        let segments = self.take_segments(alloc);
        self.begin_memories(alloc, settings.page_size, images, segments)?;
        keep_passive(
            &self.private_parts.passive_data,
            &mut self.runtime_data,
            &mut self.runtime_data_map,
        )?;
        self.module.runtime_data = ranges_end_to_end(alloc, &self.runtime_data)?;
        Ok(())
    }

    // The memories begin as images where there are some; otherwise every segment remains to be
    // written.
    fn begin_memories(
        &mut self,
        alloc: Global,
        page_size: u64,
        images: Option<Vec<Option<Image>>>,
        segments: Vec<MemoryInitializer<'d>>,
    ) -> Result<(), OutOfMemory>
        requires empty { self.old.runtime_data ≡ [] }
        requires few_images { IfSome images (λ images. length images.items < 2 ^ 30) }
        requires few_segments { length segments.items < 2 ^ 30 }
        ensures begins { OnOk result (Begins page_size images (map active_segment_of segments.entry.items) self.old self.new) }
        ensures few { OnOk result (length self.new.runtime_data < 2 ^ 30) }
    {
        match images {
            Some(images) => self.begin_as_images(alloc, images, page_size),
            None => self.keep_segments(alloc, segments),
        }
    }

    // The memories begin as images.
    fn begin_as_images(
        &mut self,
        alloc: Global,
        images: Vec<Option<Image>>,
        page_size: u64,
    ) -> Result<(), OutOfMemory>
        requires { length self.old.runtime_data + length images.items < u32.MAX }
        ensures begins { OnOk result (BeginsAsImages page_size (view_images images.items) self.old self.new) }
        ensures few { OnOk result (length self.new.runtime_data ≤ length self.old.runtime_data + length images.items) }
    {
        let kept = keep_images(alloc, images, &mut self.runtime_data)?;
        self.module.memory_initialization = MemoryInitialization::Static {
            map: kept.by_memory,
        };
        self.memory_init = MemoryInit::Processed(kept.listed);
        self.data_align = Some(page_size);
        Ok(())
    }

    // Every segment remains to be written.
    fn keep_segments(
        &mut self,
        alloc: Global,
        segments: Vec<MemoryInitializer<'d>>,
    ) -> Result<(), OutOfMemory>
        requires { length self.old.runtime_data + length segments.items < u32.MAX }
        ensures kept { OnOk result (KeepsSegments (map active_segment_of segments.entry.items) self.old self.new) }
        ensures few { OnOk result (length self.new.runtime_data ≤ length self.old.runtime_data + length segments.entry.items) }
    {
        let kept = keep_active(alloc, segments, &mut self.runtime_data)?;
        self.memory_init = MemoryInit::Processed(kept);
        Ok(())
    }

    // The active segments, which are removed to be planned.
    fn take_segments(&mut self, alloc: Global) -> Vec<MemoryInitializer<'d>>
        requires { IsUnprocessed self.old.memory_init }
        ensures taken { map active_segment_of result.items ≡ initializers_of self.old }
        ensures rest { SameButSegments self.old self.new }
    {
        let emptied = MemoryInit::Processed(Vec::new(alloc));
        match mem::replace(&mut self.memory_init, emptied) {
            MemoryInit::Unprocessed(segments) => segments,
            MemoryInit::Processed(_) => unreachable!(),
        }
    }
}
