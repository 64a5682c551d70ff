//! Worked examples of images of memories.

ghost use Rattle.std.specs.Prelude.{◌≡◌, ℕ, [], ◌∷◌, ◌++◌, replicate, Some, None};
ghost use Rattle.replay_spec.specs.Data.{active_segments};
ghost use Rattle.replay_spec.specs.Images.{IsStatic, written_on, ImageOf, image_map, IsMemoryPlan};
ghost use Rattle.replay_spec.specs.Plan.{MemoryPlan};
ghost use Rattle.replay_spec.specs.Worked.{ends_at_minus_one};
ghost use Rattle.rule_spec.specs.WorkedKept.{overlapping};
ghost use Rattle.replay_spec.specs.WorkedImages.{images_wanted, images_below, one_memory, leading_zeros, zeros_alone, image_at};

/// When segments become images, and which.
pub fn worked_memory_images()
    ensures rule { IsStatic images_wanted 0 one_memory (active_segments overlapping) }
    ensures past_the_end { IsStatic images_wanted 0 one_memory (active_segments ends_at_minus_one) → ⊥ }
    // Whole pages around the bytes that are not zero, here of four and of two bytes.
    ensures overlap { ImageOf 4 (written_on (active_segments overlapping) 0) (Some (image_at 16 (1 ∷ 9 ∷ 3 ∷ 0 ∷ []))) }
    ensures offset_moves { ImageOf 2 (written_on (active_segments leading_zeros) 0) (Some (image_at 2 (7 ∷ 0 ∷ []))) }
    ensures zeros { ImageOf 4 (written_on (active_segments zeros_alone) 0) None }
    // The second of three memories has no image.
    ensures map { image_map 0 (Some (image_at 16 (1 ∷ [])) ∷ None ∷ Some (image_at 0 (2 ∷ [])) ∷ []) ≡ Some (16, 0) ∷ None ∷ Some (0, 1) ∷ [] }
{}

/// Every plan of two overlapping segments, where images are wanted, has one image: one page of 4096
/// bytes at offset 0, with 1, 9 and 3 at 16.
pub fn worked_memory_plan()
    ensures { (most : ℕ) (plan : MemoryPlan) → IsMemoryPlan (images_below most) 0 one_memory (active_segments overlapping) [] plan
        → (plan.images ≡ Some (0, 0) ∷ []) × (plan.runtime ≡ (replicate 16 0 ++ 1 ∷ 9 ∷ 3 ∷ replicate 4077 0) ∷ []) }
{}
