//! What follows from the plan of active data segments, and from images.

ghost use Rattle.std.specs.Prelude.{◌≡◌, ◌≤◌, ◌↔◌, ℕ, ◌+◌, ◌-◌, List, length, map, sum_by, slice_get, Option, Some, None};
ghost use Rattle.std.specs.Int.{IsPowerOfTwo};
ghost use Rattle.wasm_spec.specs.Module.{Module, imported_memories, defined_memories};
ghost use Rattle.replay_spec.specs.Phases.{trap_of};
ghost use Rattle.replay_spec.specs.Values.{Value, offset_over};
ghost use Rattle.replay_spec.specs.Data.{ActiveSegment, segments_phase};
ghost use Rattle.replay_spec.specs.Held.{held_segments};
ghost use Rattle.replay_spec.specs.Plan.{MemoryPlan, AgreesOver, Agrees};
ghost use Rattle.replay_spec.specs.Images.{ImageOptions, ImageMemory, image_memory_of, size_of, IsStatic, MemoryImage, written_on, bytes_on, ImageOf, IsImage, AreImages, IsMemoryPlan, IsTight};

/// The plan of active segments leaves what the segments leave, over any globals and any contents of
/// imported memories, and traps where they trap;
/// where all segments become images none of them traps.
pub fn memory_plan_laws()
    ensures agrees { (options : ImageOptions) (imports : ℕ) (memories : List ImageMemory) (active : List ActiveSegment) (passive : List (List ℕ)) (plan : MemoryPlan)
        → IsPowerOfTwo options.page → IsMemoryPlan options imports memories active passive plan → AgreesOver imports (map size_of memories) active plan }
    ensures no_trap { (options : ImageOptions) (imports : ℕ) (memories : List ImageMemory) (active : List ActiveSegment) → IsStatic options imports memories active
        → (globals : List Value) (fields : ℕ → ℕ) (imported : List (List ℕ)) → length imported ≡ imports → trap_of (segments_phase (offset_over globals fields) imported (map size_of memories) active) ≡ None }
    // The plan of a module, over its segments as a plan holds them.
    ensures module { (options : ImageOptions) (m : Module) (passive : List (List ℕ)) (plan : MemoryPlan) → IsPowerOfTwo options.page
        → IsMemoryPlan options (length (imported_memories m)) (map image_memory_of (defined_memories m)) (held_segments m) passive plan → Agrees m plan }
{}

/// An image is tight, and there is one list of images at most.
pub fn memory_image_laws()
    ensures tight { (options : ImageOptions) (imports : ℕ) (memories : List ImageMemory) (active : List ActiveSegment) → IsPowerOfTwo options.page
        → IsStatic options imports memories active → (m : ℕ) (image : MemoryImage) → IsImage options.page (written_on active m) image
        → (memory : ImageMemory) → slice_get memories (m - imports) ≡ Some memory
        → IsTight options memory (written_on active m) (bytes_on m active) image }
    ensures one { (page memories : ℕ) (active : List ActiveSegment) (xs ys : List (Option MemoryImage))
        → AreImages page memories active xs → AreImages page memories active ys → xs ≡ ys }
{}

/// There are images of any memories, and a plan of every module. Two plans of one module have the
/// same runtime data, so that a number of bytes is reached by those of every plan exactly where it
/// is reached by those of some plan.
pub fn memory_plan_exists_laws()
    ensures images { (page memories : ℕ) (active : List ActiveSegment) → (images : List (Option MemoryImage)) × AreImages page memories active images }
    ensures plan { (options : ImageOptions) (imports : ℕ) (memories : List ImageMemory) (active : List ActiveSegment) (passive : List (List ℕ))
        → (plan : MemoryPlan) × IsMemoryPlan options imports memories active passive plan }
    ensures one_runtime { (options : ImageOptions) (imports : ℕ) (memories : List ImageMemory) (active : List ActiveSegment) (passive : List (List ℕ)) (plan other : MemoryPlan)
        → IsMemoryPlan options imports memories active passive plan → IsMemoryPlan options imports memories active passive other → plan.runtime ≡ other.runtime }
    ensures one_size { (options : ImageOptions) (imports : ℕ) (memories : List ImageMemory) (active : List ActiveSegment) (passive : List (List ℕ)) (size : ℕ)
        → ((plan : MemoryPlan) → IsMemoryPlan options imports memories active passive plan → size ≤ sum_by length plan.runtime)
        ↔ ((plan : MemoryPlan) × IsMemoryPlan options imports memories active passive plan × (size ≤ sum_by length plan.runtime)) }
{}
