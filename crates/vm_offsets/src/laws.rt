//! What holds of the layout of every context.

ghost use Rattle.std.specs.Prelude.{◌≡◌, ◌≤◌, ℕ, All, AllPairs, sum_by};
ghost use Rattle.vm_structs.specs.Fields.{end_of};
ghost use Rattle.vm_structs.specs.Structs.{static_context};
ghost use Rattle.vm_offsets.specs.declared.fields.VMOffsetsFields.{VMOffsetsFields};
ghost use Rattle.vm_offsets.specs.Context.{context_entries, context_size, entry_end};
ghost use Rattle.vm_offsets.specs.Regions.{context_regions};

/// No entry begins within the static part or within an earlier entry, and each ends within the context.
pub fn entry_laws<P>()
    ensures after_static { (pointer : ℕ) (fields : VMOffsetsFields P)
        → All (λ placed. end_of static_context pointer ≤ placed.begin) (context_entries pointer fields) }
    ensures apart { (pointer : ℕ) (fields : VMOffsetsFields P)
        → AllPairs (λ earlier later. entry_end earlier ≤ later.begin) (context_entries pointer fields) }
    ensures within { (pointer : ℕ) (fields : VMOffsetsFields P)
        → All (λ placed. entry_end placed ≤ context_size pointer fields) (context_entries pointer fields) }
{}

/// The regions add up to the context.
pub fn region_laws<P>()
    ensures { (pointer : ℕ) (fields : VMOffsetsFields P)
        → sum_by (λ region. region.1) (context_regions pointer fields) ≡ context_size pointer fields }
{}
