//! What follows from the clauses of `written_ranges`.

ghost use Rattle.std.specs.Prelude.{◌≡◌, ℕ, List};
ghost use Rattle.memory_images.specs.declared.written.Written.{Written};
ghost use Rattle.memory_images.specs.Ranges.{AreWritten};

/// The answer is unique: the ranges that segments write are one list.
pub fn written_ranges_law()
    ensures { (segments : List (ℕ × ℕ)) (xs ys : List Written) → AreWritten segments xs → AreWritten segments ys → xs ≡ ys }
{}
