//! A worked example of what is valid.

ghost use Rattle.rule_spec.specs.WorkedKept.{overlap_bytes};
ghost use Rattle.translate.specs.Valid.{IsValid};
ghost use Rattle.run_laws.specs.Worked.{plain_options};

/// The thirty bytes of two overlapping segments are valid: they spell a module that keeps the
/// rules, and its runtime data, its objects and its context have sizes of 32 bits.
pub fn worked_valid()
    ensures { IsValid plain_options overlap_bytes }
{}
