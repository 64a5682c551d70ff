//! Worked examples of the definitions.

ghost use Rattle.std.specs.Prelude.{◌≡◌, ◌∷◌, []};
ghost use Rattle.module_generator.specs.Spelling.{unsigned, signed};
ghost use Rattle.module_generator.specs.Generated.{generated_module, parameter};

/// Numbers of one byte and of two, and parameters.
pub fn worked_parts()
    ensures last_of_one { unsigned 127 ≡ 127 ∷ [] }
    ensures first_of_two { unsigned 128 ≡ 128 ∷ 1 ∷ [] }
    ensures last_with_sign { signed 63 ≡ 63 ∷ [] }
    ensures first_with_sign { signed 64 ≡ 192 ∷ 0 ∷ [] }
    ensures second_pair { parameter 2 0 ≡ 0x7E }
    ensures first_pair { parameter 1 0 ≡ 0x7F }
{}

/// The smallest module, section by section.
pub fn worked_module()
    ensures { generated_module 1 ≡
        0 ∷ 0x61 ∷ 0x73 ∷ 0x6D ∷ 1 ∷ 0 ∷ 0 ∷ 0 ∷
        1 ∷ 0x14 ∷ 1 ∷
        0x60 ∷ 0x10 ∷ 0x7F ∷ 0x7F ∷ 0x7F ∷ 0x7F ∷ 0x7F ∷ 0x7F ∷ 0x7F ∷ 0x7F ∷ 0x7F ∷ 0x7F ∷ 0x7F ∷ 0x7F ∷ 0x7F ∷ 0x7F ∷ 0x7F ∷ 0x7F ∷ 0 ∷
        3 ∷ 2 ∷ 1 ∷ 0 ∷
        4 ∷ 4 ∷ 1 ∷ 0x70 ∷ 0 ∷ 1 ∷
        5 ∷ 3 ∷ 1 ∷ 0 ∷ 0x20 ∷
        9 ∷ 7 ∷ 1 ∷ 0 ∷ 0x41 ∷ 0 ∷ 0x0B ∷ 1 ∷ 0 ∷
        0x0A ∷ 4 ∷ 1 ∷ 2 ∷ 0 ∷ 0x0B ∷
        0x0B ∷ 0x12 ∷ 1 ∷ 0 ∷ 0x41 ∷ 0 ∷ 0x0B ∷ 0x0C ∷
        1 ∷ 1 ∷ 1 ∷ 1 ∷ 1 ∷ 1 ∷ 1 ∷ 1 ∷ 1 ∷ 1 ∷ 1 ∷ 1 ∷ [] }
{}
