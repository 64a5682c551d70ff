//! Worked examples of the definitions.

ghost use Rattle.std.specs.Prelude.{◌≡◌, ◌∷◌, [], true, codes, None, Some};
ghost use Rattle.command_words.specs.Commands.{Names, plain_command};

/// `plan` alone.
pub fn worked_plan()
    ensures { Names (codes "plan" ∷ []) (plain_command None) }
{}

/// `plan` with two switches.
pub fn worked_switches()
    ensures { let plain = plain_command None in
        Names (codes "plan" ∷ codes "--cow" ∷ codes "--lazy-tables" ∷ [])
        (record plain { tunables = record (plain.tunables) { memory_init_cow = true; table_lazy_init = true } }) }
{}

/// The module of number two.
pub fn worked_generator()
    ensures { Names (codes "generate" ∷ codes "2" ∷ []) (plain_command (Some 2)) }
{}
