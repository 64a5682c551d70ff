//! The lines of branch hints.

ghost use Rattle.std.specs.Prelude.{◌≡◌, ◌++◌, OnOk};
ghost use Rattle.std.specs.Option.{option_map};
ghost use Rattle.plan_lines.specs.Numbers.{keyed_lines};
ghost use Rattle.plan_lines.specs.HintLines.{hint_lines, function_hints};

use crate::numbers::append_numbers;
use crate::text::Text;
use entity_map::{EntityRef, OutOfMemory};
use init_plan::{BranchHint, ModuleTranslation};
use wasm_index::FuncIndex;

/// Appends the line of a function that has an entry of hints; other functions have none.
///
/// # Errors
/// `OutOfMemory`; the text may then end anywhere.
pub fn append_function_hints(
    text: &mut Text,
    function: FuncIndex,
    hints: Option<&[BranchHint]>,
) -> Result<(), OutOfMemory>
    ensures { OnOk result (text.new ≡ text.old ++ hint_lines function (option_map (λ lent. lent.now) hints.entry)) }
{
    match hints {
        Some(hints) => append_numbers(
            text,
            "hints",
            &[function.as_u32().into(), hints.len() as u64],
        ),
        None => Ok(()),
    }
}

/// Appends the lines of the functions of the index space that have an entry of hints.
///
/// # Errors
/// `OutOfMemory`; the text may then end anywhere.
pub fn append_hints(text: &mut Text, translation: &ModuleTranslation<'_>) -> Result<(), OutOfMemory>
    ensures { OnOk result (text.new ≡ text.old ++ keyed_lines (function_hints translation.now) translation.now.module.functions) }
{
    for (function, _) in translation.module.functions.iter() {
        append_function_hints(text, function, translation.branch_hints(function))?;
    }
    Ok(())
}
