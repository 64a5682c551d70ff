//! Hints at branches: any fault in a section drops all of its hints.

ghost use Rattle.std.specs.Prelude.{◌≡◌, ℕ, List, map, IfOk, IfSome, MatchOption};
ghost use Rattle.std.specs.Option.{option_map};
ghost use Rattle.std.specs.Result.{result_ok};
ghost use Rattle.form_reader.specs.ReadingNumbers.{vector_at};
ghost use Rattle.custom_sections.specs.declared.hints.Hint.{Hint};
ghost use Rattle.custom_sections.specs.HintGrammar.{hint_section};
ghost use Rattle.custom_sections.specs.HintReading.{hint_at, hint_entry_at, hints_of_section};
ghost use Rattle.custom_sections.specs.Views.{hint_entry_of};

use entity_map::OutOfMemory;
use form_reader::u32_at;
use std::alloc::Global;

/// Whether a branch of a function is likely to be taken.
#[derive(Clone, Copy, Debug, PartialEq, Eq)]
pub struct Hint {
    /// The offset of the branch, in bytes from the beginning of the function's body.
    pub func_offset: u32,
    pub taken: bool,
}

/// A hint, and the bytes after it.
#[tactic(auto, unfolding(crate::specs::HintReading::hint_at))]
fn one_hint(bytes: &[u8]) -> Option<(Hint, &[u8])>
    ensures { option_map (λ x. (x.0, x.1.now)) result ≡ result_ok (hint_at bytes.now) }
{
    let (func_offset, rest) = u32_at(bytes)?;
    match rest {
        [0x01, 0x00, rest @ ..] => Some((
            Hint {
                func_offset,
                taken: false,
            },
            rest,
        )),
        [0x01, 0x01, rest @ ..] => Some((
            Hint {
                func_offset,
                taken: true,
            },
            rest,
        )),
        _ => None,
    }
}

/// A count and that many hints, and the bytes after them.
///
/// The list grows as hints are read, since the count may be any number.
fn hint_list(alloc: Global, bytes: &[u8]) -> Result<Option<(Vec<Hint>, &[u8])>, OutOfMemory>
    ensures { IfOk result (λ o. option_map (λ x. (x.0.items, x.1.now)) o ≡ result_ok (vector_at hint_at bytes.now)) }
{
    let Some((count, mut rest)) = u32_at(bytes) else {
        return Ok(None);
    };
    let mut all = Vec::new(alloc);
    'hints: for _ in 0..count {
        let Some((one, after)) = one_hint(rest) else {
            return Ok(None);
        };
        all.push(one)?;
        rest = after;
    }
    Ok(Some((all, rest)))
}

/// A count and that many functions with their hints, and the bytes after them.
fn entries(
    alloc: Global,
    bytes: &[u8],
) -> Result<Option<(Vec<(u32, Vec<Hint>)>, &[u8])>, OutOfMemory>
    ensures { IfOk result (λ o. option_map (λ x. (map hint_entry_of x.0.items, x.1.now)) o
        ≡ result_ok (vector_at hint_entry_at bytes.now)) }
{
    let Some((count, mut rest)) = u32_at(bytes) else {
        return Ok(None);
    };
    let mut all = Vec::new(alloc);
    'entries: for _ in 0..count {
        let Some((function, of_function)) = u32_at(rest) else {
            return Ok(None);
        };
        let Some((hints, after)) = hint_list(alloc, of_function)? else {
            return Ok(None);
        };
        all.push((function, hints))?;
        rest = after;
    }
    Ok(Some((all, rest)))
}

/// The functions of a section of branch hints with their hints, in the order of the section; `None`
/// where the contents are no such section.
///
/// # Errors
/// `OutOfMemory` where the hints find no memory.
pub fn read_hints(
    alloc: Global,
    contents: &[u8],
) -> Result<Option<Vec<(u32, Vec<Hint>)>>, OutOfMemory>
    ensures read { IfOk result (λ o. option_map (λ all. map hint_entry_of all.items) o ≡ hints_of_section contents.now) }
    ensures spelled { IfOk result (λ o. IfSome o (λ all. hint_section.spells contents.now (map hint_entry_of all.items))) }
    ensures complete { (es : List (ℕ × List Hint)) → hint_section.spells contents.now es
        → IfOk result (λ o. MatchOption o ⊥ (λ all. map hint_entry_of all.items ≡ es)) }
{
    let Some((all, rest)) = entries(alloc, contents)? else {
        return Ok(None);
    };
    if !rest.is_empty() {
        return Ok(None);
    }
    Ok(Some(all))
}
